//! The works of jobs, before anything comes to them.
ghost use Rattle.std.specs.Prelude.{◌≡◌, length, IfOk};
ghost use Rattle.work_crew.specs.Crews.{AreNewWorks};
ghost use Rattle.work_crew.specs.Members.{Across};

use brick_base::NoMemory;
use std::alloc::Global;
use work_core::{NewWork, TenantJob};

/// The works of a job, one for each worker.
fn new_works<W: NewWork>(alloc: Global, job: &TenantJob, workers: u32) -> Result<Vec<W>, NoMemory>
    ensures { IfOk result
        (AreNewWorks W.ChainWork.follows W.ChainWork.ready W.ChainWork.stands W.ChainWork.ended W.ChainWork.broken
        workers job.now) }
{
    let mut works = Vec::with_capacity(alloc, workers as usize)?;
    'each: for w in 0..workers {
        let work = W::of_chain(alloc, &job.chain)?;
        works.push(work)?;
    }
    Ok(works)
}

/// The works of each job, in order.
pub fn all_new_works<W: NewWork>(
    alloc: Global,
    jobs: &[TenantJob],
    workers: u32,
) -> Result<Vec<Vec<W>>, NoMemory>
    ensures { IfOk result
        (λ works. Across (AreNewWorks W.ChainWork.follows W.ChainWork.ready W.ChainWork.stands W.ChainWork.ended
        W.ChainWork.broken workers) jobs.now works.items) }
{
    let mut works = Vec::with_capacity(alloc, jobs.len())?;
    'each: for job in jobs {
        let row = new_works::<W>(alloc, job, workers)?;
        works.push(row)?;
    }
    Ok(works)
}
