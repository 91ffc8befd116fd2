//! Each work's end, and its results.
ghost use Rattle.std.specs.Prelude.{◌≡◌, None, false, IfOk};
ghost use Rattle.std.specs.List.{AllByRecursion};
ghost use Rattle.work_core.specs.ChainWork.{TookEnd};
ghost use Rattle.work_parts.specs.Works.{IsOpen, IsResultOf, AreResultsOf};

use brick_base::NoMemory;
use std::alloc::Global;
use work_core::{ChainWork, WorkResult};

/// The work when all flows have ended, in a capture of so many records.
fn end_work<W: ChainWork>(alloc: Global, work: W, records: u32) -> W
    requires ready { W.ready work }
    requires open_work { W.ended work ≡ None }
    ensures { TookEnd W.follows W.stands W.finished W.ended W.broken work result records }
{
    let mut work = work;
    work.end(alloc, records);
    work
}

/// Ends a work in a capture of so many records, and takes its results. A work that ran out of memory gives none.
fn take_part<W: ChainWork>(alloc: Global, work: W, records: u32) -> Result<WorkResult, NoMemory>
    requires ready { W.ready work }
    requires open_work { W.ended work ≡ None }
    ensures part { IfOk result (IsResultOf W.follows W.stands W.answer records work) }
    ensures works { IfOk result (λ part. W.broken work ≡ false) }
{
    let work = end_work(alloc, work, records);
    work.take_results(alloc)
}

/// The results of each work, in order.
pub fn take_parts<W: ChainWork>(
    alloc: Global,
    works: Vec<W>,
    records: u32,
) -> Result<Vec<WorkResult>, NoMemory>
    requires { AllByRecursion (IsOpen W.ready W.ended) works.items }
    ensures parts { IfOk result (λ parts. AreResultsOf W.follows W.stands W.answer records works.items parts.items) }
    ensures works { IfOk result (λ parts. AllByRecursion (λ w. W.broken w ≡ false) works.items) }
{
    let mut parts = Vec::new(alloc);
    for work in works {
        let part = take_part(alloc, work, records)?;
        parts.push(part)?;
    }
    Ok(parts)
}
