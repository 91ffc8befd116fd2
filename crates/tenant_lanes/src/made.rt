//! What the chains of some tenants make of their captures.
ghost use Rattle.std.specs.Prelude.{◌≡◌, ℕ, ◌≤◌, List, ◌++◌, length, map, take, IfOk, OnErr};
ghost use Rattle.std.specs.List.{AllZip};
ghost use Rattle.flow_spec.specs.Answer as flows;
ghost use Rattle.flow_spec.specs.Answer.{ClassedItem};
ghost use Rattle.flow_spec.specs.Plan.{Plan};
ghost use Rattle.lane_spec.specs.LaneBook.{LaneBook};
ghost use Rattle.run_spec.specs.Books.{IsBookOf, IsPartBook};
ghost use Rattle.work_crew.specs.JobView.{job_view};
ghost use Rattle.tenant_lanes.specs.Dones.{AllMade};

use crate::works::all_new_works;
use brick_base::NoMemory;
use lane_core::LaneKit;
use std::alloc::Global;
use std::sync::Wait;
use std::thread::Threads;
use work_core::{NewWork, TenantDone, TenantJob};
use work_crew::run_jobs;
use work_parts::workers_make_tenant;

/// A law of each work: it answers what the plan means.
fn answers_mean<W: NewWork>()
    ensures { (p : Plan) (list : List ClassedItem) (n : ℕ) → W.ChainWork.answer p list n ≡ flows.answer p list n }
{}

/// What the chain of each job makes of its capture, over a lane for each job and so many workers over all lanes. The
/// works of all jobs are made before the first lane starts.
pub fn make_tenants<K: LaneKit, W: NewWork, R: Threads + Wait + Sync>(
    rt: &R,
    alloc: Global,
    kit: &mut K,
    jobs: &[TenantJob],
    workers: u32,
) -> Result<Vec<TenantDone>, NoMemory>
    requires workers { (1 ≤ workers) × (workers ≤ 16) }
    requires jobs { length jobs.now ≤ 16 }
    ensures open_lanes { K.open_lanes kit.new ≡ K.open_lanes kit.old }
    ensures done { IfOk result (λ done. (bs : List LaneBook) × (K.books kit.new ≡ K.books kit.old ++ bs)
        × AllZip (IsBookOf workers) (map job_view jobs.now) bs
        × AllMade (map job_view jobs.now) bs done.items) }
    ensures no_memory { OnErr result ((bs : List LaneBook) × (K.books kit.new ≡ K.books kit.old ++ bs)
        × AllZip (IsPartBook workers) (take (length bs) (map job_view jobs.now)) bs) }
{
    answers_mean::<W>();
    workers_make_tenant();
    let works = all_new_works::<W>(alloc, jobs, workers)?;
    run_jobs::<K, W, R>(rt, alloc, kit, jobs, works, workers)
}
