//! The ends of the works of a job, and what they give together.
ghost use Rattle.std.specs.Prelude.{◌≡◌, ℕ, ◌+◌, ◌<◌, ◌≤◌, List, [], ◌∷◌, ◌++◌, length, map, take, IfOk, OnOk, OnErr};
ghost use Rattle.std.specs.Prelude.{if◌then◌else◌};
ghost use Rattle.std.specs.List.{AllZip};
ghost use Rattle.run_spec.specs.Books.{IsBookOf, IsPartBook, unsent_in};
ghost use Rattle.tenant_spec.specs.Records.{big_items};
ghost use Rattle.lane_spec.specs.LaneBook.{LaneBook};
ghost use Rattle.work_core.specs.declared.job.TenantDone.{TenantDone};
ghost use Rattle.work_core.specs.declared.job.TenantJob.{TenantJob};
ghost use Rattle.work_parts.specs.Tenants.{with_big};
ghost use Rattle.work_crew.specs.Records.{is_big};
ghost use Rattle.work_crew.specs.JobView.{job_view};
ghost use Rattle.work_crew.specs.Members.{Members};
ghost use Rattle.work_crew.specs.Crews.{Threes, AreNewWorks, IsLaneDone};
ghost use Rattle.work_crew.specs.Dones.{AreExact, IsTenantDone};
ghost use Rattle.work_crew.specs.declared.crew.LaneDone.{LaneDone};

use crate::crew::{LaneDone, run_lanes};
use crate::finishing::finish_all;
use brick_base::NoMemory;
use lane_core::LaneKit;
use std::alloc::Global;
use std::sync::Wait;
use std::thread::Threads;
use work_core::{ChainWork, TenantDone, TenantJob, WorkResult, chains_own_keys, join_outputs};
use work_parts::{join_parts, merged_has_leaves};

/// The counts with so many Big records more. A count that stands at its last value may be too small: then it is as if
/// memory had run out.
fn add_big(drops: [u32; 9], big: u32) -> Result<[u32; 9], NoMemory>
    ensures counts { IfOk result (λ counts. counts ≡ with_big big drops) }
    ensures exact { OnOk result (AreExact drops) }
{
    let mut counts = drops;
    if counts.contains(&u32::MAX) {
        return Err(NoMemory);
    }
    match counts[0].checked_add(big) {
        Some(all) => counts[0] = all,
        None => return Err(NoMemory),
    }
    Ok(counts)
}

/// 1 where the record is longer than a buffer, and else 0.
fn one_if_big(job: &TenantJob, k: u32) -> u32
    requires { k < length job.now.capture.entries }
    ensures { result ≡ length (if is_big (job_view job.now) k then k ∷ [] else []) }
{
    if job.capture.entry(k).frame.len() > job.chain.bytes as usize {
        return 1;
    }
    0
}

/// How many records are longer than a buffer.
fn count_big(job: &TenantJob) -> u32
    ensures { result ≡ length (big_items (job_view job.now).chain job.now.capture) }
{
    let mut big = 0;
    'each: for k in 0..job.capture.count() {
        big += one_if_big(job, k);
    }
    big
}

/// Ends the works of a job, and joins what they give.
pub fn finish_job<W: ChainWork>(
    alloc: Global,
    job: &TenantJob,
    lane: LaneDone<W>,
    workers: u32,
) -> Result<TenantDone, NoMemory>
    requires some { 1 ≤ workers }
    requires lane { (b : LaneBook)
        × IsLaneDone W.follows W.ready W.stands W.ended W.broken workers (job_view job.now) b lane }
    ensures { IfOk result (IsTenantDone W.answer workers (job_view job.now) lane.refused) }
{
    chains_own_keys();
    merged_has_leaves();
    let LaneDone { refused, works } = lane;
    let records = job.capture.count();
    let WorkResult { groups, drops } = join_parts(alloc, works, records)?;
    let big = count_big(job);
    let accepted = records - big - refused.as_slice().len() as u32;
    let outputs = join_outputs(alloc, &job.chain, groups)?;
    let drops = add_big(drops, big)?;
    Ok(TenantDone {
        accepted,
        refused,
        outputs,
        drops,
    })
}

/// Runs the jobs as `run_lanes` does, ends their works job beside job, and answers what came of each. The works are
/// given up.
pub fn run_jobs<K: LaneKit, W: ChainWork, R: Threads + Wait + Sync>(
    rt: &R,
    alloc: Global,
    kit: &mut K,
    jobs: &[TenantJob],
    works: Vec<Vec<W>>,
    workers: u32,
) -> Result<Vec<TenantDone>, NoMemory>
    requires workers { (1 ≤ workers) × (workers ≤ 16) }
    requires jobs { length jobs.now ≤ 16 }
    requires count { length works.items ≡ length jobs.now }
    requires works { Members (AreNewWorks W.follows W.ready W.stands W.ended W.broken workers) jobs.now works.items }
    ensures open_lanes { K.open_lanes kit.new ≡ K.open_lanes kit.old }
    ensures done { IfOk result (λ done. (bs : List LaneBook) × (K.books kit.new ≡ K.books kit.old ++ bs)
        × AllZip (IsBookOf workers) (map job_view jobs.now) bs
        × (length done.items ≡ length jobs.now)
        × Threes (λ job b d. IsTenantDone W.answer workers (job_view job)
        (unsent_in (job_view job) b) d) jobs.now bs done.items) }
    ensures no_memory { OnErr result ((bs : List LaneBook) × (K.books kit.new ≡ K.books kit.old ++ bs)
        × AllZip (IsPartBook workers) (take (length bs) (map job_view jobs.now)) bs) }
{
    let lanes = run_lanes::<K, W, R>(rt, alloc, kit, jobs, works, workers)?;
    finish_all::<W, R>(rt, alloc, jobs, lanes, workers)
}

/// Runs the jobs as `run_jobs` does. The jobs are given up too.
pub fn run_crew<K: LaneKit, W: ChainWork, R: Threads + Wait + Sync>(
    rt: &R,
    alloc: Global,
    kit: &mut K,
    jobs: Vec<TenantJob>,
    works: Vec<Vec<W>>,
    workers: u32,
) -> Result<Vec<TenantDone>, NoMemory>
    requires workers { (1 ≤ workers) × (workers ≤ 16) }
    requires jobs { length jobs.items ≤ 16 }
    requires count { length works.items ≡ length jobs.items }
    requires works { Members (AreNewWorks W.follows W.ready W.stands W.ended W.broken workers) jobs.items works.items }
    ensures open_lanes { K.open_lanes kit.new ≡ K.open_lanes kit.old }
    ensures done { IfOk result (λ done. (bs : List LaneBook) × (K.books kit.new ≡ K.books kit.old ++ bs)
        × AllZip (IsBookOf workers) (map job_view jobs.items) bs
        × (length done.items ≡ length jobs.items)
        × Threes (λ job b d. IsTenantDone W.answer workers (job_view job)
        (unsent_in (job_view job) b) d) jobs.items bs done.items) }
    ensures no_memory { OnErr result ((bs : List LaneBook) × (K.books kit.new ≡ K.books kit.old ++ bs)
        × AllZip (IsPartBook workers) (take (length bs) (map job_view jobs.items)) bs) }
{
    run_jobs::<K, W, R>(rt, alloc, kit, &jobs, works, workers)
}
