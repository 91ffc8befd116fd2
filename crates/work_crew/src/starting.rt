//! Lanes that are started together. Where one is refused, those before it are ended unused.
ghost use Rattle.std.specs.Prelude.{◌≡◌, ℕ, ◌+◌, ◌<◌, ◌≤◌, true, false, List, [], ◌∷◌, ◌++◌, length, map, take, Some};
ghost use Rattle.std.specs.Prelude.{IfOk, OnOk, OnErr, slice_get, slice_index, vec_len, vec_capacity};
ghost use Rattle.std.specs.List.{AllZip};
ghost use Rattle.lane_spec.specs.LaneBook.{LaneBook};
ghost use Rattle.run_spec.specs.Books.{IsPartBook};
ghost use Rattle.work_crew.specs.Members.{Members};
ghost use Rattle.work_crew.specs.Records.{records_in, numbers_where, of_worker};
ghost use Rattle.work_crew.specs.JobView.{job_view};
ghost use Rattle.work_crew.specs.Lanes.{IsStarted, IsUnusedBook};

use crate::draining::end_unused;
use crate::sending::worker_for;
use brick_base::NoMemory;
use lane_core::{LaneKit, Started};
use std::alloc::Global;
use std::sync::Wait;
use std::thread::Threads;
use work_core::TenantJob;

/// Finishes, drains and shuts a lane unused.
fn undo_one<K: LaneKit, R: Threads + Wait + Sync>(
    rt: &R,
    kit: &mut K,
    side: Started<K::Lane, K::Ingest, K::Worker>,
    job: &TenantJob,
    workers: u32,
)
    requires open { 1 ≤ K.open_lanes kit.old }
    requires started { IsStarted K.is_ingest_of K.is_worker_of K.lane_facts K.ingest_facts K.worker_facts workers
        job.now side }
    ensures closed { K.open_lanes kit.new + 1 ≡ K.open_lanes kit.old }
    ensures book { (b : LaneBook) × (K.books kit.new ≡ K.books kit.old ++ b ∷ []) × IsUnusedBook workers job.now b }
{
    let Started {
        lane,
        mut ingest,
        workers: mut seats,
    } = side;
    end_unused::<K, R>(rt, &lane, &mut ingest, &mut seats);
    kit.shut(rt, lane, ingest, seats);
}

/// Finishes, drains and shuts the lanes of the first jobs unused, in order.
fn undo_all<K: LaneKit, R: Threads + Wait + Sync>(
    rt: &R,
    kit: &mut K,
    lanes: Vec<Started<K::Lane, K::Ingest, K::Worker>>,
    jobs: &[TenantJob],
    workers: u32,
)
    requires open { length lanes.items ≤ K.open_lanes kit.old }
    requires few { length lanes.items ≤ length jobs.now }
    requires started { Members
        (IsStarted K.is_ingest_of K.is_worker_of K.lane_facts K.ingest_facts K.worker_facts workers) jobs.now
        lanes.items }
    ensures closed { K.open_lanes kit.new + length lanes.items ≡ K.open_lanes kit.old }
    ensures books { (bs : List LaneBook) × (K.books kit.new ≡ K.books kit.old ++ bs) × (length bs ≡ length lanes.items)
        × Members (IsUnusedBook workers) jobs.now bs }
{
    let mut rest = lanes;
    if let Some(last) = rest.pop() {
        let t = rest.len();
        undo_all::<K, R>(rt, kit, rest, jobs, workers);
        undo_one::<K, R>(rt, kit, last, &jobs[t], workers);
    }
}

/// How many records go to each worker.
fn shares_of(job: &TenantJob, workers: u32) -> [u32; 16]
    requires some { (1 ≤ workers) × (workers ≤ 16) }
    ensures { (w : ℕ) → w < workers
        → slice_index result w ≡ length
        (numbers_where (of_worker (job_view job.now) workers w) (records_in (job_view job.now))) }
{
    let mut shares = [0; 16];
    'each: for k in 0..job.capture.count() {
        let w = worker_for(job, workers, k);
        shares[w as usize] += 1;
    }
    shares
}

/// Starts a lane for a job.
fn start_one<K: LaneKit, R: Wait>(
    rt: &R,
    alloc: Global,
    kit: &mut K,
    job: &TenantJob,
    workers: u32,
) -> Result<Started<K::Lane, K::Ingest, K::Worker>, NoMemory>
    requires some { (1 ≤ workers) × (workers ≤ 16) }
    ensures books { K.books kit.new ≡ K.books kit.old }
    ensures opened { OnOk result (K.open_lanes kit.new ≡ K.open_lanes kit.old + 1) }
    ensures no_memory { OnErr result (K.open_lanes kit.new ≡ K.open_lanes kit.old) }
    ensures started { IfOk result
        (λ x. IsStarted K.is_ingest_of K.is_worker_of K.lane_facts K.ingest_facts K.worker_facts workers job.now x) }
{
    let shares = shares_of(job, workers);
    kit.start(
        rt,
        alloc,
        &job.capture,
        job.chain.buffers,
        job.chain.bytes,
        &shares[..workers as usize],
    )
}

/// Puts a value behind the others, where there is room. It takes no memory.
pub fn put<T: Drop>(list: &mut Vec<T>, value: T)
    requires { vec_len list.old < vec_capacity list.old }
    ensures items { list.new.items ≡ list.old.items ++ value ∷ [] }
    ensures len { vec_len list.new ≡ vec_len list.old + 1 }
    ensures room { vec_capacity list.old ≤ vec_capacity list.new }
{
    let done = list.push(value);
    done.unwrap();
}

/// Starts a lane for each job, into room that is there, until one is refused.
fn start_each<K: LaneKit, R: Wait>(
    rt: &R,
    alloc: Global,
    kit: &mut K,
    jobs: &[TenantJob],
    workers: u32,
    lanes: &mut Vec<Started<K::Lane, K::Ingest, K::Worker>>,
) -> Result<(), NoMemory>
    requires some { (1 ≤ workers) × (workers ≤ 16) }
    requires room { length jobs.now ≤ vec_capacity lanes.old }
    requires empty { lanes.old.items ≡ [] }
    ensures books { K.books kit.new ≡ K.books kit.old }
    ensures open { K.open_lanes kit.new ≡ K.open_lanes kit.old + length lanes.new.items }
    ensures few { length lanes.new.items ≤ length jobs.now }
    ensures started { Members
        (IsStarted K.is_ingest_of K.is_worker_of K.lane_facts K.ingest_facts K.worker_facts workers) jobs.now
        lanes.new.items }
    ensures all { OnOk result (length lanes.new.items ≡ length jobs.now) }
{
    'each: for t in 0..jobs.len() {
        let side = start_one::<K, R>(rt, alloc, kit, &jobs[t], workers)?;
        put(lanes, side);
    }
    Ok(())
}

/// Starts a lane for each job. Where one is refused, those before are finished, drained and shut unused.
pub fn start_all<K: LaneKit, R: Threads + Wait + Sync>(
    rt: &R,
    alloc: Global,
    kit: &mut K,
    jobs: &[TenantJob],
    workers: u32,
) -> Result<Vec<Started<K::Lane, K::Ingest, K::Worker>>, NoMemory>
    requires some { (1 ≤ workers) × (workers ≤ 16) }
    ensures books { OnOk result (K.books kit.new ≡ K.books kit.old) }
    ensures open { IfOk result (λ lanes. K.open_lanes kit.new ≡ K.open_lanes kit.old + length lanes.items) }
    ensures count { IfOk result (λ lanes. length lanes.items ≡ length jobs.now) }
    ensures started { IfOk result
        (λ lanes. Members (IsStarted K.is_ingest_of K.is_worker_of K.lane_facts K.ingest_facts K.worker_facts workers)
        jobs.now lanes.items) }
    ensures closed { OnErr result (K.open_lanes kit.new ≡ K.open_lanes kit.old) }
    ensures no_memory { OnErr result ((bs : List LaneBook) × (K.books kit.new ≡ K.books kit.old ++ bs)
        × AllZip (IsPartBook workers) (take (length bs) (map job_view jobs.now)) bs) }
{
    let mut lanes = Vec::with_capacity(alloc, jobs.len())?;
    match start_each::<K, R>(rt, alloc, kit, jobs, workers, &mut lanes) {
        Ok(()) => Ok(lanes),
        Err(_) => {
            undo_all::<K, R>(rt, kit, lanes, jobs, workers);
            Err(NoMemory)
        }
    }
}
