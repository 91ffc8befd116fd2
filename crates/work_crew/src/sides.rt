//! The ingests beside the workers.
ghost use Rattle.std.specs.Prelude.{◌≡◌, ℕ, ◌<◌, ◌≤◌, true, false, List, [], length, Some, None, All, IfOk, OnErr};
ghost use Rattle.std.specs.Prelude.{IfSome, slice_get};
ghost use Rattle.work_crew.specs.Members.{Across};
ghost use Rattle.work_crew.specs.IngestSides.{IsIngestReady, HasSent};
ghost use Rattle.work_crew.specs.WorkerSides.{IsWorkerReady, HasServed};
ghost use Rattle.work_core.specs.declared.job.TenantJob.{TenantJob};

use crate::row::Row;
use crate::sending::ingest;
use crate::working::worker;
use brick_base::{NoMemory, Numbers};
use lane_core::LaneKit;
use std::alloc::Global;
use std::sync::Wait;
use std::thread;
use std::thread::{Threads, join_mut};
use work_core::{ChainWork, TenantJob};

/// An ingest, the number of its lane, and what came of it.
#[derive(Debug, Drop)]
pub struct IngestSide<I> {
    pub lane: usize,
    pub seat: I,
    pub outcome: Option<Result<Numbers, NoMemory>>,
}

/// The ingest of one lane.
fn ingest_side<K: LaneKit, R: Wait>(
    rt: &R,
    alloc: Global,
    lanes: &[K::Lane],
    jobs: &[TenantJob],
    workers: u32,
    side: &mut IngestSide<K::Ingest>,
)
    requires ready { IsIngestReady K.lane_facts K.is_ingest_of K.ingest_facts lanes.now jobs.now workers side.old }
    ensures sent { HasSent K.is_ingest_of K.ingest_facts lanes.now jobs.now workers side.old side.new }
{
    let t = side.lane;
    let outcome = ingest::<K, R>(rt, alloc, &lanes[t], &mut side.seat, &jobs[t], workers);
    side.outcome = Some(outcome);
}

/// Each ingest in a thread of its own.
fn ingest_all<K: LaneKit, R: Threads + Wait + Sync>(
    rt: &R,
    alloc: Global,
    lanes: &[K::Lane],
    jobs: &[TenantJob],
    workers: &u32,
    sides: &mut [IngestSide<K::Ingest>],
)
    requires ready { All
        (λ x. IsIngestReady K.lane_facts K.is_ingest_of K.ingest_facts lanes.now jobs.now workers.now x) sides.old }
    ensures count { length sides.new ≡ length sides.old }
    ensures sent { (t : ℕ) (x y : IngestSide K.Ingest) → slice_get sides.old t ≡ Some x
        → slice_get sides.new t ≡ Some y → HasSent K.is_ingest_of K.ingest_facts lanes.now jobs.now workers.now x y }
{
    thread::for_each_mut(
        rt,
        sides,
        16,
        &|_, side: &mut IngestSide<K::Ingest>|
            requires { IsIngestReady K.lane_facts K.is_ingest_of K.ingest_facts lanes.now jobs.now workers.now
                side.old }
            ensures { HasSent K.is_ingest_of K.ingest_facts lanes.entry.now jobs.entry.now workers.entry.now side.old
                side.new }
        { ingest_side::<K, R>(rt, alloc, lanes, jobs, *workers, side) },
    );
}

/// One worker over all lanes.
fn work_side<K: LaneKit, W: ChainWork, R: Wait>(
    rt: &R,
    alloc: Global,
    lanes: &[K::Lane],
    jobs: &[TenantJob],
    side: &mut Row<K::Worker, W>,
)
    requires ready { IsWorkerReady K.lane_facts K.is_worker_of K.worker_facts W.ready W.stands W.ended W.broken
        lanes.now jobs.now side.old }
    ensures served { HasServed K.is_worker_of K.worker_facts W.ready W.stands W.ended W.broken W.follows lanes.now
        jobs.now side.old side.new }
{
    worker::<K, W, R>(rt, alloc, lanes, &mut side.seats, &mut side.works, jobs);
}

/// Each worker in a thread of its own.
fn work_all<K: LaneKit, W: ChainWork, R: Threads + Wait + Sync>(
    rt: &R,
    alloc: Global,
    lanes: &[K::Lane],
    jobs: &[TenantJob],
    sides: &mut [Row<K::Worker, W>],
)
    requires ready { All
        (λ x. IsWorkerReady K.lane_facts K.is_worker_of K.worker_facts W.ready W.stands W.ended W.broken lanes.now
        jobs.now x) sides.old }
    ensures count { length sides.new ≡ length sides.old }
    ensures served { (w : ℕ) (x y : Row K.Worker W) → slice_get sides.old w ≡ Some x → slice_get sides.new w ≡ Some y
        → HasServed K.is_worker_of K.worker_facts W.ready W.stands W.ended W.broken W.follows lanes.now jobs.now x y }
{
    thread::for_each_mut(
        rt,
        sides,
        16,
        &|_, side: &mut Row<K::Worker, W>|
            requires { IsWorkerReady K.lane_facts K.is_worker_of K.worker_facts W.ready W.stands W.ended W.broken
                lanes.now jobs.now side.old }
            ensures { HasServed K.is_worker_of K.worker_facts W.ready W.stands W.ended W.broken W.follows
                lanes.entry.now jobs.entry.now side.old side.new }
        { work_side::<K, W, R>(rt, alloc, lanes, jobs, side) },
    );
}

/// The ingests beside the workers.
pub fn run_both<K: LaneKit, W: ChainWork, R: Threads + Wait + Sync>(
    rt: &R,
    alloc: Global,
    lanes: &[K::Lane],
    jobs: &[TenantJob],
    workers: &u32,
    ingests: &mut [IngestSide<K::Ingest>],
    sides: &mut [Row<K::Worker, W>],
)
    requires ingests { All
        (λ x. IsIngestReady K.lane_facts K.is_ingest_of K.ingest_facts lanes.now jobs.now workers.now x) ingests.old }
    requires sides { All
        (λ x. IsWorkerReady K.lane_facts K.is_worker_of K.worker_facts W.ready W.stands W.ended W.broken lanes.now
        jobs.now x) sides.old }
    ensures sent { Across
        (HasSent K.is_ingest_of K.ingest_facts lanes.now jobs.now workers.now) ingests.old ingests.new }
    ensures served { Across
        (HasServed K.is_worker_of K.worker_facts W.ready W.stands W.ended W.broken W.follows lanes.now jobs.now)
        sides.old sides.new }
{
    let other = alloc;
    join_mut(
        rt,
        &mut ||
            requires { All
                (λ x. IsIngestReady K.lane_facts K.is_ingest_of K.ingest_facts lanes.now jobs.now workers.now x)
                ingests.now }
            ensures { Across
                (HasSent K.is_ingest_of K.ingest_facts lanes.entry.now jobs.entry.now workers.entry.now)
                ingests.entry.now ingests.exit.now }
        { ingest_all::<K, R>(rt, alloc, lanes, jobs, workers, ingests) },
        &mut ||
            requires { All
                (λ x. IsWorkerReady K.lane_facts K.is_worker_of K.worker_facts W.ready W.stands W.ended W.broken
                lanes.now jobs.now x) sides.now }
            ensures { Across
                (HasServed K.is_worker_of K.worker_facts W.ready W.stands W.ended W.broken W.follows lanes.entry.now
                jobs.entry.now) sides.entry.now sides.exit.now }
        { work_all::<K, W, R>(rt, other, lanes, jobs, sides) },
    );
}
