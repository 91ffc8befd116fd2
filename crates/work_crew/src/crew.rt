//! Crews: the lanes of some jobs, run together from their start to their Books.
ghost use Rattle.std.specs.Prelude.{◌≡◌, ℕ, ◌+◌, ◌<◌, ◌≤◌, true, false, List, [], ◌∷◌, ◌++◌, length, map, take, Some};
ghost use Rattle.std.specs.Prelude.{Ok, IfSome, IfNone, IfOk, OnOk, OnErr, slice_get, vec_len, vec_capacity};
ghost use Rattle.std.specs.List.{AllZip};
ghost use Rattle.lane_spec.specs.LaneBook.{LaneBook};
ghost use Rattle.run_spec.specs.Books.{IsBookOf, IsPartBook};
ghost use Rattle.work_crew.specs.JobView.{job_view};
ghost use Rattle.work_crew.specs.Members.{Members};
ghost use Rattle.work_crew.specs.Lanes.{IsStarted};
ghost use Rattle.work_crew.specs.Rows.{Each, HasPlaces};
ghost use Rattle.work_crew.specs.Crews.{Threes, Fours, IsEmptyCrew, IsCrewOf, KeepsRoom, HasCounts, HasLast, IsSetOut};
ghost use Rattle.work_crew.specs.Crews.{AreNewWorks, IsOver, IsShutAs, IsKept, IsCrewOver, IsLaneDone};
ghost use Rattle.work_crew.specs.declared.crew.LaneDone.{LaneDone};

use crate::row::{Row, empty_rows, turn_round};
use crate::sides::{IngestSide, run_both};
use crate::starting::{put, start_all};
use brick_base::{NoMemory, Numbers};
use lane_core::{LaneKit, Started};
use std::alloc::Global;
use std::sync::Wait;
use std::thread::Threads;
use work_core::{ChainWork, TenantJob};

/// The lanes of a crew, the ingest of each, and a row for each: the seats and works of its workers, while these do not
/// work.
#[derive(Debug, Drop)]
pub struct Crew<L, I, S, W> {
    pub lanes: Vec<L>,
    pub ingests: Vec<IngestSide<I>>,
    pub rows: Vec<Row<S, W>>,
}

/// What came of a job.
#[derive(Debug, Drop)]
pub struct LaneDone<W> {
    /// The numbers of the records that were refused, rising.
    pub refused: Numbers,
    /// The work of each worker.
    pub works: Vec<W>,
}

/// Puts lanes with their seats, and the works of each, into a crew that has room for them.
pub fn split<L: Drop, I: Drop, S: Drop, W: Drop>(
    lanes: Vec<Started<L, I, S>>,
    works: Vec<Vec<W>>,
    crew: &mut Crew<L, I, S, W>,
)
    requires count { length works.items ≡ length lanes.items }
    requires empty { IsEmptyCrew (length lanes.items) crew.old }
    ensures crew { IsCrewOf lanes.items works.items crew.new }
    ensures room { KeepsRoom crew.old crew.new }
{
    let mut lanes = lanes;
    let mut works = works;
    if let Some(last) = lanes.pop() {
        if let Some(row) = works.pop() {
            let t = lanes.len();
            split(lanes, works, crew);
            let Started {
                lane,
                ingest,
                workers,
            } = last;
            put(&mut crew.lanes, lane);
            let side = IngestSide {
                lane: t,
                seat: ingest,
                outcome: None,
            };
            put(&mut crew.ingests, side);
            let row = Row {
                seats: workers,
                works: row,
            };
            put(&mut crew.rows, row);
        }
    }
}

/// Keeps the works of a lane and which records were refused, behind those of the lanes before it, where memory did not
/// run out.
fn keep<W: Drop>(
    before: Result<(), NoMemory>,
    outcome: Option<Result<Numbers, NoMemory>>,
    works: Vec<W>,
    done: &mut Vec<LaneDone<W>>,
) -> Result<(), NoMemory>
    requires room { vec_len done.old < vec_capacity done.old }
    ensures kept { OnOk result ((d : LaneDone W) × (done.new.items ≡ done.old.items ++ d ∷ []) × (d.works ≡ works)
        × (outcome ≡ Some (Ok d.refused))) }
    ensures before { OnOk result (before ≡ Ok tt) }
    ensures few { vec_len done.new ≤ vec_len done.old + 1 }
    ensures room { vec_capacity done.old ≤ vec_capacity done.new }
{
    before?;
    match outcome {
        Some(Ok(refused)) => {
            put(done, LaneDone { refused, works });
            Ok(())
        }
        _ => Err(NoMemory),
    }
}

/// The last lane of a crew, with what belongs to it.
#[derive(Debug, Drop)]
pub struct Last<L, I, S, W> {
    pub lane: L,
    pub side: IngestSide<I>,
    pub row: Row<S, W>,
}

/// Takes the last lane out of a crew. There is none where the crew is empty.
fn take_last<L: Drop, I: Drop, S: Drop, W: Drop>(
    crew: &mut Crew<L, I, S, W>,
) -> Option<Last<L, I, S, W>>
    requires counts { HasCounts crew.old }
    ensures last { IfSome result (λ x. HasLast x crew.old crew.new) }
    ensures none { IfNone result (crew.old.lanes.items ≡ []) }
{
    let lane = crew.lanes.pop()?;
    let side = crew.ingests.pop()?;
    let row = crew.rows.pop()?;
    Some(Last { lane, side, row })
}

/// Shuts lanes that are over, in order, and keeps their works and which records were refused. Where memory ran out in
/// an ingest all lanes are shut too.
pub fn shut_all<K: LaneKit, W: Drop, R: Wait>(
    rt: &R,
    kit: &mut K,
    crew: Crew<K::Lane, K::Ingest, K::Worker, W>,
    done: &mut Vec<LaneDone<W>>,
) -> Result<(), NoMemory>
    requires open { length crew.lanes.items ≤ K.open_lanes kit.old }
    requires counts { HasCounts crew }
    requires over { Threes
        (IsOver K.is_ingest_of K.is_worker_of K.lane_facts K.ingest_facts K.worker_facts) crew.lanes.items
        crew.ingests.items crew.rows.items }
    requires empty { done.old.items ≡ [] }
    requires room { length crew.lanes.items ≤ vec_capacity done.old }
    ensures closed { K.open_lanes kit.new + length crew.lanes.items ≡ K.open_lanes kit.old }
    ensures books { (bs : List LaneBook) × (K.books kit.new ≡ K.books kit.old ++ bs)
        × (length bs ≡ length crew.lanes.items)
        × Fours (IsShutAs K.lane_facts K.ingest_facts K.worker_facts) crew.lanes.items crew.ingests.items
        crew.rows.items bs }
    ensures kept { OnOk result ((length done.new.items ≡ length crew.lanes.items)
        × Threes IsKept crew.ingests.items crew.rows.items done.new.items) }
    ensures few { vec_len done.new ≤ length crew.lanes.items }
    ensures room { vec_capacity done.old ≤ vec_capacity done.new }
{
    let mut crew = crew;
    if let Some(last) = take_last(&mut crew) {
        let Last { lane, side, row } = last;
        let before = shut_all::<K, W, R>(rt, kit, crew, done);
        kit.shut(rt, lane, side.seat, row.seats);
        return keep(before, side.outcome, row.works, done);
    }
    Ok(())
}

/// Puts started lanes and the works of their jobs into a crew, and gives each worker its seats and works.
fn set_out<L: Drop, I: Drop, S: Drop, W: Drop>(
    lanes: Vec<Started<L, I, S>>,
    works: Vec<Vec<W>>,
    crew: &mut Crew<L, I, S, W>,
    sides: &mut [Row<S, W>],
)
    requires count { length works.items ≡ length lanes.items }
    requires seats { Each (λ x. length x.workers.items ≡ length sides.old) lanes.items }
    requires works { Each (λ x. length x.items ≡ length sides.old) works.items }
    requires empty { IsEmptyCrew (length lanes.items) crew.old }
    requires sides { Each (HasPlaces 0 (length lanes.items)) sides.old }
    ensures count { length sides.new ≡ length sides.old }
    ensures out { IsSetOut lanes.items works.items crew.new sides.new }
{
    split(lanes, works, crew);
    turn_round(&mut crew.rows, sides);
}

/// Runs started lanes with the works of their jobs until all is received, and brings seats and works back to their
/// lanes.
fn run_started<K: LaneKit, W: ChainWork, R: Threads + Wait + Sync>(
    rt: &R,
    alloc: Global,
    jobs: &[TenantJob],
    workers: u32,
    lanes: Vec<Started<K::Lane, K::Ingest, K::Worker>>,
    works: Vec<Vec<W>>,
    crew: &mut Crew<K::Lane, K::Ingest, K::Worker, W>,
    sides: &mut [Row<K::Worker, W>],
)
    requires workers { (1 ≤ workers) × (length sides.old ≡ workers) }
    requires few { length jobs.now ≤ 16 }
    requires count { length lanes.items ≡ length jobs.now }
    requires started { Members
        (IsStarted K.is_ingest_of K.is_worker_of K.lane_facts K.ingest_facts K.worker_facts workers) jobs.now
        lanes.items }
    requires works_count { length works.items ≡ length jobs.now }
    requires works { Members (AreNewWorks W.follows W.ready W.stands W.ended W.broken workers) jobs.now works.items }
    requires empty { IsEmptyCrew (length jobs.now) crew.old }
    requires sides { Each (HasPlaces 0 (length jobs.now)) sides.old }
    ensures over { IsCrewOver K.is_ingest_of K.is_worker_of K.lane_facts K.ingest_facts K.worker_facts W.follows
        W.ready W.stands W.ended W.broken jobs.now workers crew.new }
{
    set_out(lanes, works, crew, sides);
    run_both::<K, W, R>(
        rt,
        alloc,
        &crew.lanes,
        jobs,
        &workers,
        &mut crew.ingests,
        sides,
    );
    turn_round(sides, &mut crew.rows);
}

/// What a crew takes of memory beside its lanes.
#[derive(Debug, Drop)]
pub struct Rooms<L, I, S, W> {
    pub crew: Crew<L, I, S, W>,
    pub sides: Vec<Row<S, W>>,
    pub done: Vec<LaneDone<W>>,
}

/// Room for so many lanes and workers.
fn rooms_for<L: Drop, I: Drop, S: Drop, W: Drop>(
    alloc: Global,
    lanes: usize,
    workers: u32,
) -> Result<Rooms<L, I, S, W>, NoMemory>
    ensures crew { IfOk result (λ r. IsEmptyCrew lanes r.crew) }
    ensures sides { IfOk result (λ r. (length r.sides.items ≡ workers) × Each (HasPlaces 0 lanes) r.sides.items) }
    ensures done { IfOk result (λ r. (r.done.items ≡ []) × (lanes ≤ vec_capacity r.done)) }
{
    let crew = Crew {
        lanes: Vec::with_capacity(alloc, lanes)?,
        ingests: Vec::with_capacity(alloc, lanes)?,
        rows: Vec::with_capacity(alloc, lanes)?,
    };
    let sides = empty_rows(alloc, workers as usize, lanes)?;
    let done = Vec::with_capacity(alloc, lanes)?;
    Ok(Rooms { crew, sides, done })
}

/// Runs the jobs, each over a lane of its own with an ingest of its own, and the workers over all lanes. `works` has a
/// list for each job, with a new work for each worker. What came of each job is answered; the works are not ended yet.
pub fn run_lanes<K: LaneKit, W: ChainWork, R: Threads + Wait + Sync>(
    rt: &R,
    alloc: Global,
    kit: &mut K,
    jobs: &[TenantJob],
    works: Vec<Vec<W>>,
    workers: u32,
) -> Result<Vec<LaneDone<W>>, NoMemory>
    requires workers { (1 ≤ workers) × (workers ≤ 16) }
    requires jobs { length jobs.now ≤ 16 }
    requires count { length works.items ≡ length jobs.now }
    requires works { Members (AreNewWorks W.follows W.ready W.stands W.ended W.broken workers) jobs.now works.items }
    ensures open_lanes { K.open_lanes kit.new ≡ K.open_lanes kit.old }
    ensures done { IfOk result (λ done. (bs : List LaneBook) × (K.books kit.new ≡ K.books kit.old ++ bs)
        × AllZip (IsBookOf workers) (map job_view jobs.now) bs
        × (length done.items ≡ length jobs.now)
        × Threes (λ job b d. IsLaneDone W.follows W.ready W.stands W.ended W.broken workers
        (job_view job) b d) jobs.now bs done.items) }
    ensures no_memory { OnErr result ((bs : List LaneBook) × (K.books kit.new ≡ K.books kit.old ++ bs)
        × AllZip (IsPartBook workers) (take (length bs) (map job_view jobs.now)) bs) }
{
    let rooms = rooms_for(alloc, jobs.len(), workers)?;
    let Rooms {
        mut crew,
        mut sides,
        mut done,
    } = rooms;
    let lanes = start_all::<K, R>(rt, alloc, kit, jobs, workers)?;
    run_started::<K, W, R>(
        rt, alloc, jobs, workers, lanes, works, &mut crew, &mut sides,
    );
    shut_all::<K, W, R>(rt, kit, crew, &mut done)?;
    Ok(done)
}
