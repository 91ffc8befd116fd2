//! The ends of the jobs, side by side.
ghost use Rattle.std.specs.Prelude.{◌≡◌, ℕ, ◌+◌, ◌≤◌, List, [], ◌++◌, length, map, Ok, All, IfOk, OnOk, vec_capacity};
ghost use Rattle.lane_spec.specs.LaneBook.{LaneBook};
ghost use Rattle.work_crew.specs.JobView.{job_view};
ghost use Rattle.work_crew.specs.Members.{Members};
ghost use Rattle.work_crew.specs.Crews.{Threes, IsLaneDone};
ghost use Rattle.work_crew.specs.Dones.{IsTenantDone};
ghost use Rattle.work_crew.specs.JobEnds.{ArePlaced, CanEnd, HasEnded};

use crate::crew::LaneDone;
use crate::done::finish_job;
use crate::starting::put;
use brick_base::NoMemory;
use std::alloc::Global;
use std::thread;
use std::thread::Threads;
use work_core::{ChainWork, TenantDone, TenantJob};

/// What came of a lane, with the number of its job.
#[derive(Debug, Drop)]
pub struct JobEnd<W> {
    pub job: usize,
    pub lane: LaneDone<W>,
}

/// Numbers the lanes, in order, into room that is there.
fn number_all<W: Drop>(lanes: Vec<LaneDone<W>>, ends: &mut Vec<JobEnd<W>>)
    requires room { length lanes.items ≤ vec_capacity ends.old }
    requires empty { ends.old.items ≡ [] }
    ensures placed { ArePlaced lanes.items ends.new.items }
    ensures room { vec_capacity ends.old ≤ vec_capacity ends.new }
{
    let mut rest = lanes;
    if let Some(lane) = rest.pop() {
        let job = rest.len();
        number_all(rest, ends);
        put(ends, JobEnd { job, lane });
    }
}

/// Ends the works of one job.
fn end_one<W: ChainWork>(
    alloc: Global,
    jobs: &[TenantJob],
    workers: u32,
    end: JobEnd<W>,
) -> Result<TenantDone, NoMemory>
    requires { CanEnd W.follows W.ready W.stands W.ended W.broken workers jobs.now end }
    ensures { IfOk result (HasEnded W.answer workers jobs.now end) }
{
    let t = end.job;
    finish_job(alloc, &jobs[t], end.lane, workers)
}

/// Ends the works of each job in a thread of its own.
fn end_all<W: ChainWork, R: Threads + Sync>(
    rt: &R,
    alloc: Global,
    jobs: &[TenantJob],
    workers: u32,
    ends: Vec<JobEnd<W>>,
) -> Result<Vec<Result<TenantDone, NoMemory>>, NoMemory>
    requires ready { All (CanEnd W.follows W.ready W.stands W.ended W.broken workers jobs.now) ends.items }
    ensures count { IfOk result (λ rs. length rs.items ≡ length ends.items) }
    ensures ended { IfOk result
        (λ rs. Members (λ end r. IfOk r (HasEnded W.answer workers jobs.now end)) ends.items rs.items) }
{
    let outcomes = thread::map_vec(
        rt,
        ends,
        &|end: JobEnd<W>| -> Result<TenantDone, NoMemory>
            requires { CanEnd W.follows W.ready W.stands W.ended W.broken workers jobs.now end }
            ensures { IfOk result (HasEnded W.answer workers jobs.entry.now end) }
        { end_one(alloc, jobs, workers, end) },
    )?;
    Ok(outcomes)
}

/// Puts the values of outcomes behind the others, in order. Where one of the outcomes is want of memory, so is the
/// answer.
pub fn push_values<T: Drop>(
    outcomes: Vec<Result<T, NoMemory>>,
    values: &mut Vec<T>,
) -> Result<(), NoMemory>
    ensures { OnOk result (map Ok values.new.items ≡ map Ok values.old.items ++ outcomes.items) }
{
    let mut rest = outcomes;
    if let Some(last) = rest.pop() {
        push_values(rest, values)?;
        values.push(last?)?;
    }
    Ok(())
}

/// Ends the works of the first jobs, each job in a thread of its own, and answers what they give, in order.
pub fn finish_all<W: ChainWork, R: Threads + Sync>(
    rt: &R,
    alloc: Global,
    jobs: &[TenantJob],
    lanes: Vec<LaneDone<W>>,
    workers: u32,
) -> Result<Vec<TenantDone>, NoMemory>
    requires some { 1 ≤ workers }
    requires few { length lanes.items ≤ length jobs.now }
    requires lanes { Members (λ job lane. (b : LaneBook)
        × IsLaneDone W.follows W.ready W.stands W.ended W.broken workers (job_view job) b lane) jobs.now lanes.items }
    ensures count { IfOk result (λ done. length done.items ≡ length lanes.items) }
    ensures done { IfOk result
        (λ done. Threes (λ job lane d. IsTenantDone W.answer workers (job_view job) lane.refused d) jobs.now
        lanes.items done.items) }
{
    let mut ends = Vec::with_capacity(alloc, lanes.len())?;
    number_all(lanes, &mut ends);
    let outcomes = end_all::<W, R>(rt, alloc, jobs, workers, ends)?;
    let mut done = Vec::new(alloc);
    push_values(outcomes, &mut done)?;
    Ok(done)
}
