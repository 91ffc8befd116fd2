//! The ingest of a lane.
ghost use Rattle.std.specs.Prelude.{◌≡◌, ◌≢◌, ℕ, ◌+◌, ◌-◌, ◌<◌, ◌≤◌, ◌%◌, true, false, List, [], ◌∷◌, ◌++◌, length};
ghost use Rattle.std.specs.Prelude.{replicate, IfOk, OnErr, IfSome, IfNone, MatchOption, vec_len, vec_capacity};
ghost use Rattle.std.specs.List.{slice_index_or};
ghost use Rattle.brick_base.specs.Flow.{class_view};
ghost use Rattle.chain_types.specs.ChainParts.{dry_view};
ghost use Rattle.lane_core.specs.Seats.{IsNewIngest, IngestBecomes, with_miss, claims_given};
ghost use Rattle.work_crew.specs.Records.{records_in, is_big, worker_of, waits, IsLaneOf};
ghost use Rattle.work_crew.specs.JobView.{job_view};
ghost use Rattle.work_crew.specs.Ingested.{HasIngested, HasSentAll, HasClaimed, RefusedBy};

use crate::pausing::{FIRST, pause};
use brick_base::{NoMemory, Numbers};
use chain_types::Dry;
use lane_core::LaneKit;
use packet_owner::{Buffer, Packet};
use std::alloc::Global;
use std::sync::Wait;
use work_core::TenantJob;

/// Claims until a buffer comes. Where none came, others may go on before it claims again, for longer each time.
fn claim_one<K: LaneKit, R: Wait>(rt: &R, lane: &K::Lane, seat: &mut K::Ingest) -> Buffer
    requires own { K.is_ingest_of lane.now seat.old }
    requires room { length (K.ingest_facts seat.old).held < (K.lane_facts lane.now).buffers }
    ensures own { K.is_ingest_of lane.now seat.new }
    ensures room { result.room ≡ (K.lane_facts lane.now).bytes }
    ensures claimed { HasClaimed result.slot (K.ingest_facts seat.old) (K.ingest_facts seat.new) }
{
    let mut misses = FIRST;
    for _ in rt.forever() {
        if let Some(buffer) = K::claim(rt, lane, seat) {
            return buffer;
        }
        misses = pause(rt, misses);
    }
    unreachable!()
}

/// The worker that a record goes to.
pub fn worker_for(job: &TenantJob, workers: u32, k: u32) -> u32
    requires some { 1 ≤ workers }
    requires there { k < length job.now.capture.entries }
    ensures worker { result ≡ worker_of (job_view job.now) workers k }
    ensures below { result < workers }
{
    (job.classes[k as usize].hash % workers as u64) as u32
}

/// A buffer for a record: where the tenant waits it comes, and else one claim is made.
fn claim_for<K: LaneKit, R: Wait>(
    rt: &R,
    lane: &K::Lane,
    seat: &mut K::Ingest,
    dry: Dry,
) -> Option<Buffer>
    requires own { K.is_ingest_of lane.now seat.old }
    requires room { length (K.ingest_facts seat.old).held < (K.lane_facts lane.now).buffers }
    ensures own { K.is_ingest_of lane.now seat.new }
    ensures given { IfSome result (λ b. (b.room ≡ (K.lane_facts lane.now).bytes)
        × HasClaimed b.slot (K.ingest_facts seat.old) (K.ingest_facts seat.new)) }
    ensures kept { waits (dry_view dry) ≡ false
        → IfSome result (λ b. (K.ingest_facts seat.new).missed ≡ (K.ingest_facts seat.old).missed) }
    ensures refused { IfNone result
        (RefusedBy (K.lane_facts lane.now).buffers (waits (dry_view dry)) (K.ingest_facts seat.old)
        (K.ingest_facts seat.new)) }
{
    match dry {
        Dry::Wait => Some(claim_one::<K, R>(rt, lane, seat)),
        Dry::Drop => K::claim(rt, lane, seat),
    }
}

/// Sends record k of a job, behind those before it, or refuses it. One that is longer than a buffer is left out.
fn send_record<K: LaneKit, R: Wait>(
    rt: &R,
    lane: &K::Lane,
    seat: &mut K::Ingest,
    job: &TenantJob,
    workers: u32,
    k: u32,
    refused: &mut Vec<u32>,
)
    requires own { K.is_ingest_of lane.now seat.old }
    requires some { 1 ≤ workers }
    requires lane { IsLaneOf (job_view job.now) workers (K.lane_facts lane.now) }
    requires there { k < length job.now.capture.entries }
    requires before { HasIngested (job_view job.now) workers k refused.old.items (K.ingest_facts seat.old) }
    requires going { (K.ingest_facts seat.old).finished ≡ false }
    requires room { waits (dry_view job.now.chain.dry) ≡ false → vec_len refused.old < vec_capacity refused.old }
    ensures own { K.is_ingest_of lane.now seat.new }
    ensures after { HasIngested (job_view job.now) workers (k + 1) refused.new.items (K.ingest_facts seat.new) }
    ensures going { (K.ingest_facts seat.new).finished ≡ false }
    ensures few { vec_len refused.new ≤ vec_len refused.old + 1 }
    ensures room { vec_capacity refused.old ≤ vec_capacity refused.new }
{
    let entry = job.capture.entry(k);
    if entry.frame.len() > job.chain.bytes as usize {
        return;
    }
    match claim_for::<K, R>(rt, lane, seat, job.chain.dry) {
        Some(buffer) => {
            let w = worker_for(job, workers, k);
            let packet = Packet::fill(buffer, k, entry);
            K::send(rt, lane, seat, w, packet);
        }
        None => {
            let done = refused.push(k);
            done.unwrap();
        }
    }
}

/// Sends all records of a job in order.
fn send_all<K: LaneKit, R: Wait>(
    rt: &R,
    lane: &K::Lane,
    seat: &mut K::Ingest,
    job: &TenantJob,
    workers: u32,
    refused: &mut Vec<u32>,
)
    requires own { K.is_ingest_of lane.now seat.old }
    requires some { 1 ≤ workers }
    requires lane { IsLaneOf (job_view job.now) workers (K.lane_facts lane.now) }
    requires before { HasIngested (job_view job.now) workers 0 refused.old.items (K.ingest_facts seat.old) }
    requires going { (K.ingest_facts seat.old).finished ≡ false }
    requires empty { vec_len refused.old ≡ 0 }
    requires room { waits (dry_view job.now.chain.dry) ≡ false
        → length job.now.capture.entries ≤ vec_capacity refused.old }
    ensures own { K.is_ingest_of lane.now seat.new }
    ensures after { HasIngested (job_view job.now) workers (length job.now.capture.entries) refused.new.items
        (K.ingest_facts seat.new) }
    ensures going { (K.ingest_facts seat.new).finished ≡ false }
{
    'each: for k in 0..job.capture.count() {
        send_record::<K, R>(rt, lane, seat, job, workers, k, refused);
    }
}

/// How many records may be refused.
fn most_refused(job: &TenantJob) -> usize
    ensures { waits (dry_view job.now.chain.dry) ≡ false → result ≡ length job.now.capture.entries }
{
    match job.chain.dry {
        Dry::Wait => 0,
        Dry::Drop => job.capture.count() as usize,
    }
}

/// Sends the records of a job in order, each to the worker that its flow's hash names, and finishes. Answers which were
/// refused for want of a buffer. Where memory runs out nothing is sent.
pub fn ingest<K: LaneKit, R: Wait>(
    rt: &R,
    alloc: Global,
    lane: &K::Lane,
    seat: &mut K::Ingest,
    job: &TenantJob,
    workers: u32,
) -> Result<Numbers, NoMemory>
    requires own { K.is_ingest_of lane.now seat.old }
    requires some { 1 ≤ workers }
    requires lane { IsLaneOf (job_view job.now) workers (K.lane_facts lane.now) }
    requires new { IsNewIngest workers (K.ingest_facts seat.old) }
    ensures own { K.is_ingest_of lane.now seat.new }
    ensures finished { ((K.ingest_facts seat.new).finished ≡ true) × ((K.ingest_facts seat.new).held ≡ []) }
    ensures sent { IfOk result (λ refused. HasSentAll workers (job_view job.now) refused (K.ingest_facts seat.new)) }
    ensures no_memory { OnErr result ((K.ingest_facts seat.new).sent ≡ replicate workers []) }
{
    match Vec::with_capacity(alloc, most_refused(job)) {
        Ok(room) => {
            let mut refused = room;
            send_all::<K, R>(rt, lane, seat, job, workers, &mut refused);
            K::finish(rt, lane, seat);
            Ok(Numbers::of(refused))
        }
        Err(_) => {
            K::finish(rt, lane, seat);
            Err(NoMemory)
        }
    }
}
