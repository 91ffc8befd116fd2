// The steps over any kit.
ghost use Rattle.std.specs.Prelude.{◌≡◌, ◌+◌, ◌<◌, ◌≤◌, true, false, [], ◌∷◌, ◌++◌, length, IfOk};
ghost use Rattle.lane_spec.specs.LaneBook.{LaneBook};
ghost use Rattle.lane_core.specs.Alone.{IsAtRest};
ghost use Rattle.lane_cases.specs.Given.{is_end};
ghost use Rattle.lane_cases.specs.Steps.{HasSentTwo, IsAtStep};

use crate::script::{Progress, Step, Worker};
use brick_base::NoMemory;
use lane_core::{Got, LaneKit, Started};
use packet_owner::Packet;
use pcap_io::Capture;
use std::alloc::Global;
use std::sync::Wait;

/// What a worker was given.
#[derive(Drop)]
enum Given {
    Record(u64),
    Nothing,
    End,
}

/// Claims a buffer, once, and sends record `k` in it to worker `w`. Answers whether it did.
fn send_next<K: LaneKit, R: Wait>(
    rt: &R,
    lane: &K::Lane,
    seat: &mut K::Ingest,
    capture: &Capture,
    k: u32,
    w: u32,
) -> bool
    requires own { K.is_ingest_of lane.now seat.old }
    requires lane { ((K.lane_facts lane.now).capture ≡ capture.now) × ((K.lane_facts lane.now).bytes ≡ 64)
        × (1 ≤ (K.lane_facts lane.now).buffers) }
    requires shares { (K.lane_facts lane.now).shares ≡ length capture.now.entries ∷ length capture.now.entries ∷ [] }
    requires worker { w < 2 }
    requires there { k < length capture.now.entries }
    requires sent { HasSentTwo k (K.ingest_facts seat.old) }
    ensures own { K.is_ingest_of lane.now seat.new }
    ensures sent { result ≡ true → HasSentTwo (k + 1) (K.ingest_facts seat.new) }
    ensures missed { result ≡ false → HasSentTwo k (K.ingest_facts seat.new) }
{
    let entry = capture.entry(k);
    if entry.frame.len() > 64 {
        return false;
    }
    let Some(buffer) = K::claim(rt, lane, seat) else {
        return false;
    };
    let packet = Packet::fill(buffer, k, entry);
    K::send(rt, lane, seat, w, packet);
    true
}

/// Receives, once, and releases what came.
fn take_next<K: LaneKit, R: Wait>(rt: &R, lane: &K::Lane, seat: &mut K::Worker) -> Given
    requires own { K.is_worker_of lane.now seat.old }
    requires rests { IsAtRest (K.worker_facts seat.old).place false (K.worker_facts seat.old) }
    ensures own { K.is_worker_of lane.now seat.new }
    ensures rests { IsAtRest (K.worker_facts seat.old).place (is_end result) (K.worker_facts seat.new) }
{
    match K::receive(rt, lane, seat) {
        Got::Packet(packet) => {
            let (number, _) = packet.key();
            K::release(rt, lane, seat, packet.into_buffer());
            Given::Record(number)
        }
        Got::Nothing => Given::Nothing,
        Got::End => Given::End,
    }
}

/// Whether the step of the ingest found what it must. `sends` says to whom the next record goes; else the claim must
/// find nothing.
fn ingest_step<K: LaneKit, R: Wait>(
    rt: &R,
    lane: &K::Lane,
    seat: &mut K::Ingest,
    capture: &Capture,
    progress: &mut Progress,
    sends: Option<Worker>,
) -> bool
    requires own { K.is_ingest_of lane.now seat.old }
    requires lane { ((K.lane_facts lane.now).capture ≡ capture.now) × ((K.lane_facts lane.now).bytes ≡ 64)
        × (1 ≤ (K.lane_facts lane.now).buffers) }
    requires shares { (K.lane_facts lane.now).shares ≡ length capture.now.entries ∷ length capture.now.entries ∷ [] }
    requires going { progress.old.finished ≡ false → HasSentTwo progress.old.next (K.ingest_facts seat.old) }
    ensures own { K.is_ingest_of lane.now seat.new }
    ensures going { result ≡ true
        → (progress.new.finished ≡ false) × HasSentTwo progress.new.next (K.ingest_facts seat.new) }
    ensures workers { (progress.new.first_ended ≡ progress.old.first_ended)
        × (progress.new.second_ended ≡ progress.old.second_ended) }
{
    if progress.finished || progress.next >= capture.count() {
        return false;
    }
    let w = match sends {
        Some(Worker::Second) => 1,
        _ => 0,
    };
    let sent = send_next::<K, R>(rt, lane, seat, capture, progress.next, w);
    if sent {
        progress.next += 1;
    }
    sent == sends.is_some()
}

/// Whether the worker's step found what it must, and whether it took END.
fn worker_step<K: LaneKit, R: Wait>(
    rt: &R,
    lane: &K::Lane,
    seat: &mut K::Worker,
    ended: bool,
    must: Given,
) -> (bool, bool)
    requires own { K.is_worker_of lane.now seat.old }
    requires rests { IsAtRest (K.worker_facts seat.old).place ended (K.worker_facts seat.old) }
    ensures own { K.is_worker_of lane.now seat.new }
    ensures rests { IsAtRest (K.worker_facts seat.old).place result.1 (K.worker_facts seat.new) }
{
    if ended {
        return (false, true);
    }
    match (take_next::<K, R>(rt, lane, seat), must) {
        (Given::Record(k), Given::Record(number)) => (k == number, false),
        (Given::Nothing, Given::Nothing) => (true, false),
        (Given::End, Given::End) => (true, true),
        (Given::End, _) => (false, true),
        (_, _) => (false, false),
    }
}

/// Whether the step found what it must.
fn one_step<K: LaneKit, R: Wait>(
    rt: &R,
    lane: &K::Lane,
    ingest: &mut K::Ingest,
    first: &mut K::Worker,
    second: &mut K::Worker,
    capture: &Capture,
    progress: &mut Progress,
    step: Step,
) -> bool
    requires own { K.is_ingest_of lane.now ingest.old × K.is_worker_of lane.now first.old
        × K.is_worker_of lane.now second.old }
    requires lane { ((K.lane_facts lane.now).capture ≡ capture.now) × ((K.lane_facts lane.now).bytes ≡ 64)
        × (1 ≤ (K.lane_facts lane.now).buffers) }
    requires shares { (K.lane_facts lane.now).shares ≡ length capture.now.entries ∷ length capture.now.entries ∷ [] }
    requires at_step { IsAtStep progress.old (K.ingest_facts ingest.old) (K.worker_facts first.old)
        (K.worker_facts second.old) }
    ensures own { K.is_ingest_of lane.now ingest.new × K.is_worker_of lane.now first.new
        × K.is_worker_of lane.now second.new }
    ensures at_step { result ≡ true
        → IsAtStep progress.new (K.ingest_facts ingest.new) (K.worker_facts first.new) (K.worker_facts second.new) }
{
    let (must, who) = match step {
        Step::To(w) => return ingest_step::<K, R>(rt, lane, ingest, capture, progress, Some(w)),
        Step::Miss => return ingest_step::<K, R>(rt, lane, ingest, capture, progress, None),
        Step::Finish => {
            if progress.finished {
                return false;
            }
            K::finish(rt, lane, ingest);
            progress.finished = true;
            return true;
        }
        Step::Take(w, number) => (Given::Record(number), w),
        Step::Nothing(w) => (Given::Nothing, w),
        Step::End(w) => (Given::End, w),
    };
    match who {
        Worker::First => {
            let (found, ended) = worker_step::<K, R>(rt, lane, first, progress.first_ended, must);
            progress.first_ended = ended;
            found
        }
        Worker::Second => {
            let (found, ended) = worker_step::<K, R>(rt, lane, second, progress.second_ended, must);
            progress.second_ended = ended;
            found
        }
    }
}

/// Whether each step found what it must, up to the end of the lane.
fn all_steps<K: LaneKit, R: Wait>(
    rt: &R,
    lane: &K::Lane,
    ingest: &mut K::Ingest,
    first: &mut K::Worker,
    second: &mut K::Worker,
    capture: &Capture,
    steps: &[Step],
) -> bool
    requires own { K.is_ingest_of lane.now ingest.old × K.is_worker_of lane.now first.old
        × K.is_worker_of lane.now second.old }
    requires lane { ((K.lane_facts lane.now).capture ≡ capture.now) × ((K.lane_facts lane.now).bytes ≡ 64)
        × (1 ≤ (K.lane_facts lane.now).buffers) }
    requires shares { (K.lane_facts lane.now).shares ≡ length capture.now.entries ∷ length capture.now.entries ∷ [] }
    requires start { HasSentTwo 0 (K.ingest_facts ingest.old) × IsAtRest 0 false (K.worker_facts first.old)
        × IsAtRest 1 false (K.worker_facts second.old) }
    ensures own { K.is_ingest_of lane.now ingest.new × K.is_worker_of lane.now first.new
        × K.is_worker_of lane.now second.new }
    ensures ingest { result ≡ true
        → ((K.ingest_facts ingest.new).finished ≡ true) × ((K.ingest_facts ingest.new).held ≡ []) }
    ensures workers { result ≡ true
        → IsAtRest 0 true (K.worker_facts first.new) × IsAtRest 1 true (K.worker_facts second.new) }
{
    let mut progress = Progress {
        next: 0,
        finished: false,
        first_ended: false,
        second_ended: false,
    };
    for i in 0..steps.len() {
        if !one_step::<K, R>(
            rt,
            lane,
            ingest,
            first,
            second,
            capture,
            &mut progress,
            steps[i],
        ) {
            return false;
        }
    }
    progress.finished && progress.first_ended && progress.second_ended
}

/// Runs a lane with two workers, from its start to its Book, by the steps of a script. Answers whether each step found
/// what it must and the lane came to its end; where not, the lane stays open.
pub fn run_script<K: LaneKit, R: Wait>(
    rt: &R,
    alloc: Global,
    kit: &mut K,
    capture: &Capture,
    buffers: u32,
    steps: &[Step],
) -> Result<bool, NoMemory>
    requires buffers { (1 ≤ buffers) × (buffers ≤ 1024) }
    ensures books { IfOk result (λ whole. whole ≡ true
        → (b : LaneBook) × (K.books kit.new ≡ K.books kit.old ++ b ∷ []) × (b.received ≡ b.sent)) }
    ensures open_lanes { IfOk result (λ whole. whole ≡ true → K.open_lanes kit.new ≡ K.open_lanes kit.old) }
{
    let shares = [capture.count(), capture.count()];
    let Started {
        lane,
        mut ingest,
        mut workers,
    } = kit.start(rt, alloc, capture, buffers, 64, &shares)?;
    let mut second = workers.remove(1);
    let mut first = workers.remove(0);
    if !all_steps::<K, R>(
        rt,
        &lane,
        &mut ingest,
        &mut first,
        &mut second,
        capture,
        steps,
    ) {
        return Ok(false);
    }
    let mut both = Vec::new(alloc);
    both.push(first)?;
    both.push(second)?;
    kit.shut(rt, lane, ingest, both);
    Ok(true)
}
