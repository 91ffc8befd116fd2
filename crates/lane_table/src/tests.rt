ghost use Rattle.std.specs.Prelude.{◌≡◌, ℕ, ◌+◌, ◌<◌, ◌≤◌, true, false, [], ◌∷◌, length, MatchOption, IfOk};
ghost use Rattle.lane_core.specs.Alone.{HasSent, IsAtRest};
ghost use Rattle.lane_table.specs.Kits.{open_lanes_of};
ghost use Rattle.lane_table.specs.Seats.{lane_of, ingest_of, worker_of, IsIngestOf, IsWorkerOf};

use crate::view::LaneKey;
use crate::{IngestSeat, TableKit, TableLane, WorkerSeat};
use brick_base::NoMemory;
use lane_core::{Book, Got, LaneKit, Started};
use packet_owner::Packet;
use pcap_io::Capture;
use std::alloc::Global;
use std::process::Abort;
use std::snapshot::Snapshot;
use std::sync::Wait;
use std::test::Fail;
use std::thread::join_mut;

/// The file header of a capture: little-endian, microseconds, version 2.4, snapshot length 262,144, link type 1.
const FILE_HEADER: [u8; 24] = [
    0xd4, 0xc3, 0xb2, 0xa1, 2, 0, 4, 0, 0, 0, 0, 0, 0, 0, 0, 0, 0, 0, 4, 0, 1, 0, 0, 0,
];

/// A record of second 1 with a frame of 14 bytes.
const RECORD: [u8; 30] = [
    1, 0, 0, 0, 2, 0, 0, 0, 14, 0, 0, 0, 14, 0, 0, 0, 2, 0, 0, 0, 0, 1, 2, 0, 0, 0, 0, 2, 8, 0,
];

/// How often a thread tries one step before its test fails.
const TURNS: u32 = 1_000_000_000;

/// A capture of so many records.
fn capture_of(rt: &impl Abort, alloc: Global, records: u32) -> Result<Capture, Fail> {
    let mut bytes = Vec::from_array(alloc, FILE_HEADER)?;
    for _ in 0..records {
        bytes.extend_from_slice(&RECORD)?;
    }
    assert!(rt; bytes.len() <= 33_554_432);
    let Ok(capture) = Capture::read(alloc, bytes) else {
        return Err(Fail::from("a capture"));
    };
    assert!(rt; capture.count() == records);
    Ok(capture)
}

/// A lane with one worker, with buffers of 64 bytes.
fn start_one(
    rt: &impl Wait,
    alloc: Global,
    kit: &mut TableKit,
    capture: &Capture,
    buffers: u32,
) -> Result<(TableLane, IngestSeat, WorkerSeat), NoMemory>
    requires buffers { (1 ≤ buffers) × (buffers ≤ 1024) }
    ensures open_lanes { IfOk result (λ _. open_lanes_of kit.new ≡ open_lanes_of kit.old + 1) }
    ensures lane { IfOk result (λ r. lane_of r.0 ≡ record { capture = capture.now; buffers = buffers; bytes = 64; shares = length capture.now.entries ∷ [] }) }
    ensures ingest { IfOk result (λ r. IsIngestOf r.0 r.1 × HasSent 0 (ingest_of r.1)) }
    ensures worker { IfOk result (λ r. IsWorkerOf r.0 r.2 × IsAtRest 0 false (worker_of r.2)) }
{
    let shares = [capture.count()];
    let Started {
        lane,
        ingest,
        mut workers,
    } = kit.start(rt, alloc, capture, buffers, 64, &shares)?;
    let worker = workers.remove(0);
    Ok((lane, ingest, worker))
}

/// Ends such a lane.
fn shut_one(
    rt: &impl Wait,
    alloc: Global,
    kit: &mut TableKit,
    lane: TableLane,
    ingest: IngestSeat,
    worker: WorkerSeat,
) -> Result<(), NoMemory>
    requires open_lane { 0 < open_lanes_of kit.old }
    requires one { length (lane_of lane).shares ≡ 1 }
    requires ingest { IsIngestOf lane ingest × ((ingest_of ingest).finished ≡ true) × ((ingest_of ingest).held ≡ []) }
    requires worker { IsWorkerOf lane worker × IsAtRest 0 true (worker_of worker) }
    ensures open_lanes { IfOk result (λ _. open_lanes_of kit.new + 1 ≡ open_lanes_of kit.old) }
{
    let mut workers = Vec::new(alloc);
    workers.push(worker)?;
    kit.shut(rt, lane, ingest, workers);
    Ok(())
}

/// Claims a buffer, once, and sends record `k` in it. Answers its slot.
fn send_next(lane: &TableLane, seat: &mut IngestSeat, capture: &Capture, k: u32) -> Option<u32>
    requires own { IsIngestOf lane.now seat.old }
    requires lane { ((lane_of lane.now).capture ≡ capture.now) × ((lane_of lane.now).bytes ≡ 64) × ((lane_of lane.now).shares ≡ length capture.now.entries ∷ []) }
    requires there { k < length capture.now.entries }
    requires sent { HasSent k (ingest_of seat.old) }
    ensures own { IsIngestOf lane.now seat.new }
    ensures sent { MatchOption result (HasSent k (ingest_of seat.new)) (λ _. HasSent (k + 1) (ingest_of seat.new)) }
{
    let entry = capture.entry(k);
    if entry.frame.len() > 64 {
        return None;
    }
    let Some(buffer) = lane.claim(seat) else {
        return None;
    };
    let slot = buffer.slot();
    let packet = Packet::fill(buffer, k, entry);
    lane.send(seat, 0, packet);
    Some(slot)
}

/// Receives, once, and releases what came. Answers whether END was taken, and the slot and the number of the record that came.
fn take_next(lane: &TableLane, seat: &mut WorkerSeat) -> (bool, Option<(u32, u64)>)
    requires own { IsWorkerOf lane.now seat.old }
    requires rests { IsAtRest 0 false (worker_of seat.old) }
    ensures own { IsWorkerOf lane.now seat.new }
    ensures rests { IsAtRest 0 result.0 (worker_of seat.new) }
{
    match lane.receive(seat) {
        Got::Packet(packet) => {
            let slot = packet.slot();
            let (number, _) = packet.key();
            lane.release(seat, packet.into_buffer());
            (false, Some((slot, number)))
        }
        Got::Nothing => (false, None),
        Got::End => (true, None),
    }
}

/// Sends record `k`, in the buffer of this slot.
fn must_send(
    rt: &impl Abort,
    lane: &TableLane,
    seat: &mut IngestSeat,
    capture: &Capture,
    k: u32,
    slot: u32,
)
    requires own { IsIngestOf lane.now seat.old }
    requires lane { ((lane_of lane.now).capture ≡ capture.now) × ((lane_of lane.now).bytes ≡ 64) × ((lane_of lane.now).shares ≡ length capture.now.entries ∷ []) }
    requires there { k < length capture.now.entries }
    requires sent { HasSent k (ingest_of seat.old) }
    ensures own { IsIngestOf lane.now seat.new }
    ensures sent { HasSent (k + 1) (ingest_of seat.new) }
{
    match send_next(lane, seat, capture, k) {
        Some(found) => assert!(rt; found == slot),
        None => panic!(rt; "no buffer"),
    }
}

/// Finds no buffer for record `k`.
fn must_miss(rt: &impl Abort, lane: &TableLane, seat: &mut IngestSeat, capture: &Capture, k: u32)
    requires own { IsIngestOf lane.now seat.old }
    requires lane { ((lane_of lane.now).capture ≡ capture.now) × ((lane_of lane.now).bytes ≡ 64) × ((lane_of lane.now).shares ≡ length capture.now.entries ∷ []) }
    requires there { k < length capture.now.entries }
    requires sent { HasSent k (ingest_of seat.old) }
    ensures own { IsIngestOf lane.now seat.new }
    ensures sent { HasSent k (ingest_of seat.new) }
{
    match send_next(lane, seat, capture, k) {
        Some(_) => panic!(rt; "a buffer"),
        None => {}
    }
}

/// Receives this, and not END.
fn must_take(rt: &impl Abort, lane: &TableLane, seat: &mut WorkerSeat, wanted: Option<(u32, u64)>)
    requires own { IsWorkerOf lane.now seat.old }
    requires rests { IsAtRest 0 false (worker_of seat.old) }
    ensures own { IsWorkerOf lane.now seat.new }
    ensures rests { IsAtRest 0 false (worker_of seat.new) }
{
    let (ended, got) = take_next(lane, seat);
    assert!(rt; !ended);
    assert_eq!(rt; got, wanted);
}

/// Takes END.
fn must_end(rt: &impl Abort, lane: &TableLane, seat: &mut WorkerSeat)
    requires own { IsWorkerOf lane.now seat.old }
    requires rests { IsAtRest 0 false (worker_of seat.old) }
    ensures own { IsWorkerOf lane.now seat.new }
    ensures rests { IsAtRest 0 true (worker_of seat.new) }
{
    let (ended, _) = take_next(lane, seat);
    assert!(rt; ended);
}

/// Two buffers and three records: the worker finds nothing, records 0 and 1 are sent, a claim finds both buffers taken, record 0 is
/// received and its buffer carries record 2.
fn run_worked(
    rt: &impl Abort,
    lane: &TableLane,
    ingest: &mut IngestSeat,
    worker: &mut WorkerSeat,
    capture: &Capture,
)
    requires own { IsIngestOf lane.now ingest.old × IsWorkerOf lane.now worker.old }
    requires lane { ((lane_of lane.now).capture ≡ capture.now) × ((lane_of lane.now).bytes ≡ 64) × ((lane_of lane.now).shares ≡ length capture.now.entries ∷ []) }
    requires three { length capture.now.entries ≡ 3 }
    requires sent { HasSent 0 (ingest_of ingest.old) }
    requires rests { IsAtRest 0 false (worker_of worker.old) }
    ensures own { IsIngestOf lane.now ingest.new × IsWorkerOf lane.now worker.new }
    ensures finished { ((ingest_of ingest.new).finished ≡ true) × ((ingest_of ingest.new).held ≡ []) }
    ensures rests { IsAtRest 0 true (worker_of worker.new) }
{
    must_take(rt, lane, worker, None);
    must_send(rt, lane, ingest, capture, 0, 0);
    must_send(rt, lane, ingest, capture, 1, 1);
    must_miss(rt, lane, ingest, capture, 2);
    assert_eq!(rt; ingest.missed(), 1);
    must_take(rt, lane, worker, Some((0, 0)));
    must_send(rt, lane, ingest, capture, 2, 0);
    lane.finish(ingest);
    must_take(rt, lane, worker, Some((1, 1)));
    must_take(rt, lane, worker, Some((0, 2)));
    must_end(rt, lane, worker);
    assert_eq!(rt; (ingest.held().len(), worker.held().len()), (0, 0));
    assert_eq!(rt; worker.received().as_slice().len(), 3);
}

/// Sends record `k` as soon as a buffer is free.
fn send_in_turns(lane: &TableLane, seat: &mut IngestSeat, capture: &Capture, k: u32) -> bool
    requires own { IsIngestOf lane.now seat.old }
    requires lane { ((lane_of lane.now).capture ≡ capture.now) × ((lane_of lane.now).bytes ≡ 64) × ((lane_of lane.now).shares ≡ length capture.now.entries ∷ []) }
    requires there { k < length capture.now.entries }
    requires sent { HasSent k (ingest_of seat.old) }
    ensures own { IsIngestOf lane.now seat.new }
    ensures sent { result ≡ true → HasSent (k + 1) (ingest_of seat.new) }
{
    for _ in 0..TURNS {
        match send_next(lane, seat, capture, k) {
            Some(_) => return true,
            None => {}
        }
    }
    false
}

/// Sends each record, and END. Answers whether it did.
fn send_all(lane: &TableLane, seat: &mut IngestSeat, capture: &Capture) -> bool
    requires own { IsIngestOf lane.now seat.old }
    requires lane { ((lane_of lane.now).capture ≡ capture.now) × ((lane_of lane.now).bytes ≡ 64) × ((lane_of lane.now).shares ≡ length capture.now.entries ∷ []) }
    requires sent { HasSent 0 (ingest_of seat.old) }
    ensures own { IsIngestOf lane.now seat.new }
    ensures finished { result ≡ true → ((ingest_of seat.new).finished ≡ true) × ((ingest_of seat.new).held ≡ []) }
{
    for k in 0..capture.count() {
        if !send_in_turns(lane, seat, capture, k) {
            return false;
        }
    }
    lane.finish(seat);
    true
}

/// Receives until END comes. Answers whether it came.
fn take_all(lane: &TableLane, seat: &mut WorkerSeat) -> bool
    requires own { IsWorkerOf lane.now seat.old }
    requires rests { IsAtRest 0 false (worker_of seat.old) }
    ensures own { IsWorkerOf lane.now seat.new }
    ensures rests { IsAtRest 0 result (worker_of seat.new) }
{
    for _ in 0..TURNS {
        let (ended, _) = take_next(lane, seat);
        if ended {
            return true;
        }
    }
    false
}

/// The Book has so many records, each sent and received once, in order.
fn is_whole(rt: &impl Abort, book: &Book, buffers: u32, records: usize) {
    assert_eq!(rt; book.buffers, buffers);
    assert_eq!(rt; (book.sent.len(), book.received.len()), (1, 1));
    if let (Some(sent), Some(received)) = (book.sent.first(), book.received.first()) {
        assert_eq!(rt; sent.as_slice().len(), records);
        assert!(rt; sent.as_slice() == received.as_slice());
    }
    assert_eq!(rt; book.home.as_slice().len(), buffers as usize);
}

#[test]
fn the_worked_lane(rt: HostRuntime) -> Result<(), Fail> {
    let capture = capture_of(&rt, rt.alloc(), 3)?;
    assert!(rt; capture.count() == 3);
    let mut kit = TableKit::new(rt.alloc());
    let (lane, mut ingest, mut worker) = start_one(&rt, rt.alloc(), &mut kit, &capture, 2)?;
    run_worked(&rt, &lane, &mut ingest, &mut worker, &capture);
    shut_one(&rt, rt.alloc(), &mut kit, lane, ingest, worker)?;
    if let Some(book) = kit.books().first() {
        is_whole(&rt, book, 2, 3);
        assert_eq!(rt; book.missed, 1);
        assert_eq!(rt; book.home.as_slice(), [0, 1].as_slice());
        if let Some(sent) = book.sent.first() {
            assert_eq!(rt; sent.as_slice(), [(0, 0), (1, 1), (0, 2)].as_slice());
        }
    }
    assert_eq!(rt; kit.books().len(), 1);
    Ok(())
}

#[test]
fn two_lanes_at_once(rt: HostRuntime) -> Result<(), Fail> {
    let capture = capture_of(&rt, rt.alloc(), 3)?;
    assert!(rt; capture.count() == 3);
    let mut kit = TableKit::new(rt.alloc());
    let (lane, mut ingest, mut worker) = start_one(&rt, rt.alloc(), &mut kit, &capture, 2)?;
    let (other, mut sender, mut getter) = start_one(&rt, rt.alloc(), &mut kit, &capture, 1)?;
    must_send(&rt, &other, &mut sender, &capture, 0, 0);
    run_worked(&rt, &lane, &mut ingest, &mut worker, &capture);
    must_miss(&rt, &other, &mut sender, &capture, 1);
    must_take(&rt, &other, &mut getter, Some((0, 0)));
    other.finish(&mut sender);
    must_end(&rt, &other, &mut getter);
    shut_one(&rt, rt.alloc(), &mut kit, lane, ingest, worker)?;
    shut_one(&rt, rt.alloc(), &mut kit, other, sender, getter)?;
    assert_eq!(rt; kit.books().len(), 2);
    if let Some(book) = kit.books().last() {
        is_whole(&rt, book, 1, 1);
    }
    Ok(())
}

#[test]
fn an_ingest_and_a_worker_in_threads(rt: HostRuntime) -> Result<(), Fail> {
    let capture = capture_of(&rt, rt.alloc(), 20_000)?;
    let mut kit = TableKit::new(rt.alloc());
    let (lane, mut ingest, mut worker) = start_one(&rt, rt.alloc(), &mut kit, &capture, 8)?;
    let (sent, ended) = join_mut(
        &rt,
        &mut || send_all(&lane, &mut ingest, &capture),
        &mut || take_all(&lane, &mut worker),
    );
    assert!(rt; sent);
    assert!(rt; ended);
    shut_one(&rt, rt.alloc(), &mut kit, lane, ingest, worker)?;
    assert_eq!(rt; kit.books().len(), 1);
    if let Some(book) = kit.books().first() {
        is_whole(&rt, book, 8, 20_000);
    }
    Ok(())
}

#[test]
fn no_packets_are_printed(rt: HostRuntime) -> Result<(), Fail> {
    let alloc = rt.alloc();
    let capture = capture_of(&rt, alloc, 3)?;
    assert!(rt; capture.count() == 3);
    let mut kit = TableKit::new(alloc);
    let (lane, mut ingest, mut worker) = start_one(&rt, alloc, &mut kit, &capture, 2)?;
    must_send(&rt, &lane, &mut ingest, &capture, 0, 0);
    must_send(&rt, &lane, &mut ingest, &capture, 1, 1);
    must_miss(&rt, &lane, &mut ingest, &capture, 2);
    must_take(&rt, &lane, &mut worker, Some((0, 0)));
    let text = format!(in alloc; "{lane:?}")?;
    assert_eq!(rt;
        text.as_str(),
        "TableLane { buffers: 2, bytes: 64, workers: 1, .. }"
    );
    let text = format!(in alloc; "{ingest:?}")?;
    assert_eq!(rt;
        text.as_str(),
        "IngestSeat { held: [], missed: 1, finished: false, next: 2, .. }"
    );
    let text = format!(in alloc; "{worker:?}")?;
    assert_eq!(rt;
        text.as_str(),
        "WorkerSeat { place: 0, received: 1, held: [], ended: false, idle: false, .. }"
    );
    let key = LaneKey {
        buffers: 2,
        bytes: 64,
        workers: 1,
        capture: Snapshot::of(&capture),
        shares: Snapshot::of(&Vec::from_array(alloc, [3])?),
    };
    let text = format!(in alloc; "{key:?}")?;
    assert_eq!(rt;
        text.as_str(),
        "LaneKey { buffers: 2, bytes: 64, workers: 1, .. }"
    );
    Ok(())
}
