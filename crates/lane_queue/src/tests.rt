ghost use Rattle.std.specs.Prelude.{◌≡◌, ◌≢◌, ℕ, ◌+◌, ◌<◌, ◌≤◌, true, false, [], ◌∷◌, length, slice_index, MatchOption, IfOk};
ghost use Rattle.lane_core.specs.Alone.{AllFit, IsAtRest};
ghost use Rattle.lane_queue.specs.Kits.{open_lanes_of};
ghost use Rattle.lane_queue.specs.Seats.{lane_of, ingest_of, worker_of, IsIngestOf, IsWorkerOf};
ghost use Rattle.lane_queue.specs.Turns.{HasSentBelow};

use crate::ring_rule::RingAbout;
use crate::{QueueIngest, QueueKit, QueueLane, QueueWorker};
use brick_base::NoMemory;
use lane_core::{Book, Got, LaneKit, Started, run_alone};
use packet_owner::Packet;
use pcap_io::Capture;
use std::alloc::Global;
use std::process::Abort;
use std::snapshot::Snapshot;
use std::sync::Wait;
use std::test::Fail;
use std::thread;
use std::thread::{Threads, join_mut};

/// The file header of a capture: little-endian, microseconds, version 2.4, snapshot length 262,144, link type 1.
const FILE_HEADER: [u8; 24] = [
    0xd4, 0xc3, 0xb2, 0xa1, 2, 0, 4, 0, 0, 0, 0, 0, 0, 0, 0, 0, 0, 0, 4, 0, 1, 0, 0, 0,
];

/// A record's header: second 1, with a frame of 14 bytes.
const RECORD_HEADER: [u8; 16] = [1, 0, 0, 0, 2, 0, 0, 0, 14, 0, 0, 0, 14, 0, 0, 0];

/// How often a thread tries one step before its test fails.
const TURNS: u32 = 100_000_000;

/// A capture of so many records, whose frames begin with a mark.
fn capture_of(rt: &impl Abort, alloc: Global, records: u32, mark: u8) -> Result<Capture, Fail> {
    let frame = [mark, 0, 0, 0, 0, 1, 2, 0, 0, 0, 0, 2, 8, 0];
    let mut bytes = Vec::from_array(alloc, FILE_HEADER)?;
    for _ in 0..records {
        bytes.extend_from_slice(&RECORD_HEADER)?;
        bytes.extend_from_slice(&frame)?;
    }
    assert!(rt; bytes.len() <= 33_554_432);
    let Ok(capture) = Capture::read(alloc, bytes) else {
        return Err(Fail::from("a capture"));
    };
    assert!(rt; capture.count() == records);
    Ok(capture)
}

/// Whether each frame fits a buffer of so many bytes.
fn all_fit(capture: &Capture, bytes: u32) -> bool
    ensures { result ≡ true → AllFit bytes capture.now }
{
    for k in 0..capture.count() {
        if capture.entry(k).frame.len() > bytes as usize {
            return false;
        }
    }
    true
}

/// A lane with two workers, with buffers of 64 bytes.
fn start_two(
    rt: &impl Wait,
    alloc: Global,
    kit: &mut QueueKit,
    capture: &Capture,
    buffers: u32,
) -> Result<(QueueLane, QueueIngest, QueueWorker, QueueWorker), NoMemory>
    requires buffers { (1 ≤ buffers) × (buffers ≤ 1024) }
    ensures open_lanes { IfOk result (λ _. open_lanes_of kit.new ≡ open_lanes_of kit.old + 1) }
    ensures lane { IfOk result (λ r. lane_of r.0 ≡ record { capture = capture.now; buffers = buffers; bytes = 64; shares = length capture.now.entries ∷ length capture.now.entries ∷ [] }) }
    ensures ingest { IfOk result (λ r. IsIngestOf r.0 r.1 × HasSentBelow 0 (ingest_of r.1)) }
    ensures first { IfOk result (λ r. IsWorkerOf r.0 r.2 × IsAtRest 0 false (worker_of r.2)) }
    ensures second { IfOk result (λ r. IsWorkerOf r.0 r.3 × IsAtRest 1 false (worker_of r.3)) }
{
    let shares = [capture.count(), capture.count()];
    let Started {
        lane,
        ingest,
        mut workers,
    } = kit.start(rt, alloc, capture, buffers, 64, &shares)?;
    let second = workers.remove(1);
    let first = workers.remove(0);
    Ok((lane, ingest, first, second))
}

/// Ends such a lane.
fn shut_two(
    rt: &impl Wait,
    alloc: Global,
    kit: &mut QueueKit,
    lane: QueueLane,
    ingest: QueueIngest,
    first: QueueWorker,
    second: QueueWorker,
) -> Result<(), NoMemory>
    requires open_lane { 0 < open_lanes_of kit.old }
    requires two { length (lane_of lane).shares ≡ 2 }
    requires ingest { IsIngestOf lane ingest × ((ingest_of ingest).finished ≡ true) × ((ingest_of ingest).held ≡ []) }
    requires first { IsWorkerOf lane first × IsAtRest 0 true (worker_of first) }
    requires second { IsWorkerOf lane second × IsAtRest 1 true (worker_of second) }
    ensures open_lanes { IfOk result (λ _. open_lanes_of kit.new + 1 ≡ open_lanes_of kit.old) }
{
    let mut workers = Vec::new(alloc);
    workers.push(first)?;
    workers.push(second)?;
    kit.shut(rt, lane, ingest, workers);
    Ok(())
}

/// Claims a buffer, once, and sends record `k` in it to worker `w`. Answers its slot.
fn send_next(
    rt: &impl Wait,
    lane: &QueueLane,
    seat: &mut QueueIngest,
    capture: &Capture,
    k: u32,
    w: u32,
) -> Option<u32>
    requires own { IsIngestOf lane.now seat.old }
    requires lane { ((lane_of lane.now).capture ≡ capture.now) × ((lane_of lane.now).bytes ≡ 64) }
    requires share { (w < length (lane_of lane.now).shares) × (length capture.now.entries ≤ slice_index (lane_of lane.now).shares w) }
    requires there { k < length capture.now.entries }
    requires sent { HasSentBelow k (ingest_of seat.old) }
    ensures own { IsIngestOf lane.now seat.new }
    ensures sent { MatchOption result (HasSentBelow k (ingest_of seat.new)) (λ _. HasSentBelow (k + 1) (ingest_of seat.new)) }
{
    let entry = capture.entry(k);
    if entry.frame.len() > 64 {
        return None;
    }
    let Some(buffer) = QueueKit::claim(rt, lane, seat) else {
        return None;
    };
    let slot = buffer.slot();
    let packet = Packet::fill(buffer, k, entry);
    QueueKit::send(rt, lane, seat, w, packet);
    Some(slot)
}

/// Receives, once, and releases what came. Answers whether END was taken, and the slot, the number and the mark of what came.
fn take_next(
    rt: &impl Wait,
    lane: &QueueLane,
    seat: &mut QueueWorker,
) -> (bool, Option<(u32, u64, u8)>)
    requires own { IsWorkerOf lane.now seat.old }
    requires rests { ((worker_of seat.old).held ≡ []) × ((worker_of seat.old).ended ≡ false) }
    ensures own { IsWorkerOf lane.now seat.new }
    ensures rests { IsAtRest (worker_of seat.old).place result.0 (worker_of seat.new) }
{
    match QueueKit::receive(rt, lane, seat) {
        Got::Packet(packet) => {
            let slot = packet.slot();
            let (number, _) = packet.key();
            let mark = match packet.frame().first() {
                Some(byte) => *byte,
                None => 0,
            };
            QueueKit::release(rt, lane, seat, packet.into_buffer());
            (false, Some((slot, number, mark)))
        }
        Got::Nothing => (false, None),
        Got::End => (true, None),
    }
}

/// Sends record `k` to worker `w`, in the buffer of this slot.
fn must_send(
    rt: &(impl Abort + Wait),
    lane: &QueueLane,
    seat: &mut QueueIngest,
    capture: &Capture,
    k: u32,
    w: u32,
    slot: u32,
)
    requires own { IsIngestOf lane.now seat.old }
    requires lane { ((lane_of lane.now).capture ≡ capture.now) × ((lane_of lane.now).bytes ≡ 64) }
    requires share { (w < length (lane_of lane.now).shares) × (length capture.now.entries ≤ slice_index (lane_of lane.now).shares w) }
    requires there { k < length capture.now.entries }
    requires sent { HasSentBelow k (ingest_of seat.old) }
    ensures own { IsIngestOf lane.now seat.new }
    ensures sent { HasSentBelow (k + 1) (ingest_of seat.new) }
{
    match send_next(rt, lane, seat, capture, k, w) {
        Some(found) => assert!(rt; found == slot),
        None => panic!(rt; "no buffer"),
    }
}

/// Finds no buffer for record `k`.
fn must_miss(
    rt: &(impl Abort + Wait),
    lane: &QueueLane,
    seat: &mut QueueIngest,
    capture: &Capture,
    k: u32,
)
    requires own { IsIngestOf lane.now seat.old }
    requires lane { ((lane_of lane.now).capture ≡ capture.now) × ((lane_of lane.now).bytes ≡ 64) }
    requires share { (0 < length (lane_of lane.now).shares) × (length capture.now.entries ≤ slice_index (lane_of lane.now).shares 0) }
    requires there { k < length capture.now.entries }
    requires sent { HasSentBelow k (ingest_of seat.old) }
    ensures own { IsIngestOf lane.now seat.new }
    ensures sent { HasSentBelow k (ingest_of seat.new) }
{
    match send_next(rt, lane, seat, capture, k, 0) {
        Some(_) => panic!(rt; "a buffer"),
        None => {}
    }
}

/// Receives this, and not END.
fn must_take(
    rt: &(impl Abort + Wait),
    lane: &QueueLane,
    seat: &mut QueueWorker,
    wanted: Option<(u32, u64, u8)>,
)
    requires own { IsWorkerOf lane.now seat.old }
    requires rests { IsAtRest (worker_of seat.old).place false (worker_of seat.old) }
    ensures own { IsWorkerOf lane.now seat.new }
    ensures rests { IsAtRest (worker_of seat.old).place false (worker_of seat.new) }
{
    let (ended, got) = take_next(rt, lane, seat);
    assert!(rt; !ended);
    assert_eq!(rt; got, wanted);
}

/// Takes END.
fn must_end(rt: &(impl Abort + Wait), lane: &QueueLane, seat: &mut QueueWorker)
    requires own { IsWorkerOf lane.now seat.old }
    requires rests { IsAtRest (worker_of seat.old).place false (worker_of seat.old) }
    ensures own { IsWorkerOf lane.now seat.new }
    ensures rests { IsAtRest (worker_of seat.old).place true (worker_of seat.new) }
{
    let (ended, _) = take_next(rt, lane, seat);
    assert!(rt; ended);
}

/// Sends record `k` to worker `w` as soon as a buffer is free.
fn send_in_turns(
    rt: &impl Wait,
    lane: &QueueLane,
    seat: &mut QueueIngest,
    capture: &Capture,
    k: u32,
    w: u32,
) -> bool
    requires own { IsIngestOf lane.now seat.old }
    requires lane { ((lane_of lane.now).capture ≡ capture.now) × ((lane_of lane.now).bytes ≡ 64) }
    requires share { (w < length (lane_of lane.now).shares) × (length capture.now.entries ≤ slice_index (lane_of lane.now).shares w) }
    requires there { k < length capture.now.entries }
    requires sent { HasSentBelow k (ingest_of seat.old) }
    ensures own { IsIngestOf lane.now seat.new }
    ensures sent { result ≡ true → HasSentBelow (k + 1) (ingest_of seat.new) }
{
    for _ in 0..TURNS {
        match send_next(rt, lane, seat, capture, k, w) {
            Some(_) => return true,
            None => thread::yield_now(),
        }
    }
    false
}

/// Sends the records to the two workers by turns, and END. Answers whether it did.
fn send_all(rt: &impl Wait, lane: &QueueLane, seat: &mut QueueIngest, capture: &Capture) -> bool
    requires own { IsIngestOf lane.now seat.old }
    requires lane { ((lane_of lane.now).capture ≡ capture.now) × ((lane_of lane.now).bytes ≡ 64) }
    requires shares { (lane_of lane.now).shares ≡ length capture.now.entries ∷ length capture.now.entries ∷ [] }
    requires sent { HasSentBelow 0 (ingest_of seat.old) }
    ensures own { IsIngestOf lane.now seat.new }
    ensures finished { result ≡ true → ((ingest_of seat.new).finished ≡ true) × ((ingest_of seat.new).held ≡ []) }
{
    for k in 0..capture.count() {
        if !send_in_turns(rt, lane, seat, capture, k, k % 2) {
            return false;
        }
    }
    QueueKit::finish(rt, lane, seat);
    true
}

/// Receives until END comes. Answers whether it came.
fn take_all(rt: &impl Wait, lane: &QueueLane, seat: &mut QueueWorker) -> bool
    requires own { IsWorkerOf lane.now seat.old }
    requires rests { IsAtRest (worker_of seat.old).place false (worker_of seat.old) }
    ensures own { IsWorkerOf lane.now seat.new }
    ensures rests { IsAtRest (worker_of seat.old).place result (worker_of seat.new) }
{
    for _ in 0..TURNS {
        let (ended, got) = take_next(rt, lane, seat);
        if ended {
            return true;
        }
        if got.is_none() {
            thread::yield_now();
        }
    }
    false
}

/// Both workers receive, each in a thread of its own, until END comes. Answers whether it came to both.
fn take_both(
    rt: &(impl Threads + Wait + Sync),
    lane: &QueueLane,
    first: &mut QueueWorker,
    second: &mut QueueWorker,
) -> bool
    requires first { IsWorkerOf lane.now first.old × IsAtRest 0 false (worker_of first.old) }
    requires second { IsWorkerOf lane.now second.old × IsAtRest 1 false (worker_of second.old) }
    ensures own { IsWorkerOf lane.now first.new × IsWorkerOf lane.now second.new }
    ensures first { result ≡ true → IsAtRest 0 true (worker_of first.new) }
    ensures second { result ≡ true → IsAtRest 1 true (worker_of second.new) }
{
    let (one, other) = join_mut(
        rt,
        &mut || take_all(rt, lane, first),
        &mut || take_all(rt, lane, second),
    );
    one && other
}

/// The Book tells the same of each worker on both sides, and has as many slots as buffers.
fn is_whole(rt: &impl Abort, book: &Book, buffers: u32, workers: usize) {
    assert_eq!(rt; book.buffers, buffers);
    assert_eq!(rt; (book.sent.len(), book.received.len()), (workers, workers));
    assert_eq!(rt; book.home.as_slice().len(), buffers as usize);
    for (sent, received) in book.sent.iter().zip(book.received.iter()) {
        assert!(rt; sent.as_slice() == received.as_slice());
    }
}

#[test]
fn one_buffer_carries_fifty_records(rt: HostRuntime) -> Result<(), Fail> {
    let capture = capture_of(&rt, rt.alloc(), 50, 7)?;
    assert!(rt; all_fit(&capture, 64));
    let mut kit = QueueKit::new(rt.alloc());
    run_alone::<QueueKit, HostRuntime>(&rt, rt.alloc(), &mut kit, &capture, 1, 64)?;
    assert_eq!(rt; kit.books().len(), 1);
    if let Some(book) = kit.books().first() {
        is_whole(&rt, book, 1, 1);
        assert_eq!(rt; book.home.as_slice(), [0].as_slice());
        if let Some(sent) = book.sent.first() {
            assert_eq!(rt; sent.as_slice().len(), 50);
            assert_eq!(rt; sent.as_slice().last(), Some(&(0, 49)));
        }
    }
    Ok(())
}

#[test]
fn two_lanes_at_once(rt: HostRuntime) -> Result<(), Fail> {
    let capture = capture_of(&rt, rt.alloc(), 3, 5)?;
    assert!(rt; capture.count() == 3);
    let others = capture_of(&rt, rt.alloc(), 2, 9)?;
    assert!(rt; others.count() == 2);
    let mut kit = QueueKit::new(rt.alloc());
    let (lane, mut ingest, mut first, mut second) = start_two(
        &rt,
        rt.alloc(),
        &mut kit,
        &capture,
        2,
    )?;
    let (other, mut sender, mut left, mut right) = start_two(
        &rt,
        rt.alloc(),
        &mut kit,
        &others,
        1,
    )?;
    must_send(&rt, &lane, &mut ingest, &capture, 0, 0, 0);
    must_send(&rt, &other, &mut sender, &others, 0, 1, 0);
    must_send(&rt, &lane, &mut ingest, &capture, 1, 1, 1);
    must_miss(&rt, &other, &mut sender, &others, 1);
    must_take(&rt, &other, &mut left, None);
    must_take(&rt, &lane, &mut first, Some((0, 0, 5)));
    must_take(&rt, &other, &mut right, Some((0, 0, 9)));
    must_send(&rt, &lane, &mut ingest, &capture, 2, 0, 0);
    must_send(&rt, &other, &mut sender, &others, 1, 0, 0);
    QueueKit::finish(&rt, &lane, &mut ingest);
    QueueKit::finish(&rt, &other, &mut sender);
    must_take(&rt, &lane, &mut first, Some((0, 2, 5)));
    must_take(&rt, &lane, &mut second, Some((1, 1, 5)));
    must_take(&rt, &other, &mut left, Some((0, 1, 9)));
    must_end(&rt, &lane, &mut first);
    must_end(&rt, &lane, &mut second);
    must_end(&rt, &other, &mut left);
    must_end(&rt, &other, &mut right);
    shut_two(&rt, rt.alloc(), &mut kit, lane, ingest, first, second)?;
    shut_two(&rt, rt.alloc(), &mut kit, other, sender, left, right)?;
    assert_eq!(rt; kit.books().len(), 2);
    if let (Some(book), Some(last)) = (kit.books().first(), kit.books().last()) {
        is_whole(&rt, book, 2, 2);
        is_whole(&rt, last, 1, 2);
        assert_eq!(rt; (book.missed, last.missed), (0, 1));
    }
    Ok(())
}

#[test]
fn an_ingest_and_two_workers_in_threads(rt: HostRuntime) -> Result<(), Fail> {
    let capture = capture_of(&rt, rt.alloc(), 20_000, 1)?;
    let mut kit = QueueKit::new(rt.alloc());
    let (lane, mut ingest, mut first, mut second) = start_two(
        &rt,
        rt.alloc(),
        &mut kit,
        &capture,
        8,
    )?;
    let (sent, ended) = join_mut(
        &rt,
        &mut || send_all(&rt, &lane, &mut ingest, &capture),
        &mut || take_both(&rt, &lane, &mut first, &mut second),
    );
    assert!(rt; sent, "the ingest ran out of turns");
    assert!(rt; ended, "a worker ran out of turns");
    shut_two(&rt, rt.alloc(), &mut kit, lane, ingest, first, second)?;
    assert_eq!(rt; kit.books().len(), 1);
    if let Some(book) = kit.books().first() {
        is_whole(&rt, book, 8, 2);
        for log in book.received.iter() {
            assert_eq!(rt; log.as_slice().len(), 10_000);
        }
    }
    Ok(())
}

#[test]
fn no_packets_are_printed(rt: HostRuntime) -> Result<(), Fail> {
    let alloc = rt.alloc();
    let capture = capture_of(&rt, alloc, 3, 7)?;
    assert!(rt; capture.count() == 3);
    let mut kit = QueueKit::new(alloc);
    let (lane, mut ingest, mut first, _second) = start_two(&rt, alloc, &mut kit, &capture, 2)?;
    must_send(&rt, &lane, &mut ingest, &capture, 0, 0, 0);
    must_send(&rt, &lane, &mut ingest, &capture, 1, 1, 1);
    must_miss(&rt, &lane, &mut ingest, &capture, 2);
    must_take(&rt, &lane, &mut first, Some((0, 0, 7)));
    let text = format!(in alloc; "{lane:?}")?;
    assert_eq!(rt;
        text.as_str(),
        "QueueLane { buffers: 2, bytes: 64, workers: 2, .. }"
    );
    let text = format!(in alloc; "{ingest:?}")?;
    assert_eq!(rt;
        text.as_str(),
        "QueueIngest { held: [], missed: 1, finished: false, finds: 1, .. }"
    );
    let text = format!(in alloc; "{first:?}")?;
    assert_eq!(rt;
        text.as_str(),
        "QueueWorker { place: 0, received: 1, held: [], ended: false, idle: false, finds: 0, .. }"
    );
    let about = RingAbout {
        buffers: 2,
        bytes: 64,
        share: 3,
        capture: Snapshot::of(&capture),
    };
    let text = format!(in alloc; "{about:?}")?;
    assert_eq!(rt;
        text.as_str(),
        "RingAbout { buffers: 2, bytes: 64, share: 3, .. }"
    );
    Ok(())
}
