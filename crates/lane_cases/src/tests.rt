use crate::script::Step::{End, Finish, Miss, Nothing, Take, To};
use crate::script::Worker::{First, Second};
use crate::{Step, run_script};
use lane_core::{Book, LaneKit, Log};
use lane_queue::QueueKit;
use lane_table::TableKit;
use pcap_io::Capture;
use std::alloc::Global;
use std::process::Abort;
use std::sync::Wait;
use std::test::Fail;

/// The file header of a capture: little-endian, microseconds, version 2.4, snapshot length 262,144, link type 1.
const FILE_HEADER: [u8; 24] = [
    0xd4, 0xc3, 0xb2, 0xa1, 2, 0, 4, 0, 0, 0, 0, 0, 0, 0, 0, 0, 0, 0, 4, 0, 1, 0, 0, 0,
];

/// A record of second 1 with a frame of 14 bytes.
const RECORD: [u8; 30] = [
    1, 0, 0, 0, 2, 0, 0, 0, 14, 0, 0, 0, 14, 0, 0, 0, 2, 0, 0, 0, 0, 1, 2, 0, 0, 0, 0, 2, 8, 0,
];

/// The worked lane: two buffers and three records. The worker finds nothing, two records are sent, a claim finds both buffers taken,
/// a buffer comes back and carries the third record.
const WORKED: [Step; 11] = [
    Nothing(First),
    To(First),
    To(First),
    Miss,
    Take(First, 0),
    To(First),
    Finish,
    Take(First, 1),
    Take(First, 2),
    End(First),
    End(Second),
];

/// One buffer goes from worker to worker.
const ONE_BUFFER: [Step; 13] = [
    To(Second),
    Miss,
    Nothing(First),
    Take(Second, 0),
    To(First),
    Nothing(Second),
    Miss,
    Take(First, 1),
    To(Second),
    Finish,
    End(First),
    Take(Second, 2),
    End(Second),
];

/// All is sent and finished before anything is received.
const SENT_FIRST: [Step; 11] = [
    To(First),
    To(Second),
    To(Second),
    To(First),
    Finish,
    Take(Second, 1),
    Take(First, 0),
    Take(First, 3),
    End(First),
    Take(Second, 2),
    End(Second),
];

/// Nothing is sent.
const NOTHING_SENT: [Step; 5] = [
    Nothing(First),
    Nothing(Second),
    Finish,
    End(Second),
    End(First),
];

/// A claim that must find nothing in a full pool.
const MISS_OF_A_FULL_POOL: [Step; 1] = [Miss];

/// A record that must come before it is sent.
const TAKE_OF_NOTHING: [Step; 1] = [Take(First, 0)];

/// A record that must come to the other worker.
const TAKE_OF_ANOTHER: [Step; 2] = [To(First), Take(Second, 0)];

/// A lane whose second worker does not take END.
const END_NOT_TAKEN: [Step; 2] = [Finish, End(First)];

/// A capture of so many records.
fn capture_of(rt: &impl Abort, alloc: Global, records: u32) -> Result<Capture, Fail> {
    let mut bytes = Vec::from_array(alloc, FILE_HEADER)?;
    for _ in 0..records {
        bytes.extend_from_slice(&RECORD)?;
    }
    assert!(rt; bytes.len() <= 33_554_432);
    let Ok(capture) = Capture::read(alloc, bytes) else {
        return Err(Fail::from("a capture"));
    };
    assert!(rt; capture.count() == records);
    Ok(capture)
}

/// Whether the log has these numbers, in order.
fn has_numbers(log: &Log, numbers: &[u32]) -> bool {
    let pairs = log.as_slice();
    if pairs.len() != numbers.len() {
        return false;
    }
    for i in 0..pairs.len() {
        if pairs[i].1 != numbers[i] {
            return false;
        }
    }
    true
}

/// The Book has these numbers of each worker, sent and received, and each slot once.
fn check_book(
    rt: &impl Abort,
    book: &Book,
    buffers: u32,
    missed: u64,
    first: &[u32],
    second: &[u32],
) {
    assert_eq!(rt; (book.buffers, book.missed), (buffers, missed));
    assert_eq!(rt; book.home.as_slice().len(), buffers as usize);
    for slot in 0..buffers {
        assert!(rt; book.home.as_slice().contains(&slot));
    }
    assert_eq!(rt; (book.sent.len(), book.received.len()), (2, 2));
    if let (Some(one), Some(other)) = (book.sent.first(), book.sent.last()) {
        assert!(rt; has_numbers(one, first));
        assert!(rt; has_numbers(other, second));
    }
    if let (Some(one), Some(other)) = (book.received.first(), book.received.last()) {
        assert!(rt; has_numbers(one, first));
        assert!(rt; has_numbers(other, second));
    }
}

/// A case of the table: so many records and buffers, the steps, and the Book: how many claims missed, and the numbers that each worker
/// received.
#[derive(Drop)]
struct Case<'a> {
    records: u32,
    buffers: u32,
    steps: &'a [Step],
    missed: u64,
    first: &'a [u32],
    second: &'a [u32],
}

/// Each kit runs the case.
fn run_case<R: Abort + Wait>(rt: &R, alloc: Global, case: &Case<'_>) -> Result<(), Fail> {
    assert!(rt; 1 <= case.buffers && case.buffers <= 1024);
    let capture = capture_of(rt, alloc, case.records)?;
    let mut queues = QueueKit::new(alloc);
    let mut tables = TableKit::new(alloc);
    let by_queues = run_script::<QueueKit, R>(
        rt,
        alloc,
        &mut queues,
        &capture,
        case.buffers,
        case.steps,
    )?;
    assert!(rt; by_queues);
    let by_tables = run_script::<TableKit, R>(
        rt,
        alloc,
        &mut tables,
        &capture,
        case.buffers,
        case.steps,
    )?;
    assert!(rt; by_tables);
    assert_eq!(rt; (queues.books().len(), tables.books().len()), (1, 1));
    if let (Some(one), Some(other)) = (queues.books().first(), tables.books().first()) {
        check_book(rt, one, case.buffers, case.missed, case.first, case.second);
        check_book(
            rt,
            other,
            case.buffers,
            case.missed,
            case.first,
            case.second,
        );
    }
    Ok(())
}

/// Neither kit does what the steps ask for.
fn refuse_case<R: Abort + Wait>(
    rt: &R,
    alloc: Global,
    records: u32,
    steps: &[Step],
) -> Result<(), Fail> {
    let capture = capture_of(rt, alloc, records)?;
    let mut queues = QueueKit::new(alloc);
    let mut tables = TableKit::new(alloc);
    let by_queues = run_script::<QueueKit, R>(rt, alloc, &mut queues, &capture, 2, steps)?;
    let by_tables = run_script::<TableKit, R>(rt, alloc, &mut tables, &capture, 2, steps)?;
    assert_eq!(rt; (by_queues, by_tables), (false, false));
    assert_eq!(rt; (queues.books().len(), tables.books().len()), (0, 0));
    Ok(())
}

#[test]
fn each_case_on_both_kits(rt: HostRuntime) -> Result<(), Fail> {
    let cases = [
        Case {
            records: 3,
            buffers: 2,
            steps: WORKED.as_slice(),
            missed: 1,
            first: [0, 1, 2].as_slice(),
            second: [].as_slice(),
        },
        Case {
            records: 3,
            buffers: 1,
            steps: ONE_BUFFER.as_slice(),
            missed: 2,
            first: [1].as_slice(),
            second: [0, 2].as_slice(),
        },
        Case {
            records: 4,
            buffers: 4,
            steps: SENT_FIRST.as_slice(),
            missed: 0,
            first: [0, 3].as_slice(),
            second: [1, 2].as_slice(),
        },
        Case {
            records: 0,
            buffers: 1024,
            steps: NOTHING_SENT.as_slice(),
            missed: 0,
            first: [].as_slice(),
            second: [].as_slice(),
        },
    ];
    for i in 0..cases.len() {
        run_case(&rt, rt.alloc(), &cases[i])?;
    }
    Ok(())
}

#[test]
fn what_no_kit_does(rt: HostRuntime) -> Result<(), Fail> {
    refuse_case(&rt, rt.alloc(), 1, MISS_OF_A_FULL_POOL.as_slice())?;
    refuse_case(&rt, rt.alloc(), 1, TAKE_OF_NOTHING.as_slice())?;
    refuse_case(&rt, rt.alloc(), 1, TAKE_OF_ANOTHER.as_slice())?;
    refuse_case(&rt, rt.alloc(), 1, END_NOT_TAKEN.as_slice())?;
    Ok(())
}
