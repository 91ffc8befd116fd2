//! Worked examples, with the plain function beside each, and each public function once.

use crate::{Scan, plain};
use std::alloc::Global;
use std::process::Abort;
use std::test::Fail;
use window_stream::Segment;

/// A row: the sequence number, whether it has SYN, the payload, and the answer.
type Row<'a> = (u32, bool, &'a [u8], Option<u64>);

/// What a scan with a reach of 65,536 answers to each segment of rows, and what the plain function says of it.
fn try_case(rt: &impl Abort, alloc: Global, needle: &[u8], rows: &[Row<'_>]) -> Result<(), Fail> {
    assert!(rt; 1 <= needle.len() && needle.len() <= 64);
    let mut scan = Scan::new(alloc, needle, 65536)?;
    assert_eq!(rt; scan.found(), None);
    let mut segments = Vec::new(alloc);
    for (seq, syn, bytes, answer) in rows {
        let segment = Segment {
            seq: *seq,
            syn: *syn,
            bytes,
        };
        assert_eq!(rt; scan.take(segment)?, *answer);
        assert_eq!(rt; scan.found(), *answer);
        segments.push(segment)?;
        assert_eq!(rt; plain::scan(alloc, needle, 65536, &segments)?, *answer);
    }
    Ok(())
}

#[test]
fn over_two_segments(rt: HostRuntime) -> Result<(), Fail> {
    // The second comes before the first, and the needle stands over the cut between them.
    let rows: [Row<'_>; 3] = [
        (99, true, b"", None),
        (105, false, b"ackyy", None),
        (100, false, b"xxatt", Some(2)),
    ];
    try_case(&rt, rt.alloc(), b"attack", &rows)
}

#[test]
fn over_three_segments(rt: HostRuntime) -> Result<(), Fail> {
    let rows: [Row<'_>; 4] = [
        (7, false, b"..at", None),
        (13, false, b"ck..", None),
        (11, false, b"ta", Some(2)),
        (17, false, b"attack", Some(2)),
    ];
    try_case(&rt, rt.alloc(), b"attack", &rows)
}

#[test]
fn needle_of_one_byte(rt: HostRuntime) -> Result<(), Fail> {
    let rows: [Row<'_>; 3] = [
        (0, false, b"abc", None),
        (4, false, b"x", None),
        (3, false, b"y", Some(4)),
    ];
    try_case(&rt, rt.alloc(), b"x", &rows)
}

#[test]
fn earliest_byte_counts(rt: HostRuntime) -> Result<(), Fail> {
    // The needle stands in the second payload, but the first one has two of these bytes.
    let rows: [Row<'_>; 3] = [
        (100, false, b"at!!", None),
        (100, false, b"attack", None),
        (106, false, b"attattack", Some(9)),
    ];
    try_case(&rt, rt.alloc(), b"attack", &rows)
}

#[test]
fn over_windows(rt: HostRuntime) -> Result<(), Fail> {
    // The needle stands at 1,457, over the end of a window.
    let mut bytes = [b'.'; 1470];
    for (at, byte) in b"attack".iter().enumerate() {
        bytes[1457 + at] = *byte;
    }
    let rows: [Row<'_>; 1] = [(0, false, &bytes, Some(1457))];
    try_case(&rt, rt.alloc(), b"attack", &rows)?;
    let rows: [Row<'_>; 4] = [
        (0, false, b"", None),
        (1459, false, &bytes[1459..], None),
        (0, false, &bytes[..1458], None),
        (1458, false, &bytes[1458..1459], Some(1457)),
    ];
    try_case(&rt, rt.alloc(), b"attack", &rows)
}
