//! Calls of the store and of the sink that fail.
use crate::tests::{
    Ended, FRAME, HEAD, HEADER, INLINE, LOWERED, UDP_CHAINS, done_line, joined, one_frame, run,
};
use std::alloc::Global;
use std::sync::Wait;
use std::test::Fail;
use std::thread::Threads;

/// Runs a capture, whose call of the store of this number fails.
fn failing<R: Threads + Wait + Sync>(
    rt: &R,
    alloc: Global,
    capture: &[u8],
    call: u32,
) -> Result<Ended, Fail> {
    run(
        rt,
        alloc,
        INLINE.as_slice(),
        UDP_CHAINS,
        capture,
        vec![in alloc; call]?,
        Vec::new(alloc),
    )
}

#[test]
fn each_call_of_the_store_failing_in_turn(rt: HostRuntime) -> Result<(), Fail> {
    let alloc = rt.alloc();
    let table = [
        (4, "store-fault\n"),
        (4, "store-fault\n"),
        (1, "a read-fault\n"),
        (1, "a read-fault\n"),
        (1, "a write-fault\n"),
        (1, "a write-fault\n"),
        (1, "a write-fault\n"),
    ];
    let capture = one_frame(alloc)?;
    let mut call = 0u32;
    for (status, told) in table {
        let run = failing(&rt, alloc, &capture, call)?;
        assert_eq!(rt; run.status, status);
        assert!(rt; run.told == told.as_bytes().to_vec(alloc)?, "call {call}");
        assert_eq!(rt; run.output.is_some(), call > 4);
        assert!(rt; run.refused.is_none());
        call = call.saturating_add(1);
    }
    assert_eq!(rt; failing(&rt, alloc, &capture, call)?.status, 0);
    Ok(())
}

#[test]
fn the_half_written_output(rt: HostRuntime) -> Result<(), Fail> {
    let alloc = rt.alloc();
    let whole = joined(
        alloc,
        &[HEADER.as_slice(), HEAD.as_slice(), LOWERED.as_slice()],
    )?;
    let half = Some(joined(alloc, &[whole.get(..43).ok_or("short")?])?);
    let capture = one_frame(alloc)?;
    let mut found = 0;
    for call in 0..8u32 {
        let run = failing(&rt, alloc, &capture, call)?;
        if run.output == half {
            assert_eq!(rt; run.status, 1);
            assert!(rt; run.told == b"a write-fault\n".to_vec(alloc)?);
            assert!(rt; run.refused.is_none());
            found = 1;
        }
    }
    assert_eq!(rt; found, 1);
    Ok(())
}

#[test]
fn long_texts_are_appended_in_pieces(rt: HostRuntime) -> Result<(), Fail> {
    let alloc = rt.alloc();
    // 17 frames of 65,600 bytes give an output of 1,115,496 bytes: a piece of 1,048,576, and one of 66,920.
    let frame = vec![in alloc; 0u8; 65_600]?;
    let length = 65_600u32.to_le_bytes();
    let mut capture = HEADER.to_vec(alloc)?;
    for _ in 0..17 {
        capture.extend_from_slice(&[0; 8])?;
        capture.extend_from_slice(length.as_slice())?;
        capture.extend_from_slice(length.as_slice())?;
        capture.extend_from_slice(&frame)?;
    }
    let mut lengths = Vec::new(alloc);
    for call in 0..26u32 {
        let run = failing(&rt, alloc, &capture, call)?;
        if let Some(output) = &run.output {
            lengths.push(output.len())?;
        }
    }
    assert!(rt; lengths.starts_with(&[524_288, 1_082_036, 1_115_496]));
    Ok(())
}

#[test]
fn the_write_of_the_report_failing(rt: HostRuntime) -> Result<(), Fail> {
    let alloc = rt.alloc();
    let whole = joined(
        alloc,
        &[HEADER.as_slice(), HEAD.as_slice(), LOWERED.as_slice()],
    )?;
    let run = run(
        &rt,
        alloc,
        INLINE.as_slice(),
        UDP_CHAINS,
        &one_frame(alloc)?,
        Vec::new(alloc),
        vec![in alloc; 0]?,
    )?;
    assert_eq!(rt; run.status, 5);
    assert!(rt; run.output == Some(whole));
    assert!(rt; run.refused == Some(Vec::new(alloc)));
    let line = done_line(alloc, 1, 1, 0, 0, 1)?.into_bytes();
    assert!(rt; line.starts_with(&run.told));
    assert!(rt; run.told.len() < line.len());
    Ok(())
}

/// The report is one write: where the second one is to fail nothing does.
#[test]
fn the_second_write_of_the_sink_failing(rt: HostRuntime) -> Result<(), Fail> {
    let alloc = rt.alloc();
    let run = run(
        &rt,
        alloc,
        INLINE.as_slice(),
        UDP_CHAINS,
        &one_frame(alloc)?,
        Vec::new(alloc),
        vec![in alloc; 1]?,
    )?;
    assert_eq!(rt; run.status, 0);
    assert!(rt; run.told == done_line(alloc, 1, 1, 0, 0, 1)?.into_bytes());
    Ok(())
}
