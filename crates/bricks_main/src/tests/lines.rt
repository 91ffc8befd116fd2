//! What a run tells and leaves.
use crate::tests::{
    FOREIGN, FRAME, HEAD, HEADER, INLINE, LOWERED, NANO_HEADER, OTHER_CHAINS, TCP_CHAINS,
    UDP_CHAINS, done_line, joined, one_frame, run,
};
use std::alloc::Global;
use std::process::Abort;
use std::sync::Wait;
use std::test::Fail;
use std::thread::Threads;

#[test]
fn the_first_path(rt: HostRuntime) -> Result<(), Fail> {
    let alloc = rt.alloc();
    let run = run(
        &rt,
        alloc,
        INLINE.as_slice(),
        UDP_CHAINS,
        &one_frame(alloc)?,
        Vec::new(alloc),
        Vec::new(alloc),
    )?;
    assert_eq!(rt; run.status, 0);
    assert!(rt; run.told == done_line(alloc, 1, 1, 0, 0, 1)?.into_bytes());
    assert!(rt;
        run.output
            == Some(joined(
                alloc,
                &[HEADER.as_slice(), HEAD.as_slice(), LOWERED.as_slice()]
            )?)
    );
    assert!(rt; run.refused == Some(Vec::new(alloc)));
    Ok(())
}

#[test]
fn another_protocol(rt: HostRuntime) -> Result<(), Fail> {
    let alloc = rt.alloc();
    let run = run(
        &rt,
        alloc,
        INLINE.as_slice(),
        TCP_CHAINS,
        &one_frame(alloc)?,
        Vec::new(alloc),
        Vec::new(alloc),
    )?;
    assert_eq!(rt; run.status, 0);
    assert!(rt; run.told == done_line(alloc, 1, 1, 0, 1, 0)?.into_bytes());
    assert!(rt; run.output == Some(HEADER.to_vec(alloc)?));
    Ok(())
}

#[test]
fn the_empty_capture(rt: HostRuntime) -> Result<(), Fail> {
    let alloc = rt.alloc();
    let run = run(
        &rt,
        alloc,
        INLINE.as_slice(),
        UDP_CHAINS,
        HEADER.as_slice(),
        Vec::new(alloc),
        Vec::new(alloc),
    )?;
    assert_eq!(rt; run.status, 0);
    assert!(rt; run.told == done_line(alloc, 0, 0, 0, 0, 0)?.into_bytes());
    assert!(rt; run.output == Some(HEADER.to_vec(alloc)?));
    Ok(())
}

#[test]
fn the_foreign_resolution_capture(rt: HostRuntime) -> Result<(), Fail> {
    let alloc = rt.alloc();
    let capture = joined(alloc, &[FOREIGN.as_slice(), FRAME.as_slice()])?;
    let run = run(
        &rt,
        alloc,
        INLINE.as_slice(),
        UDP_CHAINS,
        &capture,
        Vec::new(alloc),
        Vec::new(alloc),
    )?;
    assert_eq!(rt; run.status, 0);
    assert!(rt; run.told == done_line(alloc, 1, 1, 0, 0, 1)?.into_bytes());
    assert!(rt;
        run.output
            == Some(joined(
                alloc,
                &[NANO_HEADER.as_slice(), HEAD.as_slice(), LOWERED.as_slice()]
            )?)
    );
    Ok(())
}

/// Runs a capture that is not read: the line is told under status 1, and no file is made.
fn refused<R: Abort + Threads + Wait + Sync>(
    rt: &R,
    alloc: Global,
    capture: &[u8],
    line: &str,
) -> Result<(), Fail> {
    let run = run(
        rt,
        alloc,
        INLINE.as_slice(),
        UDP_CHAINS,
        capture,
        Vec::new(alloc),
        Vec::new(alloc),
    )?;
    assert_eq!(rt; run.status, 1);
    assert!(rt; run.told == line.as_bytes().to_vec(alloc)?, "{line}");
    assert!(rt; run.output.is_none());
    assert!(rt; run.refused.is_none());
    Ok(())
}

/// The first bytes of three frames and a record that is cut.
fn cut_record(alloc: Global) -> Result<Vec<u8>, Fail> {
    let mut capture = HEADER.to_vec(alloc)?;
    for _ in 0..3 {
        capture.extend_from_slice(HEAD.as_slice())?;
        capture.extend_from_slice(FRAME.as_slice())?;
    }
    capture.extend_from_slice(&[1, 0, 0, 0, 2, 0, 0, 0, 46, 0])?;
    Ok(capture)
}

#[test]
fn captures_that_are_not_whole(rt: HostRuntime) -> Result<(), Fail> {
    let alloc = rt.alloc();
    let long = [1, 0, 0, 0, 2, 0, 0, 0, 1, 0, 4, 0, 1, 0, 4, 0];
    let mut version = HEADER;
    version[6] = 3;
    let mut link = HEADER;
    link[20] = 105;
    let mut magic = HEADER;
    magic[3] = 0x0f;
    let table: [(Vec<u8>, &str); 6] = [
        (Vec::new(alloc), "a bad-capture 1 ShortHeader len=0\n"),
        (
            magic.to_vec(alloc)?,
            "a bad-capture 2 Magic word=d4c3b20f\n",
        ),
        (
            version.to_vec(alloc)?,
            "a bad-capture 3 Version major=2 minor=3\n",
        ),
        (link.to_vec(alloc)?, "a bad-capture 4 Link word=105\n"),
        (
            cut_record(alloc)?,
            "a bad-capture 5 CutRecord number=3 at=210\n",
        ),
        (
            joined(alloc, &[HEADER.as_slice(), long.as_slice()])?,
            "a bad-capture 6 LongRecord number=0 len=262145\n",
        ),
    ];
    for (capture, line) in &table {
        refused(&rt, alloc, capture, line)?;
    }
    Ok(())
}

#[test]
fn a_capture_that_is_too_long(rt: HostRuntime) -> Result<(), Fail> {
    let alloc = rt.alloc();
    let capture = vec![in alloc; 0u8; 33_554_433]?;
    refused(&rt, alloc, &capture, "a too-long\n")
}

#[test]
fn a_record_that_is_big(rt: HostRuntime) -> Result<(), Fail> {
    let alloc = rt.alloc();
    let frame = vec![in alloc; 0u8; 65601]?;
    let length = 65601u32.to_le_bytes();
    let capture = joined(
        alloc,
        &[
            HEADER.as_slice(),
            &[0; 8],
            length.as_slice(),
            length.as_slice(),
            &frame,
            HEAD.as_slice(),
            FRAME.as_slice(),
        ],
    )?;
    let run = run(
        &rt,
        alloc,
        INLINE.as_slice(),
        UDP_CHAINS,
        &capture,
        Vec::new(alloc),
        Vec::new(alloc),
    )?;
    assert_eq!(rt; run.status, 0);
    assert!(rt; run.told == done_line(alloc, 2, 1, 1, 0, 1)?.into_bytes());
    assert!(rt;
        run.output
            == Some(joined(
                alloc,
                &[HEADER.as_slice(), HEAD.as_slice(), LOWERED.as_slice()]
            )?)
    );
    Ok(())
}

/// A capture of one ARP frame of 60 bytes.
fn one_other_frame(alloc: Global) -> Result<Vec<u8>, Fail> {
    let mut frame = [0u8; 60];
    frame[12] = 8;
    frame[13] = 6;
    let head = [0, 0, 0, 0, 0, 0, 0, 0, 60, 0, 0, 0, 60, 0, 0, 0u8];
    joined(
        alloc,
        &[HEADER.as_slice(), head.as_slice(), frame.as_slice()],
    )
}

/// A frame without the IPv4 layer is written as it came, or dropped as Unparsed.
#[test]
fn a_frame_that_is_not_ipv4(rt: HostRuntime) -> Result<(), Fail> {
    let alloc = rt.alloc();
    let capture = one_other_frame(alloc)?;
    let none = || Vec::new(alloc);
    let passed = run(
        &rt,
        alloc,
        INLINE.as_slice(),
        TCP_CHAINS,
        &capture,
        none(),
        none(),
    )?;
    assert_eq!(rt; passed.status, 0);
    assert!(rt; passed.told == done_line(alloc, 1, 1, 0, 0, 1)?.into_bytes());
    assert!(rt; passed.output == Some(capture.clone()?));
    let dropped = run(
        &rt,
        alloc,
        INLINE.as_slice(),
        OTHER_CHAINS,
        &capture,
        none(),
        none(),
    )?;
    assert_eq!(rt; dropped.status, 0);
    assert!(rt;
        dropped.told
            == b"a done records=1 accepted=1 refused=0 Big=0 Unparsed=1 Fire=0 NoRoute=0 Ttl=0 NatFull=0 Filter=0 NoGroup=0 Reach=0 /g=0\n".to_vec(
                alloc
            )?
    );
    assert!(rt; dropped.output == Some(HEADER.to_vec(alloc)?));
    Ok(())
}
