//! Chain files that are checked alone.
use crate::tests::{COLLIDING_CHAINS, INLINE, UDP_CHAINS, one_frame, run};
use std::alloc::Global;
use std::process::Abort;
use std::sync::Wait;
use std::test::Fail;
use std::thread::Threads;

/// Checks a chain file: the status and what is told. No file is made.
fn checked<R: Abort + Threads + Wait + Sync>(
    rt: &R,
    alloc: Global,
    name: &str,
    chains: &str,
    fails: Vec<u32>,
    ends: (u8, &str),
) -> Result<(), Fail> {
    let (status, told) = ends;
    let run = run(
        rt,
        alloc,
        &["check", name, "out"],
        chains,
        &[],
        fails,
        Vec::new(alloc),
    )?;
    assert_eq!(rt; run.status, status);
    assert!(rt; run.told == told.as_bytes().to_vec(alloc)?, "{told}");
    assert!(rt; run.output.is_none());
    assert!(rt; run.refused.is_none());
    Ok(())
}

#[test]
fn chain_files_that_are_checked(rt: HostRuntime) -> Result<(), Fail> {
    let alloc = rt.alloc();
    let table = [
        ("c.toml", UDP_CHAINS, (0, "a ok\n")),
        (
            "c.toml",
            COLLIDING_CHAINS,
            (3, "chains: 9 Collides out/a.g.pcap\n"),
        ),
        ("c.toml", "", (3, "chains: 2 Missing place=0 key=version\n")),
        ("missing.toml", UDP_CHAINS, (4, "store-fault\n")),
    ];
    for (name, chains, ends) in table {
        checked(&rt, alloc, name, chains, Vec::new(alloc), ends)?;
    }
    for (call, ends) in [
        (0u32, (4, "store-fault\n")),
        (1, (4, "store-fault\n")),
        (2, (0, "a ok\n")),
    ] {
        checked(
            &rt,
            alloc,
            "c.toml",
            UDP_CHAINS,
            vec![in alloc; call]?,
            ends,
        )?;
    }
    Ok(())
}

#[test]
fn the_write_of_a_check_failing(rt: HostRuntime) -> Result<(), Fail> {
    let alloc = rt.alloc();
    let run = run(
        &rt,
        alloc,
        &["check", "c.toml", "out"],
        UDP_CHAINS,
        &[],
        Vec::new(alloc),
        vec![in alloc; 0]?,
    )?;
    assert_eq!(rt; run.status, 5);
    assert!(rt; b"a ok\n".starts_with(&run.told));
    Ok(())
}

#[test]
fn chain_files_that_are_refused(rt: HostRuntime) -> Result<(), Fail> {
    let alloc = rt.alloc();
    for (chains, told) in [
        (COLLIDING_CHAINS, "chains: 9 Collides out/a.g.pcap\n"),
        ("", "chains: 2 Missing place=0 key=version\n"),
        ("a = ", "chains: 1 NotToml\n"),
        ("version = 1\n", "chains: 2 Missing place=0 key=tenant\n"),
    ] {
        let run = run(
            &rt,
            alloc,
            INLINE.as_slice(),
            chains,
            &one_frame(alloc)?,
            Vec::new(alloc),
            Vec::new(alloc),
        )?;
        assert_eq!(rt; run.status, 3);
        assert!(rt; run.told == told.as_bytes().to_vec(alloc)?, "{told}");
        assert!(rt; run.output.is_none());
        assert!(rt; run.refused.is_none());
    }
    Ok(())
}
