//! The words of the command.
use crate::tests::{HEADER, UDP_CHAINS, done_line, one_frame, run};
use std::test::Fail;

#[test]
fn words_that_are_no_line(rt: HostRuntime) -> Result<(), Fail> {
    let alloc = rt.alloc();
    let lines: [&[&str]; 11] = [
        &["--workers", "17", "run", "c.toml", "out"],
        &["--workers", "0", "inline", "c.toml", "out"],
        &["--workers", "01", "inline", "c.toml", "out"],
        &[
            "--workers",
            "3",
            "--workers",
            "4",
            "inline",
            "c.toml",
            "out",
        ],
        &["gen", "18446744073709551616", "out"],
        &["gen", "7", "my out"],
        &["inline", "c.toml"],
        &["inline", "c.toml", "out", "x"],
        &["--verbose", "inline", "c.toml", "out"],
        &["-h"],
        &["run", "c.toml"],
    ];
    for words in lines {
        let run = run(
            &rt,
            alloc,
            words,
            UDP_CHAINS,
            &one_frame(alloc)?,
            Vec::new(alloc),
            Vec::new(alloc),
        )?;
        assert_eq!(rt; run.status, 2);
        assert!(rt; run.told == b"usage: bricks [--workers N] MODE CHAINS OUT\n".to_vec(alloc)?);
        assert!(rt; run.output.is_none());
    }
    Ok(())
}

#[test]
fn workers_before_and_after_the_words(rt: HostRuntime) -> Result<(), Fail> {
    let alloc = rt.alloc();
    let lines: [&[&str]; 2] = [
        &["--workers=16", "inline", "c.toml", "out"],
        &["inline", "c.toml", "out", "--workers=16"],
    ];
    for words in lines {
        let run = run(
            &rt,
            alloc,
            words,
            UDP_CHAINS,
            HEADER.as_slice(),
            Vec::new(alloc),
            Vec::new(alloc),
        )?;
        assert_eq!(rt; run.status, 0);
        assert!(rt; run.told == done_line(alloc, 0, 0, 0, 0, 0)?.into_bytes());
    }
    Ok(())
}
