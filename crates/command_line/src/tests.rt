use crate::{Mode, read_words};
use brick_base::NoMemory;
use std::alloc::Global;
use std::test::Fail;

/// The words, each owned.
fn owned(alloc: Global, words: &[&str]) -> Result<Vec<String>, NoMemory> {
    let mut all = Vec::new(alloc);
    for word in words {
        all.push(String::from_str(alloc, word)?)?;
    }
    Ok(all)
}

#[test]
fn a_line_is_read(rt: HostRuntime) -> Result<(), Fail> {
    let words = owned(rt.alloc(), &["--workers", "4", "run", "c.toml", "out"])?;
    let Some(line) = read_words(rt.alloc(), &words)? else {
        assert!(rt; false, "these words are a line");
        return Ok(());
    };
    assert_eq!(rt; (line.mode, line.workers), (Mode::Run, 4));
    assert_eq!(rt; (line.chains, line.out), ("c.toml", "out"));
    Ok(())
}

#[test]
fn a_number_is_read(rt: HostRuntime) -> Result<(), Fail> {
    let words = owned(rt.alloc(), &["gen", "007", "out"])?;
    let Some(line) = read_words(rt.alloc(), &words)? else {
        assert!(rt; false, "these words are a line");
        return Ok(());
    };
    assert_eq!(rt; (line.mode, line.workers), (Mode::Gen(7), 1));
    assert_eq!(rt; (line.chains, line.out), ("007", "out"));
    Ok(())
}

#[test]
fn help_is_no_line(rt: HostRuntime) -> Result<(), Fail> {
    let words = owned(rt.alloc(), &["--help"])?;
    assert!(rt; read_words(rt.alloc(), &words)?.is_none());
    Ok(())
}
