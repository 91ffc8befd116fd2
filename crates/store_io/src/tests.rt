use crate::{FileStore, IoFault, MemSink, MemStore, OutSink, Sink, Store};
use std::alloc::{AllocError, Global};
use std::test::Fail;

const FAILED: Result<(), IoFault> = Err(IoFault::Failed);

/// Whether a call that writes, `create` where no bytes are given, answers this and leaves the file so.
fn writes(
    store: &mut MemStore,
    name: &str,
    bytes: Option<&str>,
    answer: Result<(), IoFault>,
    then: Option<&str>,
) -> bool {
    let given = match bytes {
        None => store.create(2, name),
        Some(bytes) => store.append(2, name, bytes.as_bytes()),
    };
    given == answer && store.file(name) == then.map(|text| text.as_bytes())
}

/// Calls that write: the name, the bytes, the answer, and what the file then has.
fn writing_rows() -> [(
    &'static str,
    Option<&'static str>,
    Result<(), IoFault>,
    Option<&'static str>,
); 10] {
    [
        ("a", None, FAILED, None),
        ("a", Some("hello"), FAILED, Some("he")),
        ("a", Some("hello"), Ok(()), Some("hehello")),
        ("b", Some("x"), Ok(()), Some("x")),
        ("a", None, FAILED, Some("hehello")),
        ("b", Some("y"), FAILED, Some("x")),
        ("a", None, Ok(()), Some("")),
        ("c", None, Ok(()), Some("")),
        ("d", Some(""), Ok(()), Some("")),
        ("b", Some("abcd"), FAILED, Some("xab")),
    ]
}

/// A store without files, whose calls of these numbers fail.
fn no_files(alloc: Global, fails: &[u32]) -> Result<MemStore, AllocError> {
    let fails = Vec::from_slice(alloc, fails)?;
    MemStore::new(alloc, Vec::new(alloc), fails).map_err(|_| AllocError)
}

#[test]
fn mem_store_writes(rt: HostRuntime) -> Result<(), Fail> {
    let mut store = no_files(rt.alloc(), &[9, 5, 4, 1, 0])?;
    for (name, bytes, answer, then) in writing_rows() {
        assert!(rt; writes(&mut store, name, bytes, answer, then));
    }
    Ok(())
}

/// Whether a read of four bytes gives these, or `Failed` where there are none to give.
fn reads(store: &mut MemStore, name: &str, at: u64, bytes: Option<&str>) -> bool {
    let mut into = [0u8; 4];
    match store.read_at(1, name, at, &mut into) {
        Ok(count) => bytes.map(|text| text.as_bytes()) == into.get(..count),
        Err(fault) => fault == IoFault::Failed && bytes.is_none(),
    }
}

/// A store with two files, whose seventh call fails.
fn two_files(alloc: Global) -> Result<MemStore, AllocError> {
    let mut files = Vec::with_capacity(alloc, 2)?;
    files.push((
        String::from_str(alloc, "a")?,
        Vec::from_slice(alloc, b"abcdefg")?,
    ))?;
    files.push((String::from_str(alloc, "b")?, Vec::new(alloc)))?;
    let fails = Vec::from_slice(alloc, &[6])?;
    MemStore::new(alloc, files, fails).map_err(|_| AllocError)
}

/// Calls that read: the name, the place, and the bytes.
fn reading_rows() -> [(&'static str, u64, Option<&'static str>); 9] {
    [
        ("a", 0, Some("abcd")),
        ("a", 1, Some("bcde")),
        ("a", 5, Some("fg")),
        ("missing", 0, None),
        ("a", 7, Some("")),
        ("a", u64::MAX, Some("")),
        ("a", 0, None),
        ("b", 0, Some("")),
        ("missing", 0, None),
    ]
}

#[test]
fn mem_store_reads(rt: HostRuntime) -> Result<(), Fail> {
    let mut store = two_files(rt.alloc())?;
    for (name, at, bytes) in reading_rows() {
        assert!(rt; reads(&mut store, name, at, bytes));
    }
    assert!(rt; store.file("a") == Some(b"abcdefg".as_slice()));
    assert!(rt; store.file("missing").is_none());
    Ok(())
}

#[test]
fn mem_sink_writes(rt: HostRuntime) -> Result<(), Fail> {
    let rows = [
        ("one\n", Ok(()), "one\n"),
        ("three", FAILED, "one\nth"),
        ("", Ok(()), "one\nth"),
        ("z", FAILED, "one\nth"),
    ];
    let mut sink = MemSink::new(rt.alloc(), Vec::from_slice(rt.alloc(), &[3, 1])?);
    for (bytes, answer, then) in rows {
        assert!(rt; sink.write(bytes.as_bytes()) == answer && sink.bytes() == then.as_bytes());
    }
    Ok(())
}

/// Makes, fills and reads a file through the bound.
fn fill_and_read<S: Store>(store: &mut S, into: &mut [u8; 4]) -> Result<(usize, usize), IoFault> {
    store.append(2, "file", b"hel")?;
    store.append(2, "file", b"lo")?;
    let first = store.read_at(1, "file", 0, into)?;
    let second = store.read_at(1, "file", 4, into)?;
    Ok((first, second))
}

#[test]
fn file_store_keeps_files(rt: HostRuntime) {
    let mut store = FileStore::new(&rt);
    let mut into = [0u8; 4];
    assert_eq!(rt;
        store.read_at(1, "file", 0, &mut into),
        Err(IoFault::Failed)
    );
    assert_eq!(rt; fill_and_read(&mut store, &mut into), Ok((4, 1)));
    assert_eq!(rt; into, *b"oell");
    assert_eq!(rt; store.read_at(1, "file", 5, &mut into), Ok(0));
    assert_eq!(rt; store.create(2, "file"), Ok(()));
    assert_eq!(rt; store.read_at(1, "file", 0, &mut into), Ok(0));
    assert_eq!(rt; store.create(2, "no folder/file"), Err(IoFault::Failed));
    assert_eq!(rt;
        store.append(2, "no folder/file", b"x"),
        Err(IoFault::Failed)
    );
}

/// Writes a line through the bound.
fn write_line<P: Sink>(sink: &mut P) -> Result<(), IoFault> {
    sink.write(b"a line\n")
}

#[test]
fn out_sink_writes(rt: HostRuntime) {
    assert_eq!(rt; write_line(&mut OutSink::new(&rt)), Ok(()));
}

#[test]
fn mem_store_and_mem_sink_at_a_bound(rt: HostRuntime) -> Result<(), Fail> {
    let mut store = MemStore::new(rt.alloc(), Vec::new(rt.alloc()), Vec::new(rt.alloc()))?;
    assert_eq!(rt; fill_and_read(&mut store, &mut [0; 4]), Ok((4, 1)));
    assert_eq!(rt;
        write_line(&mut MemSink::new(rt.alloc(), Vec::new(rt.alloc()))),
        Ok(())
    );
    Ok(())
}
