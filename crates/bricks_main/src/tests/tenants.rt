//! Two tenants.
use crate::run::run_words;
use crate::tests::{FRAME, HEAD, HEADER, INLINE, LOWERED, copied, joined};
use brick_base::NoMemory;
use lane_table::TableKit;
use std::alloc::Global;
use std::sync::Wait;
use std::test::Fail;
use std::thread::Threads;
use store_io::{MemSink, MemStore};

/// Tenants a and b, each with its own capture and one output.
const TWO: &str =
    "version = 1\n[[tenant]]\nname = \"a\"\ncapture = \"a.pcap\"\nstages = [{ stage = \"ttl\" }]\n[[tenant.group]]\nname = \"g\"\n[[tenant]]\nname = \"b\"\ncapture = \"b.pcap\"\nstages = [{ stage = \"ttl\" }]\n[[tenant.group]]\nname = \"g\"\n";

/// Tenants a and b, each with two outputs.
const TWO_OUTPUTS: &str =
    "version = 1\n[[tenant]]\nname = \"a\"\ncapture = \"a.pcap\"\n[[tenant.group]]\nname = \"g\"\n[[tenant.group]]\nname = \"h\"\n[[tenant]]\nname = \"b\"\ncapture = \"b.pcap\"\n[[tenant.group]]\nname = \"g\"\n[[tenant.group]]\nname = \"h\"\n";

/// The done line of a tenant with one output, behind its name.
const ONE_DONE: &str =
    " done records=1 accepted=1 refused=0 Big=0 Unparsed=0 Fire=0 NoRoute=0 Ttl=0 NatFull=0 Filter=0 NoGroup=0 Reach=0 /g=1\n";

/// The done line of a tenant with two outputs and no record, behind its name.
const NONE_DONE: &str =
    " done records=0 accepted=0 refused=0 Big=0 Unparsed=0 Fire=0 NoRoute=0 Ttl=0 NatFull=0 Filter=0 NoGroup=0 Reach=0 /g=0 /h=0\n";

/// What a run of two tenants left: the answer, the text in the sink, and the files of these names.
#[derive(Drop)]
struct Left {
    status: u8,
    told: Vec<u8>,
    files: Vec<Option<Vec<u8>>>,
}

/// Runs the tenants of a chain file on two captures, where these calls fail.
fn run_two<R: Threads + Wait + Sync>(
    rt: &R,
    alloc: Global,
    chains: &str,
    captures: (&[u8], &[u8]),
    fails: (Vec<u32>, Vec<u32>),
    names: &[&str],
) -> Result<Left, Fail> {
    let (first, second) = captures;
    let (store_fails, sink_fails) = fails;
    let mut words = Vec::new(alloc);
    for word in INLINE {
        words.push(String::from_str(alloc, word)?)?;
    }
    let mut files = Vec::new(alloc);
    files.push((
        String::from_str(alloc, "c.toml")?,
        chains.as_bytes().to_vec(alloc)?,
    ))?;
    files.push((String::from_str(alloc, "a.pcap")?, first.to_vec(alloc)?))?;
    files.push((String::from_str(alloc, "b.pcap")?, second.to_vec(alloc)?))?;
    let mut store = MemStore::new(alloc, files, store_fails)?;
    let mut sink = MemSink::new(alloc, sink_fails);
    let mut kit = TableKit::new(alloc);
    let status = run_words(rt, alloc, &words, &mut store, &mut sink, &mut kit);
    let mut left = Vec::new(alloc);
    for name in names {
        left.push(copied(alloc, store.file(name))?)?;
    }
    Ok(Left {
        status,
        told: sink.bytes().to_vec(alloc)?,
        files: left,
    })
}

/// The bytes of one of the files, where it is there.
fn at(left: &Left, k: usize) -> Option<&[u8]> {
    match left.files.get(k) {
        Some(Some(bytes)) => Some(bytes.as_slice()),
        _ => None,
    }
}

/// The first tenant's capture is cut in record 3; the second's files are as when it runs alone.
#[test]
fn the_cut_record_tenant(rt: HostRuntime) -> Result<(), Fail> {
    let alloc = rt.alloc();
    let mut cut = HEADER.to_vec(alloc)?;
    for _ in 0..3 {
        cut.extend_from_slice(HEAD.as_slice())?;
        cut.extend_from_slice(FRAME.as_slice())?;
    }
    cut.extend_from_slice(&[1, 0, 0, 0, 2, 0, 0, 0, 46, 0])?;
    let whole = joined(
        alloc,
        &[HEADER.as_slice(), HEAD.as_slice(), FRAME.as_slice()],
    )?;
    let names = [
        "out/a.g.pcap",
        "out/a.refused",
        "out/b.g.pcap",
        "out/b.refused",
    ];
    let left = run_two(
        &rt,
        alloc,
        TWO,
        (&cut, &whole),
        (Vec::new(alloc), Vec::new(alloc)),
        &names,
    )?;
    let line = format!(in alloc; "a bad-capture 5 CutRecord number=3 at=210\nb{ONE_DONE}")?;
    assert_eq!(rt; left.status, 1);
    assert!(rt; left.told == line.into_bytes());
    assert!(rt; at(&left, 0).is_none());
    assert!(rt; at(&left, 1).is_none());
    let written = joined(
        alloc,
        &[HEADER.as_slice(), HEAD.as_slice(), LOWERED.as_slice()],
    )?;
    assert!(rt; at(&left, 2) == Some(written.as_slice()));
    assert!(rt; at(&left, 3) == Some(&[]));
    Ok(())
}

/// The second append of the second tenant fails: the first tenant is done, and of the second the first output is whole, the second has
/// the first half, and the refused file is not made.
#[test]
fn the_second_append_of_the_second_tenant_failing(rt: HostRuntime) -> Result<(), Fail> {
    let alloc = rt.alloc();
    let names = [
        "out/a.g.pcap",
        "out/a.h.pcap",
        "out/a.refused",
        "out/b.g.pcap",
        "out/b.h.pcap",
        "out/b.refused",
    ];
    let fails = (vec![in alloc; 14]?, Vec::new(alloc));
    let left = run_two(
        &rt,
        alloc,
        TWO_OUTPUTS,
        (HEADER.as_slice(), HEADER.as_slice()),
        fails,
        &names,
    )?;
    let line = format!(in alloc; "a{NONE_DONE}b write-fault\n")?;
    assert_eq!(rt; left.status, 1);
    assert!(rt; left.told == line.into_bytes());
    assert!(rt; at(&left, 0) == Some(HEADER.as_slice()));
    assert!(rt; at(&left, 1) == Some(HEADER.as_slice()));
    assert!(rt; at(&left, 2) == Some(&[]));
    assert!(rt; at(&left, 3) == Some(HEADER.as_slice()));
    assert!(rt; at(&left, 4) == HEADER.get(..12));
    assert!(rt; at(&left, 5).is_none());
    Ok(())
}

/// The sink's only write fails: the files are whole.
#[test]
fn the_only_write_of_the_sink_failing(rt: HostRuntime) -> Result<(), Fail> {
    let alloc = rt.alloc();
    let names = ["out/a.g.pcap", "out/b.h.pcap", "out/b.refused"];
    let fails = (Vec::new(alloc), vec![in alloc; 0]?);
    let left = run_two(
        &rt,
        alloc,
        TWO_OUTPUTS,
        (HEADER.as_slice(), HEADER.as_slice()),
        fails,
        &names,
    )?;
    assert_eq!(rt; left.status, 5);
    assert!(rt; at(&left, 0) == Some(HEADER.as_slice()));
    assert!(rt; at(&left, 1) == Some(HEADER.as_slice()));
    assert!(rt; at(&left, 2) == Some(&[]));
    Ok(())
}

/// An empty text has no append: each call of a run over two tenants is one of these 15, and the next one does not come.
#[test]
fn as_many_calls_as_there_are(rt: HostRuntime) -> Result<(), Fail> {
    let alloc = rt.alloc();
    let names = ["out/b.refused"];
    let captures = (HEADER.as_slice(), HEADER.as_slice());
    let last = run_two(
        &rt,
        alloc,
        TWO_OUTPUTS,
        captures,
        (vec![in alloc; 15]?, Vec::new(alloc)),
        &names,
    )?;
    assert_eq!(rt; last.status, 1);
    assert!(rt; at(&last, 0).is_none());
    let none = run_two(
        &rt,
        alloc,
        TWO_OUTPUTS,
        captures,
        (vec![in alloc; 16]?, Vec::new(alloc)),
        &names,
    )?;
    assert_eq!(rt; none.status, 0);
    assert!(rt; at(&none, 0) == Some(&[]));
    Ok(())
}

/// What the run tells of tenant a and of tenant b, and how long their files are, where they are there.
type Row = (&'static str, &'static str, [Option<usize>; 6]);

/// How long a whole text of one header is, half of it, and none of it.
const ALL: Option<usize> = Some(24);

const HALF: Option<usize> = Some(12);

const EMPTY: Option<usize> = Some(0);

/// What is told and left where the first call fails, the second, and so on: the two of the chain file, the two of each capture, and of each
/// tenant those that make and fill two outputs and make the refused file. A text whose call fails is written to its half.
const FAILING: [Row; 16] = [
    ("", "store-fault\n", [None; 6]),
    ("", "store-fault\n", [None; 6]),
    (
        " read-fault\n",
        NONE_DONE,
        [None, None, None, ALL, ALL, EMPTY],
    ),
    (
        " read-fault\n",
        NONE_DONE,
        [None, None, None, ALL, ALL, EMPTY],
    ),
    (
        NONE_DONE,
        " read-fault\n",
        [ALL, ALL, EMPTY, None, None, None],
    ),
    (
        NONE_DONE,
        " read-fault\n",
        [ALL, ALL, EMPTY, None, None, None],
    ),
    (
        " write-fault\n",
        NONE_DONE,
        [None, None, None, ALL, ALL, EMPTY],
    ),
    (
        " write-fault\n",
        NONE_DONE,
        [HALF, None, None, ALL, ALL, EMPTY],
    ),
    (
        " write-fault\n",
        NONE_DONE,
        [ALL, None, None, ALL, ALL, EMPTY],
    ),
    (
        " write-fault\n",
        NONE_DONE,
        [ALL, HALF, None, ALL, ALL, EMPTY],
    ),
    (
        " write-fault\n",
        NONE_DONE,
        [ALL, ALL, None, ALL, ALL, EMPTY],
    ),
    (
        NONE_DONE,
        " write-fault\n",
        [ALL, ALL, EMPTY, None, None, None],
    ),
    (
        NONE_DONE,
        " write-fault\n",
        [ALL, ALL, EMPTY, HALF, None, None],
    ),
    (
        NONE_DONE,
        " write-fault\n",
        [ALL, ALL, EMPTY, ALL, None, None],
    ),
    (
        NONE_DONE,
        " write-fault\n",
        [ALL, ALL, EMPTY, ALL, HALF, None],
    ),
    (
        NONE_DONE,
        " write-fault\n",
        [ALL, ALL, EMPTY, ALL, ALL, None],
    ),
];

/// The answer and the text of a row: where the chain file cannot be read, the text is told alone.
fn told_by(alloc: Global, first: &str, second: &str) -> Result<(u8, String), NoMemory> {
    if first.is_empty() {
        return Ok((4, String::from_str(alloc, second)?));
    }
    Ok((1, format!(in alloc; "a{first}b{second}")?))
}

/// Each call of the store over two tenants fails in turn.
#[test]
fn each_call_over_two_tenants_failing_in_turn(rt: HostRuntime) -> Result<(), Fail> {
    let alloc = rt.alloc();
    let names = [
        "out/a.g.pcap",
        "out/a.h.pcap",
        "out/a.refused",
        "out/b.g.pcap",
        "out/b.h.pcap",
        "out/b.refused",
    ];
    let captures = (HEADER.as_slice(), HEADER.as_slice());
    let mut call = 0u32;
    for (first, second, lengths) in FAILING {
        let fails = (vec![in alloc; call]?, Vec::new(alloc));
        let left = run_two(&rt, alloc, TWO_OUTPUTS, captures, fails, &names)?;
        let (status, told) = told_by(alloc, first, second)?;
        assert_eq!(rt; left.status, status, "call {call}");
        assert!(rt; left.told == told.into_bytes(), "call {call}");
        for (file, length) in lengths.iter().enumerate() {
            assert_eq!(rt;
                at(&left, file).map(|bytes| bytes.len()),
                *length,
                "call {call}"
            );
        }
        call = call.saturating_add(1);
    }
    Ok(())
}
