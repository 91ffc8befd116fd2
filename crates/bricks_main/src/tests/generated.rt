//! Mode `gen`.
use crate::run::run_words;
use crate::tests::copied;
use lane_core::LaneKit;
use lane_table::TableKit;
use std::alloc::Global;
use std::sync::Wait;
use std::test::Fail;
use std::thread::Threads;
use store_io::{MemSink, MemStore};

/// The report of number 7, as `tools/gen_check.py` makes it from the formats, without the program.
const REPORT: &[u8] =
    b"gen done records=20000 accepted=20000 refused=0 Big=0 Unparsed=0 Fire=0 NoRoute=0 Ttl=0 NatFull=0 Filter=0 NoGroup=0 Reach=0 /web=1964 /rest=9961\n";

/// What a run left: the answer, the text in the sink, the file of the first output, and how many Books there are.
#[derive(Drop)]
struct Left {
    status: u8,
    told: Vec<u8>,
    web: Option<Vec<u8>>,
    books: usize,
}

/// Runs the words over a store without files, whose listed calls fail.
fn left_by<R: Threads + Wait + Sync>(
    rt: &R,
    alloc: Global,
    words: &[&str],
    fails: Vec<u32>,
) -> Result<Left, Fail> {
    let mut line = Vec::new(alloc);
    for word in words {
        line.push(String::from_str(alloc, word)?)?;
    }
    let mut store = MemStore::new(alloc, Vec::new(alloc), fails)?;
    let mut sink = MemSink::new(alloc, Vec::new(alloc));
    let mut kit = TableKit::new(alloc);
    let status = run_words(rt, alloc, &line, &mut store, &mut sink, &mut kit);
    Ok(Left {
        status,
        told: sink.bytes().to_vec(alloc)?,
        web: copied(alloc, store.file("out/gen.web.pcap"))?,
        books: kit.books().len(),
    })
}

#[test]
fn the_generated_capture_is_run(rt: HostRuntime) -> Result<(), Fail> {
    let alloc = rt.alloc();
    let seven = left_by(&rt, alloc, &["gen", "7", "out"], Vec::new(alloc))?;
    assert_eq!(rt; (seven.status, seven.books), (0, 0));
    assert!(rt; seven.told == REPORT.to_vec(alloc)?);
    assert!(rt; seven.web.is_some());
    let same = left_by(&rt, alloc, &["gen", "007", "out"], Vec::new(alloc))?;
    assert!(rt; same.told == seven.told);
    assert!(rt; same.web == seven.web);
    Ok(())
}

/// The first call makes the capture, and the one behind six makes the tenant's first file.
#[test]
fn a_call_of_the_store_fails(rt: HostRuntime) -> Result<(), Fail> {
    let alloc = rt.alloc();
    let words = ["gen", "7", "out"];
    let made = left_by(&rt, alloc, words.as_slice(), [0].to_vec(alloc)?)?;
    assert_eq!(rt; made.status, 4);
    assert!(rt; made.told == b"store-fault\n".to_vec(alloc)?);
    assert!(rt; made.web.is_none());
    let written = left_by(&rt, alloc, words.as_slice(), [6].to_vec(alloc)?)?;
    assert_eq!(rt; written.status, 1);
    assert!(rt; written.told == b"gen write-fault\n".to_vec(alloc)?);
    Ok(())
}
