//! Runs over lanes.
ghost use Rattle.std.specs.Prelude.{◌≤◌};

use crate::run::run_words;
use crate::tests::{INLINE, copied};
use brick_base::number_of;
use capture_gen::generate;
use lane_core::LaneKit;
use lane_queue::QueueKit;
use lane_table::TableKit;
use std::alloc::Global;
use std::process::Abort;
use std::sync::Wait;
use std::test::Fail;
use std::thread::Threads;
use store_io::{MemSink, MemStore};

/// What a run left: the answer, the text in the sink, the tenant's three files, and how many Books there are.
#[derive(Drop)]
struct Left {
    status: u8,
    told: Vec<u8>,
    web: Option<Vec<u8>>,
    rest: Option<Vec<u8>>,
    refused: Option<Vec<u8>>,
    books: usize,
}

/// Runs the words with this kit over a chain file with these keys of its tenant, and a generated capture of so many records.
fn run_generated<K: LaneKit, R: Threads + Wait + Sync>(
    rt: &R,
    alloc: Global,
    kit: &mut K,
    words: &[&str],
    keys: &str,
    records: u32,
) -> Result<Left, Fail>
    requires { records ≤ 20000 }
{
    let mut line = Vec::new(alloc);
    for word in words {
        line.push(String::from_str(alloc, word)?)?;
    }
    let chains = format!(in alloc;
        "version = 1\n[[tenant]]\nname = \"gen\"\ncapture = \"a.pcap\"\n{keys}\nstages = [{{ stage = \"ttl\" }}]\n[[tenant.group]]\nname = \"web\"\nmatch = {{ proto = \"tcp\", port = 80 }}\nstages = [{{ stage = \"window\", size = 512 }}]\n[[tenant.group]]\nname = \"rest\"\n"
    )?;
    let mut files = Vec::new(alloc);
    files.push((String::from_str(alloc, "c.toml")?, chains.into_bytes()))?;
    files.push((
        String::from_str(alloc, "a.pcap")?,
        generate(alloc, 7, records)?,
    ))?;
    let mut store = MemStore::new(alloc, files, Vec::new(alloc))?;
    let mut sink = MemSink::new(alloc, Vec::new(alloc));
    let status = run_words(rt, alloc, &line, &mut store, &mut sink, kit);
    Ok(Left {
        status,
        told: sink.bytes().to_vec(alloc)?,
        web: copied(alloc, store.file("out/gen.web.pcap"))?,
        rest: copied(alloc, store.file("out/gen.rest.pcap"))?,
        refused: copied(alloc, store.file("out/gen.refused"))?,
        books: kit.books().len(),
    })
}

/// The files and the report are those of a run without lanes, and there is a Book more.
fn is_as_inline<K: LaneKit, R: Abort + Threads + Wait + Sync>(
    rt: &R,
    alloc: Global,
    kit: &mut K,
    workers: &str,
    inline: &Left,
) -> Result<(), Fail> {
    let before = kit.books().len();
    let words = ["--workers", workers, "run", "c.toml", "out"];
    let run = run_generated(rt, alloc, kit, words.as_slice(), "buffers = 4", 2000)?;
    assert_eq!(rt; run.status, 0);
    assert_eq!(rt; run.books.checked_sub(before), Some(1));
    assert!(rt; run.told == inline.told);
    assert!(rt; run.web == inline.web);
    assert!(rt; run.rest == inline.rest);
    assert!(rt; run.refused == Some(Vec::new(alloc)));
    Ok(())
}

/// Over both kits of lanes, whatever the number of workers.
#[test]
fn the_generated_capture_over_lanes(rt: HostRuntime) -> Result<(), Fail> {
    let alloc = rt.alloc();
    let mut tables = TableKit::new(alloc);
    let inline = run_generated(
        &rt,
        alloc,
        &mut tables,
        INLINE.as_slice(),
        "buffers = 4",
        2000,
    )?;
    assert_eq!(rt; (inline.status, inline.books), (0, 0));
    for workers in ["1", "4", "16"] {
        is_as_inline(&rt, alloc, &mut tables, workers, &inline)?;
    }
    let mut queues = QueueKit::new(alloc);
    is_as_inline(&rt, alloc, &mut queues, "4", &inline)
}

/// How many numbers the text has, one a line, where before each of them at least two records were accepted.
fn refused_behind_two(rt: &impl Abort, text: &str) -> Result<u64, Fail> {
    let mut count: u64 = 0;
    for line in text.lines() {
        let Some(number) = number_of(1000, line) else {
            return Err(Fail::from("a number"));
        };
        assert!(rt; number >= count.saturating_add(2), "{number}");
        count = count.saturating_add(1);
    }
    Ok(count)
}

/// With two buffers, before each refused record at least two were accepted, and each record is accepted or refused. With as many
/// buffers as records none is refused.
#[test]
fn records_that_are_refused(rt: HostRuntime) -> Result<(), Fail> {
    let alloc = rt.alloc();
    let words = ["--workers", "2", "run", "c.toml", "out"];
    let dry = "buffers = 2\ndry = \"drop\"";
    let mut kit = TableKit::new(alloc);
    let few = run_generated(&rt, alloc, &mut kit, words.as_slice(), dry, 1000)?;
    assert_eq!(rt; few.status, 0);
    let Some(bytes) = &few.refused else {
        return Err(Fail::from("the refused file"));
    };
    let Ok(text) = std::str::from_utf8(bytes.as_slice()) else {
        return Err(Fail::from("a text"));
    };
    let refused = refused_behind_two(&rt, text)?;
    assert!(rt; refused <= 1000);
    let accepted = 1000 - refused;
    let line = format!(in alloc;
        "gen done records=1000 accepted={accepted} refused={refused} Big=0 "
    )?;
    assert!(rt; few.told.starts_with(line.as_bytes()));
    let ample = "buffers = 1024\ndry = \"drop\"";
    let many = run_generated(&rt, alloc, &mut kit, words.as_slice(), ample, 1000)?;
    assert_eq!(rt; many.status, 0);
    assert!(rt; many.refused == Some(Vec::new(alloc)));
    Ok(())
}
