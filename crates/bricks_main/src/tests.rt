//! The worked examples of a run, over a store and a sink in memory.
mod checks;
mod faults;
mod generated;
mod lanes;
mod lines;
mod memory;
mod tenants;
mod words;

use crate::run::run_words;
use lane_table::TableKit;
use std::alloc::Global;
use std::sync::Wait;
use std::test::Fail;
use std::thread::Threads;
use store_io::{MemSink, MemStore};

/// The file header of a capture, little-endian with microseconds.
pub const HEADER: [u8; 24] = [
    0xd4, 0xc3, 0xb2, 0xa1, 0x02, 0x00, 0x04, 0x00, 0x00, 0x00, 0x00, 0x00, 0x00, 0x00, 0x00, 0x00,
    0x00, 0x00, 0x04, 0x00, 0x01, 0x00, 0x00, 0x00,
];

/// The head of a record with seconds 1, fraction 2 and 46 bytes.
pub const HEAD: [u8; 16] = [
    0x01, 0x00, 0x00, 0x00, 0x02, 0x00, 0x00, 0x00, 0x2e, 0x00, 0x00, 0x00, 0x2e, 0x00, 0x00, 0x00,
];

/// A frame: UDP from 10.0.0.1:1000 to 10.1.2.3:53 with the payload `ping`, time to live 64.
pub const FRAME: [u8; 46] = [
    0x02, 0x00, 0x00, 0x00, 0x00, 0x01, 0x02, 0x00, 0x00, 0x00, 0x00, 0x02, 0x08, 0x00, 0x45, 0x00,
    0x00, 0x20, 0x00, 0x00, 0x40, 0x00, 0x40, 0x11, 0x24, 0xc9, 0x0a, 0x00, 0x00, 0x01, 0x0a, 0x01,
    0x02, 0x03, 0x03, 0xe8, 0x00, 0x35, 0x00, 0x0c, 0x06, 0xe4, 0x70, 0x69, 0x6e, 0x67,
];

/// The same frame with a time to live of 63.
pub const LOWERED: [u8; 46] = [
    0x02, 0x00, 0x00, 0x00, 0x00, 0x01, 0x02, 0x00, 0x00, 0x00, 0x00, 0x02, 0x08, 0x00, 0x45, 0x00,
    0x00, 0x20, 0x00, 0x00, 0x40, 0x00, 0x3f, 0x11, 0x25, 0xc9, 0x0a, 0x00, 0x00, 0x01, 0x0a, 0x01,
    0x02, 0x03, 0x03, 0xe8, 0x00, 0x35, 0x00, 0x0c, 0x06, 0xe4, 0x70, 0x69, 0x6e, 0x67,
];

/// The file header of a capture, big-endian with nanoseconds, and the head of a record of 46 bytes.
pub const FOREIGN: [u8; 40] = [
    0xa1, 0xb2, 0x3c, 0x4d, 0x00, 0x02, 0x00, 0x04, 0x00, 0x00, 0x00, 0x00, 0x00, 0x00, 0x00, 0x00,
    0x00, 0x00, 0xff, 0xff, 0x00, 0x00, 0x00, 0x01, 0x00, 0x00, 0x00, 0x01, 0x00, 0x00, 0x00, 0x02,
    0x00, 0x00, 0x00, 0x2e, 0x00, 0x00, 0x00, 0x2e,
];

/// What is written before the records of a capture with nanoseconds.
pub const NANO_HEADER: [u8; 24] = [
    0x4d, 0x3c, 0xb2, 0xa1, 0x02, 0x00, 0x04, 0x00, 0x00, 0x00, 0x00, 0x00, 0x00, 0x00, 0x00, 0x00,
    0x00, 0x00, 0x04, 0x00, 0x01, 0x00, 0x00, 0x00,
];

pub const UDP_CHAINS: &str =
    "version = 1\n[[tenant]]\nname = \"a\"\ncapture = \"a.pcap\"\nstages = [{ stage = \"ttl\" }, { stage = \"only\", match = { proto = \"udp\" } }]\n[[tenant.group]]\nname = \"g\"\n";

pub const TCP_CHAINS: &str =
    "version = 1\n[[tenant]]\nname = \"a\"\ncapture = \"a.pcap\"\nstages = [{ stage = \"ttl\" }, { stage = \"only\", match = { proto = \"tcp\" } }]\n[[tenant.group]]\nname = \"g\"\n";

pub const COLLIDING_CHAINS: &str =
    "version = 1\n[[tenant]]\nname = \"a\"\ncapture = \"out/a.g.pcap\"\nstages = [{ stage = \"ttl\" }, { stage = \"only\", match = { proto = \"udp\" } }]\n[[tenant.group]]\nname = \"g\"\n";

/// Frames of class Other are dropped, and of the others those are kept that go to one network and one port.
pub const OTHER_CHAINS: &str =
    "version = 1\n[[tenant]]\nname = \"a\"\ncapture = \"a.pcap\"\nunparsed = \"drop\"\nstages = [{ stage = \"set_tos\", value = 8 }, { stage = \"only\", match = { dst = \"10.1.0.0/16\", dport = 53 } }, { stage = \"ttl\" }]\n[[tenant.group]]\nname = \"g\"\n";

/// How many records there are, were accepted, are Big, and were dropped by `only`, and how many items the output has.
pub fn done_line(
    alloc: Global,
    records: u32,
    accepted: u32,
    big: u32,
    filter: u32,
    items: u32,
) -> Result<String, Fail> {
    let line = format!(in alloc;
        "a done records={records} accepted={accepted} refused=0 Big={big} Unparsed=0 Fire=0 NoRoute=0 Ttl=0 NatFull=0 Filter={filter} NoGroup=0 Reach=0 /g={items}\n"
    )?;
    Ok(line)
}

/// What a run left: the answer, the text in the sink, and the files of the run.
#[derive(Drop)]
pub struct Ended {
    pub status: u8,
    pub told: Vec<u8>,
    pub output: Option<Vec<u8>>,
    pub refused: Option<Vec<u8>>,
}

pub fn copied(alloc: Global, bytes: Option<&[u8]>) -> Result<Option<Vec<u8>>, Fail> {
    match bytes {
        None => Ok(None),
        Some(bytes) => Ok(Some(bytes.to_vec(alloc)?)),
    }
}

/// Runs the words over a store with a chain file and a capture, whose listed calls fail.
pub fn run<R: Threads + Wait + Sync>(
    rt: &R,
    alloc: Global,
    words: &[&str],
    chains: &str,
    capture: &[u8],
    fails: Vec<u32>,
    sink_fails: Vec<u32>,
) -> Result<Ended, Fail> {
    let mut line = Vec::new(alloc);
    for word in words {
        line.push(String::from_str(alloc, word)?)?;
    }
    let mut files = Vec::new(alloc);
    files.push((
        String::from_str(alloc, "c.toml")?,
        chains.as_bytes().to_vec(alloc)?,
    ))?;
    files.push((String::from_str(alloc, "a.pcap")?, capture.to_vec(alloc)?))?;
    let mut store = MemStore::new(alloc, files, fails)?;
    let mut sink = MemSink::new(alloc, sink_fails);
    let mut kit = TableKit::new(alloc);
    let status = run_words(rt, alloc, &line, &mut store, &mut sink, &mut kit);
    Ok(Ended {
        status,
        told: sink.bytes().to_vec(alloc)?,
        output: copied(alloc, store.file("out/a.g.pcap"))?,
        refused: copied(alloc, store.file("out/a.refused"))?,
    })
}

/// The bytes of these parts, one after another.
pub fn joined(alloc: Global, parts: &[&[u8]]) -> Result<Vec<u8>, Fail> {
    let mut bytes = Vec::new(alloc);
    for part in parts {
        bytes.extend_from_slice(part)?;
    }
    Ok(bytes)
}

/// A capture of one frame.
pub fn one_frame(alloc: Global) -> Result<Vec<u8>, Fail> {
    joined(
        alloc,
        &[HEADER.as_slice(), HEAD.as_slice(), FRAME.as_slice()],
    )
}

pub const INLINE: [&str; 3] = ["inline", "c.toml", "out"];
