//! Want of memory.
use crate::run::run_words;
use crate::tests::{FRAME, HEAD, HEADER, INLINE, UDP_CHAINS};
use brick_base::NoMemory;
use lane_table::TableKit;
use std::alloc::Global;
use store_io::{MemSink, MemStore};

/// The report and the output of the first path, as they are told without taking memory.
const TOLD: &[u8] =
    b"a done records=1 accepted=1 refused=0 Big=0 Unparsed=0 Fire=0 NoRoute=0 Ttl=0 NatFull=0 Filter=0 NoGroup=0 Reach=0 /g=1\n";

/// The output of the first path.
const OUTPUT: [u8; 86] = [
    0xd4, 0xc3, 0xb2, 0xa1, 0x02, 0x00, 0x04, 0x00, 0x00, 0x00, 0x00, 0x00, 0x00, 0x00, 0x00, 0x00,
    0x00, 0x00, 0x04, 0x00, 0x01, 0x00, 0x00, 0x00, 0x01, 0x00, 0x00, 0x00, 0x02, 0x00, 0x00, 0x00,
    0x2e, 0x00, 0x00, 0x00, 0x2e, 0x00, 0x00, 0x00, 0x02, 0x00, 0x00, 0x00, 0x00, 0x01, 0x02, 0x00,
    0x00, 0x00, 0x00, 0x02, 0x08, 0x00, 0x45, 0x00, 0x00, 0x20, 0x00, 0x00, 0x40, 0x00, 0x3f, 0x11,
    0x25, 0xc9, 0x0a, 0x00, 0x00, 0x01, 0x0a, 0x01, 0x02, 0x03, 0x03, 0xe8, 0x00, 0x35, 0x00, 0x0c,
    0x06, 0xe4, 0x70, 0x69, 0x6e, 0x67,
];

/// The words of the first path, where there is memory for them.
fn first_words(alloc: Global) -> Result<Vec<String>, NoMemory> {
    let mut words = Vec::new(alloc);
    for word in INLINE {
        words.push(String::from_str(alloc, word)?)?;
    }
    Ok(words)
}

/// The store of the first path, where there is memory for it.
fn first_store(alloc: Global) -> Result<MemStore, NoMemory> {
    let mut capture = HEADER.to_vec(alloc)?;
    capture.extend_from_slice(HEAD.as_slice())?;
    capture.extend_from_slice(FRAME.as_slice())?;
    let mut files = Vec::new(alloc);
    files.push((
        String::from_str(alloc, "c.toml")?,
        UDP_CHAINS.as_bytes().to_vec(alloc)?,
    ))?;
    files.push((String::from_str(alloc, "a.pcap")?, capture))?;
    MemStore::new(alloc, files, Vec::new(alloc))
}

/// Whatever allocation is refused, the run is as with ample memory, or answers 6 with files that are missing or prefixes.
#[test]
fn memory_may_be_refused(rt: HostRuntime) {
    let alloc = rt.alloc();
    let (Ok(words), Ok(mut store)) = (first_words(alloc), first_store(alloc)) else {
        return;
    };
    let mut sink = MemSink::new(alloc, Vec::new(alloc));
    let mut kit = TableKit::new(alloc);
    let status = run_words(&rt, alloc, &words, &mut store, &mut sink, &mut kit);
    let output = store.file("out/a.g.pcap");
    let refused = store.file("out/a.refused");
    if status == 0 {
        assert!(&rt; sink.bytes() == TOLD);
        assert!(&rt; output == Some(OUTPUT.as_slice()));
    } else {
        assert_eq!(&rt; status, 6);
        assert!(&rt; b"out of memory\n".starts_with(sink.bytes()));
        assert!(&rt; OUTPUT.starts_with(output.unwrap_or(&[])));
    }
    assert!(&rt; refused.unwrap_or(&[]).is_empty());
}
