//! Worked examples.

use crate::ScanStage;
use batch_ops::{Operator, Outlet, Treat};
use brick_base::{Class, Dir, Ends, NoMemory, Raw, Reason};
use packet_owner::{Buffer, Packet, Spare};
use pcap_io::Entry;
use std::process::Abort;
use std::test::Fail;

/// Ethernet, IPv4 and TCP headers from 10.0.0.1:1000 to 198.51.100.2:80, in a datagram of 60 bytes: 20 bytes of data behind them.
/// No checksum is set: none is asked for.
const HEADERS: [u8; 54] = [
    2, 0, 0, 0, 0, 1, 2, 0, 0, 0, 0, 2, 8, 0, 0x45, 0, 0, 60, 0, 0, 0x40, 0, 64, 6, 0, 0, 10, 0, 0,
    1, 198, 51, 100, 2, 3, 232, 0, 80, 0, 0, 0, 0, 0, 0, 0, 0, 0x50, 0x10, 255, 255, 0, 0, 0, 0,
];

/// A record of the first flow.
const CLASS: Class = Class {
    flow: 0,
    dir: Dir::Forward,
    rank: None,
    hash: 0,
    first: Ends {
        src: 0x0a000001,
        sport: 1000,
        dst: 0xc6336402,
        dport: 80,
    },
    other: false,
    opened: 0,
};

/// A segment with this sequence number, up to 20 bytes of data, and SYN or not.
fn segment(sequence: u8, syn: bool, data: &[u8]) -> [u8; 74] {
    let mut frame = [0; 74];
    frame[..54].copy_from_slice(&HEADERS);
    frame[41] = sequence;
    if syn {
        frame[47] = 2;
    }
    let count = data.len().min(20);
    frame[17] = 40 + count as u8;
    frame[54..54 + count].copy_from_slice(&data[..count]);
    frame
}

/// A packet of this frame.
fn packet<R: Abort + AllocGlobal>(rt: &R, frame: &[u8]) -> Result<Packet<Raw>, NoMemory> {
    let buffer = Buffer::new(rt.alloc(), 7, 128)?;
    assert!(rt; buffer.room() as usize >= frame.len());
    let entry = Entry {
        seconds: 1,
        fraction: 2,
        original: 74,
        frame,
    };
    Ok(Packet::fill(buffer, 3, entry))
}

/// The stage lets the frame of a record of this flow and direction pass as it came, or drops it for its text.
fn expect<R: Abort + AllocGlobal>(
    rt: &R,
    stage: &mut ScanStage,
    flow: u32,
    dir: Dir,
    frame: &[u8],
    passes: bool,
) -> Result<(), NoMemory> {
    let class = Class { flow, dir, ..CLASS };
    match stage.treat(&class, packet(rt, frame)?) {
        Ok(packet) => {
            assert!(rt; passes);
            assert_eq!(rt; packet.payload(), frame);
        }
        Err(dropped) => {
            assert!(rt; !passes);
            assert_eq!(rt; dropped.reason, Some(Reason::Filter));
            assert_eq!(rt; dropped.packet.payload(), frame);
        }
    }
    Ok(())
}

/// A segment: its flow and direction, its sequence number, whether it is a SYN, its bytes, and whether it passes.
type Row = (u32, Dir, u8, bool, &'static [u8], bool);

/// Each segment passes as it came, or is dropped for its text, as its row says.
fn expect_rows<R: Abort + AllocGlobal>(
    rt: &R,
    stage: &mut ScanStage,
    rows: &[Row],
) -> Result<(), NoMemory> {
    for (flow, dir, seq, syn, bytes, passes) in rows {
        expect(rt, stage, *flow, *dir, &segment(*seq, *syn, bytes), *passes)?;
    }
    Ok(())
}

#[test]
fn a_flow_is_stopped(rt: HostRuntime) -> Result<(), Fail> {
    use Dir::{Forward, Reversed};
    let mut stage = ScanStage::new(rt.alloc(), b"attack", 65536)?;
    let rows: [Row; 5] = [
        (0, Forward, 99, true, b"", true),
        (0, Forward, 105, false, b"ackyy", true),
        // the bytes in order are xxattackyy with it
        (0, Forward, 100, false, b"xxatt", false),
        (0, Forward, 110, false, b"zz", false),
        (0, Reversed, 0, true, b"", false),
    ];
    expect_rows(&rt, &mut stage, &rows)?;
    // a frame of the flow that is no segment passes
    let mut other = segment(0, false, b"attack");
    other[23] = 17;
    expect(&rt, &mut stage, 0, Forward, &other, true)?;
    other[12] = 0x86;
    expect(&rt, &mut stage, 0, Forward, &other, true)?;
    Ok(())
}

#[test]
fn directions_and_flows_are_apart(rt: HostRuntime) -> Result<(), Fail> {
    use Dir::{Forward, Reversed};
    let mut stage = ScanStage::new(rt.alloc(), b"attack", 65536)?;
    let rows: [Row; 5] = [
        (0, Forward, 0, false, b"attack", false),
        (1, Forward, 0, false, b"atta", true),
        // the parts of the text in the two directions are not the text
        (1, Reversed, 4, false, b"ck", true),
        (1, Reversed, 6, false, b"attack", false),
        (1, Forward, 4, false, b"...", false),
    ];
    expect_rows(&rt, &mut stage, &rows)?;
    Ok(())
}

#[test]
fn a_dropped_payload_counts(rt: HostRuntime) -> Result<(), Fail> {
    use Dir::Forward;
    // What lies behind a gap counts, though it ends past the text.
    let mut stage = ScanStage::new(rt.alloc(), b"x", 1460)?;
    expect(&rt, &mut stage, 0, Forward, &segment(0, false, b"ab"), true)?;
    expect(&rt, &mut stage, 0, Forward, &segment(3, false, b"x"), true)?;
    expect(&rt, &mut stage, 0, Forward, &segment(2, false, b"c"), false)?;
    expect(&rt, &mut stage, 0, Forward, &segment(4, false, b"d"), false)?;
    Ok(())
}

#[test]
fn a_failed_stage_loses_each_packet(rt: HostRuntime) -> Result<(), Fail> {
    let mut stage = ScanStage::new(rt.alloc(), b"x", 1460)?;
    stage.failed = true;
    let spare = Spare::new(rt.alloc(), 0, 64)?;
    let mut out = Outlet::new(rt.alloc(), spare)?;
    let packet = packet(&rt, &segment(0, false, b"ab"))?;
    assert!(rt; stage.step(&CLASS, packet, &mut out).is_err());
    assert_eq!(rt; (out.passed.len(), out.dropped.len()), (0, 1));
    assert_eq!(rt; out.dropped[0].reason, None);
    Ok(())
}
