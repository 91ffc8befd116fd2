ghost use Rattle.std.specs.Prelude.{◌≡◌, ◌≤◌, length, vec_len};

use crate::WindowStage;
use batch_ops::{Operator, Outlet, Passed};
use brick_base::{Class, Dir, Ends, Reason};
use eth_ip::is_header_ok;
use packet_owner::{Buffer, Packet, Spare};
use pcap_io::Entry;
use std::process::Abort;
use std::test::Fail;
use tcp_udp::transport_ok;

/// The headers of a frame from 10.0.0.1:1000 to 198.51.100.2:80, with no flags and the sequence number 0.
const HEADERS: [u8; 54] = [
    0x02, 0x00, 0x00, 0x00, 0x00, 0x01, 0x02, 0x00, 0x00, 0x00, 0x00, 0x02, 0x08, 0x00, 0x45, 0x00,
    0x00, 0x28, 0x00, 0x00, 0x40, 0x00, 0x40, 0x06, 0x00, 0x00, 0x0a, 0x00, 0x00, 0x01, 0xc6, 0x33,
    0x64, 0x02, 0x03, 0xe8, 0x00, 0x50, 0x00, 0x00, 0x00, 0x00, 0x00, 0x00, 0x00, 0x00, 0x50, 0x10,
    0x20, 0x00, 0x00, 0x00, 0x00, 0x00,
];

const FIN: u8 = 0x01;

const SYN: u8 = 0x02;

const ACK: u8 = 0x10;

/// A UDP datagram of no data, from the same ends.
const DATAGRAM: [u8; 42] = [
    0x02, 0x00, 0x00, 0x00, 0x00, 0x01, 0x02, 0x00, 0x00, 0x00, 0x00, 0x02, 0x08, 0x00, 0x45, 0x00,
    0x00, 0x1c, 0x00, 0x00, 0x40, 0x00, 0x40, 0x11, 0x00, 0x00, 0x0a, 0x00, 0x00, 0x01, 0xc6, 0x33,
    0x64, 0x02, 0x03, 0xe8, 0x00, 0x50, 0x00, 0x08, 0x00, 0x00,
];

/// A TCP segment: its sequence number, its flags, and as many bytes of one value as it has data.
#[derive(Clone, Copy)]
struct Input {
    flow: u32,
    dir: Dir,
    seq: u32,
    flags: u8,
    value: u8,
    len: usize,
}

/// A segment of the flow 0.
fn segment(dir: Dir, seq: u32, flags: u8, value: u8, len: usize) -> Input {
    Input {
        flow: 0,
        dir,
        seq,
        flags,
        value,
        len,
    }
}

/// A record of this flow in this direction.
fn class_of(flow: u32, dir: Dir) -> Class {
    Class {
        flow,
        opened: flow,
        dir,
        rank: None,
        hash: 0,
        first: Ends {
            src: 0x0a000001,
            sport: 1000,
            dst: 0xc6336402,
            dport: 80,
        },
        other: false,
    }
}

/// Writes the headers of a segment over the first bytes.
fn write_headers(frame: &mut [u8], seq: u32, flags: u8, total: u16)
    requires { 54 ≤ length frame.old }
{
    frame[..54].copy_from_slice(&HEADERS);
    frame[16..18].copy_from_slice(&total.to_be_bytes());
    frame[38..42].copy_from_slice(&seq.to_be_bytes());
    frame[47] = flags;
}

/// Runs the stage on the packet of record `number`, which has this class and frame, and tells what is in the outlet.
fn step_frame<R: Abort + AllocGlobal>(
    rt: &R,
    stage: &mut WindowStage,
    number: u32,
    class: &Class,
    frame: &[u8],
) -> Result<Outlet, Fail> {
    let buffer = Buffer::new(rt.alloc(), 7, 1514)?;
    assert!(rt; frame.len() <= buffer.room() as usize);
    let entry = Entry {
        seconds: number,
        fraction: 0,
        original: 1514,
        frame,
    };
    let packet = Packet::fill(buffer, number, entry);
    let spare = Spare::new(rt.alloc(), stage.reach / stage.size + 1, 54 + stage.size)?;
    let mut out = Outlet::new(rt.alloc(), spare)?;
    assert!(rt; out.spare.free() >= stage.reach / stage.size + 1);
    stage.step(class, packet, &mut out)?;
    Ok(out)
}

/// The same of a TCP segment.
fn step_over<R: Abort + AllocGlobal>(
    rt: &R,
    stage: &mut WindowStage,
    number: u32,
    input: Input,
) -> Result<Outlet, Fail> {
    assert!(rt; input.len <= 1460);
    let mut frame = vec![in rt.alloc(); input.value; 54 + input.len]?;
    assert!(rt; frame.len() >= 54);
    write_headers(&mut frame, input.seq, input.flags, 40 + input.len as u16);
    step_frame(rt, stage, number, &class_of(input.flow, input.dir), &frame)
}

/// What is in the outlet at the end of a flow.
fn rests<R: Abort + AllocGlobal>(
    rt: &R,
    stage: &mut WindowStage,
    flow: u32,
    records: u32,
) -> Result<Outlet, Fail> {
    let spare = Spare::new(rt.alloc(), stage.reach / stage.size + 1, 54 + stage.size)?;
    let mut out = Outlet::new(rt.alloc(), spare)?;
    assert!(rt; out.spare.free() >= stage.reach / stage.size + 1);
    stage.end(&class_of(flow, Dir::Forward), records, &mut out)?;
    assert_eq!(rt; (out.dropped.len(), out.consumed.len()), (0, 0));
    Ok(out)
}

/// How many packets passed, were dropped and were consumed.
fn counts(out: &Outlet) -> (usize, usize, usize)
    ensures { result ≡ (vec_len out.now.passed, vec_len out.now.dropped, vec_len out.now.consumed) }
{
    (out.passed.len(), out.dropped.len(), out.consumed.len())
}

/// The packet has this key and this sequence number, lies in a spare buffer or not, and its checksums are right. Its data
/// is told.
fn expect_frame<'a, R: Abort>(
    rt: &R,
    passed: &'a Passed,
    key: (u64, u32),
    seq: u32,
    is_spare: bool,
) -> &'a [u8] {
    let packet = &passed.packet;
    assert_eq!(rt; packet.key(), key);
    assert_eq!(rt; packet.slot() >= 1024, is_spare);
    let frame = packet.payload();
    assert!(rt; frame.len() >= 54);
    let written = &frame[38..42];
    let wanted = seq.to_be_bytes();
    assert_eq!(rt; written, wanted.as_slice());
    let datagram = &frame[14..34];
    assert!(rt; is_header_ok(datagram));
    assert_eq!(rt; transport_ok(frame), Some(true));
    &frame[54..]
}

/// So many bytes of one value and then so many of another.
fn expect_bytes<R: Abort>(rt: &R, data: &[u8], first: (u8, usize), second: (u8, usize)) {
    assert!(rt; first.1 < 10000 && second.1 < 10000);
    assert_eq!(rt; data.len(), first.1 + second.1);
    for (k, byte) in data.iter().enumerate() {
        let wanted = if k < first.1 { first.0 } else { second.0 };
        assert_eq!(rt; *byte, wanted);
    }
}

#[test]
fn segments_that_overlap_come_in_order(rt: HostRuntime) -> Result<(), Fail> {
    let mut stage = WindowStage::new(rt.alloc(), 64, 65536);
    let forward = Dir::Forward;
    let out = step_over(&rt, &mut stage, 0, segment(forward, 1000, SYN, 0, 0))?;
    assert_eq!(rt; counts(&out), (1, 0, 0));
    assert_eq!(rt;
        (out.passed[0].packet.key(), out.passed[0].packet.slot()),
        ((0, 0), 7)
    );
    let out = step_over(&rt, &mut stage, 1, segment(forward, 1101, ACK, 0x41, 60))?;
    assert_eq!(rt; counts(&out), (0, 0, 1));
    assert_eq!(rt; out.consumed[0].slot(), 7);
    let out = step_over(&rt, &mut stage, 2, segment(forward, 1001, ACK, 0x42, 60))?;
    assert_eq!(rt; counts(&out), (0, 0, 1));
    let out = step_over(&rt, &mut stage, 3, segment(forward, 1051, ACK, 0x43, 70))?;
    assert_eq!(rt; counts(&out), (2, 0, 1));
    let data = expect_frame(&rt, &out.passed[0], (3, 1), 1001, true);
    expect_bytes(&rt, data, (0x42, 60), (0x43, 4));
    let data = expect_frame(&rt, &out.passed[1], (3, 2), 1065, true);
    expect_bytes(&rt, data, (0x43, 36), (0x41, 28));
    let out = rests(&rt, &mut stage, 0, 4)?;
    assert_eq!(rt; counts(&out), (1, 0, 0));
    let data = expect_frame(&rt, &out.passed[0], (4, 0), 1129, true);
    expect_bytes(&rt, data, (0x41, 32), (0, 0));
    Ok(())
}

#[test]
fn sequence_numbers_go_round(rt: HostRuntime) -> Result<(), Fail> {
    let mut stage = WindowStage::new(rt.alloc(), 64, 65536);
    let out = step_over(
        &rt,
        &mut stage,
        0,
        segment(Dir::Forward, 0xffff_fff0, ACK, 1, 32),
    )?;
    assert_eq!(rt; counts(&out), (0, 0, 1));
    let out = step_over(&rt, &mut stage, 1, segment(Dir::Forward, 0x10, ACK, 2, 32))?;
    assert_eq!(rt; counts(&out), (1, 0, 1));
    let data = expect_frame(&rt, &out.passed[0], (1, 1), 0xffff_fff0, true);
    expect_bytes(&rt, data, (1, 32), (2, 32));
    let out = rests(&rt, &mut stage, 0, 2)?;
    assert_eq!(rt; counts(&out), (0, 0, 0));
    Ok(())
}

#[test]
fn a_segment_past_the_reach_is_dropped(rt: HostRuntime) -> Result<(), Fail> {
    let mut stage = WindowStage::new(rt.alloc(), 64, 65536);
    let forward = Dir::Forward;
    let out = step_over(&rt, &mut stage, 0, segment(forward, 0, ACK, 1, 1))?;
    assert_eq!(rt; counts(&out), (0, 0, 1));
    // It ends at 1 + 65,536, and then one byte further, and then far away.
    let out = step_over(&rt, &mut stage, 1, segment(forward, 65536, ACK, 2, 1))?;
    assert_eq!(rt; counts(&out), (0, 0, 1));
    for seq in [65537, 2_000_000_000] {
        let out = step_over(&rt, &mut stage, 2, segment(forward, seq, ACK, 3, 1))?;
        assert_eq!(rt; counts(&out), (0, 1, 0));
        assert_eq!(rt;
            (out.dropped[0].reason, out.dropped[0].packet.slot()),
            (Some(Reason::Reach), 7)
        );
    }
    Ok(())
}

/// A packet that the stage passes as it came.
fn expect_as_it_came<R: Abort>(rt: &R, out: &Outlet, number: u64, frame: &[u8]) {
    assert_eq!(rt; counts(out), (1, 0, 0));
    let packet = &out.passed[0].packet;
    assert_eq!(rt; (packet.key(), packet.slot()), ((number, 0), 7));
    assert_eq!(rt; packet.payload(), frame);
}

#[test]
fn flows_and_directions_have_streams_of_their_own(rt: HostRuntime) -> Result<(), Fail> {
    let mut stage = WindowStage::new(rt.alloc(), 64, 65536);
    let (forward, reversed) = (Dir::Forward, Dir::Reversed);
    let out = step_over(&rt, &mut stage, 0, segment(forward, 0, ACK, 1, 40))?;
    assert_eq!(rt; counts(&out), (0, 0, 1));
    let other_flow = Input {
        flow: 1,
        ..segment(forward, 5000, ACK, 2, 65)
    };
    let out = step_over(&rt, &mut stage, 1, other_flow)?;
    assert_eq!(rt; counts(&out), (1, 0, 1));
    let data = expect_frame(&rt, &out.passed[0], (1, 1), 5000, true);
    expect_bytes(&rt, data, (2, 64), (0, 0));
    let arp = [0x08; 20];
    let class_other = Class {
        other: true,
        ..class_of(2, forward)
    };
    let out = step_frame(&rt, &mut stage, 2, &class_other, &arp)?;
    expect_as_it_came(&rt, &out, 2, &arp);
    let out = step_over(&rt, &mut stage, 3, segment(reversed, 900, ACK, 3, 70))?;
    assert_eq!(rt; counts(&out), (1, 0, 1));
    let data = expect_frame(&rt, &out.passed[0], (3, 1), 900, true);
    expect_bytes(&rt, data, (3, 64), (0, 0));
    let out = step_frame(&rt, &mut stage, 4, &class_of(3, forward), &DATAGRAM)?;
    expect_as_it_came(&rt, &out, 4, &DATAGRAM);
    let out = step_over(&rt, &mut stage, 5, segment(forward, 40, ACK, 4, 30))?;
    assert_eq!(rt; counts(&out), (1, 0, 1));
    let data = expect_frame(&rt, &out.passed[0], (5, 1), 0, true);
    expect_bytes(&rt, data, (1, 40), (4, 24));
    let out = rests(&rt, &mut stage, 0, 6)?;
    assert_eq!(rt; counts(&out), (2, 0, 0));
    let data = expect_frame(&rt, &out.passed[0], (6, 0), 64, true);
    expect_bytes(&rt, data, (4, 6), (0, 0));
    let data = expect_frame(&rt, &out.passed[1], (6, 1), 964, true);
    expect_bytes(&rt, data, (3, 6), (0, 0));
    let out = rests(&rt, &mut stage, 1, 6)?;
    assert_eq!(rt; counts(&out), (1, 0, 0));
    let data = expect_frame(&rt, &out.passed[0], (7, 0), 5064, true);
    expect_bytes(&rt, data, (2, 1), (0, 0));
    for flow in [2, 3] {
        let out = rests(&rt, &mut stage, flow, 6)?;
        assert_eq!(rt; counts(&out), (0, 0, 0));
    }
    Ok(())
}

#[test]
fn a_bare_segment_sets_the_base(rt: HostRuntime) -> Result<(), Fail> {
    let mut stage = WindowStage::new(rt.alloc(), 64, 65536);
    let reversed = Dir::Reversed;
    let out = step_over(&rt, &mut stage, 0, segment(reversed, 700, ACK, 0, 0))?;
    assert_eq!(rt; counts(&out), (1, 0, 0));
    // The bytes at position 5 wait for the five before them.
    let out = step_over(&rt, &mut stage, 1, segment(reversed, 705, ACK, 1, 10))?;
    assert_eq!(rt; counts(&out), (0, 0, 1));
    let out = rests(&rt, &mut stage, 0, 2)?;
    assert_eq!(rt; counts(&out), (0, 0, 0));
    let out = step_over(&rt, &mut stage, 2, segment(reversed, 700, ACK, 2, 5))?;
    assert_eq!(rt; counts(&out), (0, 0, 1));
    let out = rests(&rt, &mut stage, 0, 3)?;
    assert_eq!(rt; counts(&out), (1, 0, 0));
    let data = expect_frame(&rt, &out.passed[0], (3, 1), 700, true);
    expect_bytes(&rt, data, (2, 5), (1, 10));
    Ok(())
}

#[test]
fn a_marked_segment_is_left_bare(rt: HostRuntime) -> Result<(), Fail> {
    let mut stage = WindowStage::new(rt.alloc(), 64, 65536);
    let out = step_over(
        &rt,
        &mut stage,
        0,
        segment(Dir::Forward, 500, FIN | ACK, 0x30, 10),
    )?;
    assert_eq!(rt; counts(&out), (1, 0, 0));
    let data = expect_frame(&rt, &out.passed[0], (0, 0), 510, false);
    expect_bytes(&rt, data, (0, 0), (0, 0));
    let out = rests(&rt, &mut stage, 0, 1)?;
    assert_eq!(rt; counts(&out), (1, 0, 0));
    let data = expect_frame(&rt, &out.passed[0], (1, 0), 500, true);
    expect_bytes(&rt, data, (0x30, 10), (0, 0));
    Ok(())
}

#[test]
fn a_short_exchange(rt: HostRuntime) -> Result<(), Fail> {
    let mut stage = WindowStage::new(rt.alloc(), 1460, 65536);
    let client = Dir::Forward;
    let server = Dir::Reversed;
    let segments = [
        segment(client, 100, SYN, 0, 0),
        segment(server, 200, SYN | ACK, 0, 0),
        segment(client, 101, ACK, 0, 0),
        segment(client, 101, ACK, 1, 78),
        segment(server, 201, ACK, 0, 0),
        segment(server, 201, ACK, 2, 1448),
        segment(server, 1649, ACK, 3, 1448),
        segment(client, 179, ACK, 0, 0),
        segment(server, 3097, FIN | ACK, 0, 0),
        segment(client, 179, FIN | ACK, 0, 0),
        segment(server, 3098, ACK, 0, 0),
    ];
    for (k, segment) in segments.iter().enumerate() {
        assert!(rt; k < 11);
        let out = step_over(&rt, &mut stage, k as u32, *segment)?;
        let wanted = match k {
            3 | 5 => (0, 0, 1),
            6 => (1, 0, 1),
            _ => (1, 0, 0),
        };
        assert_eq!(rt; counts(&out), wanted);
        if k == 6 {
            assert!(rt; !out.passed.is_empty());
            let data = expect_frame(&rt, &out.passed[0], (6, 1), 201, true);
            expect_bytes(&rt, data, (2, 1448), (3, 12));
        }
    }
    let out = rests(&rt, &mut stage, 0, 11)?;
    assert_eq!(rt; counts(&out), (2, 0, 0));
    let data = expect_frame(&rt, &out.passed[0], (11, 0), 101, true);
    expect_bytes(&rt, data, (1, 78), (0, 0));
    let data = expect_frame(&rt, &out.passed[1], (11, 1), 1661, true);
    expect_bytes(&rt, data, (3, 1436), (0, 0));
    Ok(())
}
