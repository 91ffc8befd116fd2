ghost use Rattle.std.specs.Prelude.{◌≡◌};

use crate::{Path, StagePath};
use batch_ops::{Operator, Outlet};
use brick_base::{Class, Dir, Ends, NoMemory, Reason};
use map_filter::TtlStage;
use packet_owner::{Buffer, Packet, Spare};
use pcap_io::Entry;
use std::process::Abort;
use std::test::Fail;

/// A UDP datagram of 4 bytes from 10.0.0.1:1000 to 10.1.2.3:53.
const PING: [u8; 46] = [
    2, 0, 0, 0, 0, 1, 2, 0, 0, 0, 0, 2, 8, 0, 0x45, 0, 0, 0x20, 0, 0, 0x40, 0, 0x40, 0x11, 0x24,
    0xc9, 10, 0, 0, 1, 10, 1, 2, 3, 3, 0xe8, 0, 53, 0, 12, 0x06, 0xe4, 0x70, 0x69, 0x6e, 0x67,
];

const CLASS: Class = Class {
    flow: 0,
    dir: Dir::Forward,
    rank: None,
    hash: 0,
    first: Ends {
        src: 0x0a000001,
        sport: 1000,
        dst: 0x0a010203,
        dport: 53,
    },
    other: false,
    opened: 0,
};

/// The frame with this time to live and header checksum.
fn aged(ttl: u8, checksum: u16) -> [u8; 46] {
    let mut frame = PING;
    frame[22] = ttl;
    frame[24..26].copy_from_slice(&checksum.to_be_bytes());
    frame
}

/// Steps over a packet of this frame, in the buffer of slot 7, and tells whether memory ran out, and what is in the outlet then.
fn step_over<R: Abort + AllocGlobal, O: Operator>(
    rt: &R,
    path: &mut O,
    frame: &[u8],
) -> Result<(bool, Outlet), NoMemory>
    requires ready { O.meaning.ready path.old }
    requires spares { O.meaning.spares path.old ≡ 0 }
    requires room { O.meaning.least_room path.old ≡ 0 }
{
    let buffer = Buffer::new(rt.alloc(), 7, 64)?;
    assert!(rt; buffer.room() as usize >= frame.len());
    let entry = Entry {
        seconds: 1,
        fraction: 2,
        original: 60,
        frame,
    };
    let packet = Packet::fill(buffer, 0, entry);
    let spare = Spare::new(rt.alloc(), 0, 64)?;
    let mut out = Outlet::new(rt.alloc(), spare)?;
    let ran_out = path.step(&CLASS, packet, &mut out).is_err();
    Ok((ran_out, out))
}

/// The path lets the frame go on as this one, in its own buffer.
fn expect_goes<R: Abort>(rt: &R, stepped: &(bool, Outlet), wanted: &[u8]) {
    let (ran_out, out) = stepped;
    assert!(rt; !*ran_out);
    assert_eq!(rt; (out.passed.len(), out.dropped.len()), (1, 0));
    assert_eq!(rt; out.passed[0].packet.payload(), wanted);
    assert_eq!(rt; out.passed[0].packet.slot(), 7);
}

/// The path drops the frame for this reason, or loses it, as it was by then.
fn expect_dropped<R: Abort>(
    rt: &R,
    stepped: &(bool, Outlet),
    reason: Option<Reason>,
    wanted: &[u8],
) {
    let (ran_out, out) = stepped;
    assert_eq!(rt; *ran_out, reason.is_none());
    assert_eq!(rt; (out.passed.len(), out.dropped.len()), (0, 1));
    assert_eq!(rt; out.dropped[0].reason, reason);
    assert_eq!(rt; out.dropped[0].packet.payload(), wanted);
    assert_eq!(rt; out.dropped[0].packet.slot(), 7);
}

#[test]
fn a_straight_path_is_its_row(rt: HostRuntime) -> Result<(), Fail> {
    let frame = aged(2, 0x62c9);
    let stages = vec![in rt.alloc(); TtlStage]?;
    let mut path: StagePath<TtlStage, TtlStage> = Path::straight(stages);
    let stepped = step_over(&rt, &mut path, &frame)?;
    expect_goes(&rt, &stepped, &aged(1, 0x63c9));

    let stages = vec![in rt.alloc(); TtlStage, TtlStage]?;
    let mut path: StagePath<TtlStage, TtlStage> = Path::straight(stages);
    let stepped = step_over(&rt, &mut path, &frame)?;
    expect_dropped(&rt, &stepped, Some(Reason::Ttl), &aged(1, 0x63c9));
    Ok(())
}

#[test]
fn a_failed_path_loses_the_packet(rt: HostRuntime) -> Result<(), Fail> {
    let stages = vec![in rt.alloc(); TtlStage]?;
    let mut path: StagePath<TtlStage, TtlStage> = Path::straight(stages);
    path.failed = true;
    let stepped = step_over(&rt, &mut path, &PING)?;
    expect_dropped(&rt, &stepped, None, &PING);
    Ok(())
}

/// The path of one stage, one in the middle and one behind it, each of which takes 1 from the time to live.
fn three(rt: &impl AllocGlobal) -> Result<StagePath<TtlStage, TtlStage>, Fail> {
    let before = vec![in rt.alloc(); TtlStage]?;
    let behind = vec![in rt.alloc(); TtlStage]?;
    Ok(Path::bent(rt.alloc(), before, TtlStage, behind, 0)?)
}

#[test]
fn a_bent_path_goes_through_its_middle(rt: HostRuntime) -> Result<(), Fail> {
    let mut path = three(&rt)?;
    let stepped = step_over(&rt, &mut path, &PING)?;
    expect_goes(&rt, &stepped, &aged(61, 0x27c9));
    let mut path = three(&rt)?;
    let stepped = step_over(&rt, &mut path, &aged(3, 0x61c9))?;
    expect_dropped(&rt, &stepped, Some(Reason::Ttl), &aged(1, 0x63c9));
    Ok(())
}
