use crate::translate;
use brick_base::{Class, Dir, Ends, Prefix, Raw, Reason};
use eth_ip::is_header_ok;
use flow_key::{Classifier, NatPlan};
use packet_owner::{Buffer, Packet};
use pcap_io::Entry;
use std::alloc::Global;
use std::process::Abort;
use std::test::Fail;
use tcp_udp::transport_ok;
use test_frames::{CUT, PING};

/// From 10.0.0.0/8 to 203.0.113.1, with two ports from 40,000 on.
fn plan() -> Option<NatPlan> {
    NatPlan::new(Prefix::new(0x0a000000, 8)?, 0xcb007101, 40000, 2)
}

/// A class of the flow from 10.0.0.1:1000 to 198.51.100.2:80.
fn class(dir: Dir, rank: Option<u32>) -> Class {
    Class {
        flow: 0,
        opened: 0,
        dir,
        rank,
        hash: 0,
        first: Ends {
            src: 0x0a000001,
            sport: 1000,
            dst: 0xc6336402,
            dport: 80,
        },
        other: false,
    }
}

/// The frame in a packet of record 7, in a buffer of slot 5.
fn packet(rt: &impl Abort, buffer: Buffer, frame: &[u8]) -> Packet<Raw> {
    assert!(rt; frame.len() <= buffer.room() as usize);
    let entry = Entry {
        seconds: 1,
        fraction: 2,
        original: 1514,
        frame,
    };
    Packet::fill(buffer, 7, entry)
}

#[test]
fn the_source_of_a_cut_frame(rt: HostRuntime) -> Result<(), Fail> {
    let Some(plan) = plan() else {
        assert!(rt; false, "there is a plan");
        return Ok(());
    };
    let cut = packet(&rt, Buffer::new(rt.alloc(), 5, 64)?, &CUT);
    let Ok(out) = translate(&plan, &class(Dir::Forward, Some(0)), cut) else {
        assert!(rt; false, "there is a port");
        return Ok(());
    };
    let mut wanted = CUT;
    wanted[24..30].copy_from_slice(&[0xce, 0xe4, 0xcb, 0x00, 0x71, 0x01]);
    wanted[34..36].copy_from_slice(&[0x9c, 0x40]);
    wanted[50..52].copy_from_slice(&[0x47, 0xda]);
    assert_eq!(rt; out.payload(), wanted.as_slice());
    assert_eq!(rt; (out.slot(), out.key()), (5, (7, 0)));
    assert_eq!(rt; out.item(rt.alloc())?.original, 1514);

    // There are ports of rank 0 and 1. The packet comes back as it was.
    let Err((packet, reason)) = translate(&plan, &class(Dir::Forward, Some(2)), out) else {
        assert!(rt; false, "there is no port");
        return Ok(());
    };
    assert_eq!(rt; reason, Reason::NatFull);
    assert_eq!(rt; packet.payload(), wanted.as_slice());
    Ok(())
}

/// A frame, after a translation that has a port.
fn translated(rt: &impl Abort, buffer: Buffer, class: &Class, frame: &[u8]) -> Packet<Raw> {
    match plan() {
        None => panic!(rt; "there is a plan"),
        Some(plan) => match translate(&plan, class, packet(rt, buffer, frame)) {
            Ok(packet) => packet,
            Err(_) => panic!(rt; "there is a port"),
        },
    }
}

#[test]
fn udp_checksums(rt: HostRuntime) -> Result<(), Fail> {
    let forward = class(Dir::Forward, Some(0));
    let out = translated(&rt, Buffer::new(rt.alloc(), 0, 64)?, &forward, &PING);
    let mut wanted = PING;
    wanted[24..30].copy_from_slice(&[0xf2, 0xc7, 0xcb, 0x00, 0x71, 0x01]);
    wanted[34..36].copy_from_slice(&[0x9c, 0x40]);
    wanted[40..42].copy_from_slice(&[0x3c, 0x8a]);
    assert_eq!(rt; out.payload(), wanted.as_slice());

    // A field of 0 stays 0.
    let mut frame = PING;
    frame[40..42].copy_from_slice(&[0, 0]);
    let out = translated(&rt, out.into_buffer(), &forward, &frame);
    wanted[40..42].copy_from_slice(&[0, 0]);
    assert_eq!(rt; out.payload(), wanted.as_slice());

    // A result of 0 is stored as ffff.
    let mut frame = PING;
    frame[40..46].copy_from_slice(&[0xca, 0x59, 0, 0, 0x1b, 0x5b]);
    let out = translated(&rt, out.into_buffer(), &forward, &frame);
    wanted[40..46].copy_from_slice(&[0xff, 0xff, 0, 0, 0x1b, 0x5b]);
    assert_eq!(rt; out.payload(), wanted.as_slice());
    Ok(())
}

#[test]
fn what_comes_back_and_what_has_no_ports(rt: HostRuntime) -> Result<(), Fail> {
    // From 198.51.100.2:80 to 203.0.113.1:40000: the destination becomes 10.0.0.1:1000.
    let mut frame = CUT;
    frame[26..30].copy_from_slice(&[0xc6, 0x33, 0x64, 0x02]);
    frame[30..34].copy_from_slice(&[0xcb, 0x00, 0x71, 0x01]);
    frame[34..38].copy_from_slice(&[0x00, 0x50, 0x9c, 0x40]);
    let reversed = class(Dir::Reversed, Some(0));
    let out = translated(&rt, Buffer::new(rt.alloc(), 0, 64)?, &reversed, &frame);
    assert!(rt; out.payload().len() == 64);
    assert_eq!(rt;
        &out.payload()[26..38],
        [0xc6, 0x33, 0x64, 0x02, 10, 0, 0, 1, 0, 80, 0x03, 0xe8].as_slice()
    );

    // ICMP, a fragment, and a flow without a rank
    let mut icmp = PING;
    icmp[23] = 1;
    let mut fragment = PING;
    fragment[20] = 0x20;
    let forward = class(Dir::Forward, Some(1));
    let out = translated(&rt, out.into_buffer(), &forward, &icmp);
    assert_eq!(rt; out.payload(), icmp.as_slice());
    let out = translated(&rt, out.into_buffer(), &forward, &fragment);
    assert_eq!(rt; out.payload(), fragment.as_slice());
    let out = translated(&rt, out.into_buffer(), &class(Dir::Forward, None), &PING);
    assert_eq!(rt; out.payload(), PING.as_slice());
    Ok(())
}

/// The end of the server, and the ends of the two ports outside.
const SERVER: (u32, u16) = (0xc6336402, 80);

const FIRST_OUTSIDE: (u32, u16) = (0xcb007101, 40000);

const SECOND_OUTSIDE: (u32, u16) = (0xcb007101, 40001);

/// The end of a host inside, by its number.
fn host(number: u8) -> (u32, u16) {
    (0x0a000000 + number as u32, 1000)
}

/// A TCP segment without data from one end to another, with the sequence number 1 and ACK, and with this IPv4 checksum and this TCP
/// checksum.
fn segment(from: (u32, u16), to: (u32, u16), ip4_checksum: u16, tcp_checksum: u16) -> [u8; 54] {
    let mut frame = [0; 54];
    frame[..14].copy_from_slice(&[2, 0, 0, 0, 0, 1, 2, 0, 0, 0, 0, 2, 8, 0]);
    frame[14..24].copy_from_slice(&[0x45, 0, 0, 40, 0, 0, 0x40, 0, 64, 6]);
    frame[24..26].copy_from_slice(&ip4_checksum.to_be_bytes());
    frame[26..30].copy_from_slice(&from.0.to_be_bytes());
    frame[30..34].copy_from_slice(&to.0.to_be_bytes());
    frame[34..36].copy_from_slice(&from.1.to_be_bytes());
    frame[36..38].copy_from_slice(&to.1.to_be_bytes());
    frame[38..50].copy_from_slice(&[0, 0, 0, 1, 0, 0, 0, 0, 0x50, 0x10, 0xff, 0xff]);
    frame[50..52].copy_from_slice(&tcp_checksum.to_be_bytes());
    frame
}

/// Whether both checksums of a frame are right.
fn is_right(frame: &[u8]) -> bool {
    frame.len() >= 34 && is_header_ok(&frame[14..34]) && transport_ok(frame) == Some(true)
}

/// The classes of frames, under a plan.
fn classified(alloc: Global, plan: NatPlan, frames: &[[u8; 54]; 4]) -> Result<Vec<Class>, Fail> {
    let mut classifier = Classifier::new(alloc, Some(plan))?;
    let mut classes = Vec::new(alloc);
    for k in 0..4 {
        classes.push(classifier.classify(&frames[k])?)?;
    }
    Ok(classes)
}

/// The four records: two hosts inside write to the server, it replies to the first, and a third host writes to it.
fn records() -> [[u8; 54]; 4] {
    [
        segment(host(1), SERVER, 0x069a, 0x7765),
        segment(host(2), SERVER, 0x0699, 0x7764),
        segment(SERVER, FIRST_OUTSIDE, 0xd498, 0xad0b),
        segment(host(3), SERVER, 0x0698, 0x7763),
    ]
}

#[test]
fn two_flows_have_ports_and_the_third_has_none(rt: HostRuntime) -> Result<(), Fail> {
    let Some(plan) = plan() else {
        assert!(rt; false, "there is a plan");
        return Ok(());
    };
    let records = records();
    let classes = classified(rt.alloc(), plan, &records)?;
    assert!(rt; classes.len() == 4);
    let flows = [
        (0, Dir::Forward, Some(0)),
        (1, Dir::Forward, Some(1)),
        (0, Dir::Reversed, Some(0)),
        (2, Dir::Forward, Some(2)),
    ];
    for k in 0..4 {
        let class = classes[k];
        assert_eq!(rt; (class.flow, class.dir, class.rank), flows[k], "{k}");
    }
    let wanted = [
        segment(FIRST_OUTSIDE, SERVER, 0xd498, 0xad0b),
        segment(SECOND_OUTSIDE, SERVER, 0xd498, 0xad0a),
        segment(SERVER, host(1), 0x069a, 0x7765),
    ];
    for k in 0..3 {
        let buffer = Buffer::new(rt.alloc(), k as u32, 54)?;
        let Ok(out) = translate(&plan, &classes[k], packet(&rt, buffer, &records[k])) else {
            assert!(rt; false, "there is a port");
            return Ok(());
        };
        assert!(rt; is_right(&records[k]) && is_right(out.payload()), "{k}");
        assert_eq!(rt; out.payload(), wanted[k].as_slice(), "{k}");
    }
    let last = packet(&rt, Buffer::new(rt.alloc(), 3, 54)?, &records[3]);
    let Err((packet, reason)) = translate(&plan, &classes[3], last) else {
        assert!(rt; false, "there is no port");
        return Ok(());
    };
    assert_eq!(rt; reason, Reason::NatFull);
    assert_eq!(rt; packet.payload(), records[3].as_slice());
    Ok(())
}
