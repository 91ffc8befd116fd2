ghost use Rattle.std.specs.Prelude.{◌≡◌};

use crate::{PlainRow, PlainStage};
use batch_ops::{Operator, Outlet};
use brick_base::{Class, Dir, Ends, Name, NoMemory, Prefix, Raw, Reason};
use chain_types::{Backend, Change};
use flow_key::NatPlan;
use flow_stages::{BalanceStage, FirewallStage, NatStage, RouteStage};
use lpm_fw::{Route, Routes, Rule, Rules, Verdict, are_short};
use map_filter::{OnlyStage, ParsedStage, TosStage, TtlStage};
use packet_owner::{Buffer, Packet, Spare};
use pcap_io::Entry;
use read_row::ReadRow;
use std::alloc::Global;
use std::process::Abort;
use std::sync::Arc;
use std::test::Fail;
use tcp_udp::Match;

/// A UDP datagram of 4 bytes from 10.0.0.1:1000 to 10.1.2.3:53.
const PING: [u8; 46] = [
    2, 0, 0, 0, 0, 1, 2, 0, 0, 0, 0, 2, 8, 0, 0x45, 0, 0, 0x20, 0, 0, 0x40, 0, 0x40, 0x11, 0x24,
    0xc9, 10, 0, 0, 1, 10, 1, 2, 3, 3, 0xe8, 0, 53, 0, 12, 0x06, 0xe4, 0x70, 0x69, 0x6e, 0x67,
];

/// An ARP frame of 60 bytes: who has 10.1.2.3, asked by 10.0.0.1.
const ARP: [u8; 60] = [
    255, 255, 255, 255, 255, 255, 2, 0, 0, 0, 0, 1, 8, 6, 0, 1, 8, 0, 6, 4, 0, 1, 2, 0, 0, 0, 0, 1,
    10, 0, 0, 1, 0, 0, 0, 0, 0, 0, 10, 1, 2, 3, 0, 0, 0, 0, 0, 0, 0, 0, 0, 0, 0, 0, 0, 0, 0, 0, 0,
    0,
];

/// A record of the first flow, from 10.0.0.1:1000, with no rank.
const CLASS: Class = Class {
    flow: 0,
    dir: Dir::Forward,
    rank: None,
    hash: 0,
    first: Ends {
        src: 0x0a000001,
        sport: 1000,
        dst: 0x0a010203,
        dport: 53,
    },
    other: false,
    opened: 0,
};

const ANY: Match = Match {
    proto: None,
    src: None,
    dst: None,
    sport: None,
    dport: None,
    port: None,
};

const UDP: Match = Match {
    proto: Some(17),
    src: None,
    dst: None,
    sport: None,
    dport: None,
    port: None,
};

/// A packet of this frame, of record 3 in the buffer of slot 7.
fn packet<R: Abort + AllocGlobal>(rt: &R, frame: &[u8]) -> Result<Packet<Raw>, NoMemory> {
    let buffer = Buffer::new(rt.alloc(), 7, 64)?;
    assert!(rt; buffer.room() as usize >= frame.len());
    let entry = Entry {
        seconds: 1,
        fraction: 2,
        original: 60,
        frame,
    };
    Ok(Packet::fill(buffer, 3, entry))
}

/// The row lets the frame go on as this one, in its own buffer.
fn expect_goes<R: Abort + AllocGlobal>(
    rt: &R,
    row: &mut PlainRow,
    class: &Class,
    frame: &[u8],
    wanted: &[u8],
) -> Result<(), NoMemory> {
    match row.treat(class, packet(rt, frame)?) {
        Ok(packet) => {
            assert_eq!(rt; packet.payload(), wanted);
            assert_eq!(rt; (packet.key(), packet.slot()), ((3, 0), 7));
        }
        Err(_) => panic!(rt; "it goes on"),
    }
    Ok(())
}

/// The row drops the frame for this reason, or loses it, as it was by then.
fn expect_dropped<R: Abort + AllocGlobal>(
    rt: &R,
    row: &mut PlainRow,
    class: &Class,
    frame: &[u8],
    reason: Option<Reason>,
    wanted: &[u8],
) -> Result<(), NoMemory> {
    match row.treat(class, packet(rt, frame)?) {
        Ok(_) => panic!(rt; "it is dropped"),
        Err(dropped) => {
            assert_eq!(rt; dropped.reason, reason);
            assert_eq!(rt; dropped.packet.payload(), wanted);
            assert_eq!(rt; (dropped.packet.key(), dropped.packet.slot()), ((3, 0), 7));
        }
    }
    Ok(())
}

/// The frame with this time to live and header checksum.
fn aged(ttl: u8, checksum: u16) -> [u8; 46] {
    let mut frame = PING;
    frame[22] = ttl;
    frame[24..26].copy_from_slice(&checksum.to_be_bytes());
    frame
}

/// The stage with the Ethernet address 02:00:00:00:00:09 and one row, whose next hop is 02:00:00:00:01:01.
fn routing<R: Abort + AllocGlobal>(rt: &R, to: u32, bits: u8) -> Result<PlainStage, Fail> {
    let mut rows = Vec::new(rt.alloc());
    let via = [2, 0, 0, 0, 1, 1];
    rows.push(Route { to, bits, via })?;
    assert!(rt; rows.len() <= 4096);
    assert!(rt; are_short(&rows));
    let routes = Routes::build(rt.alloc(), rows)?;
    Ok(PlainStage::Route(RouteStage {
        routes: Arc::new(rt.alloc(), routes)?,
        mac: [2, 0, 0, 0, 0, 9],
    }))
}

#[test]
fn a_row_forwards_a_datagram(rt: HostRuntime) -> Result<(), Fail> {
    let mut forwarded = aged(1, 0x63c9);
    forwarded[..6].copy_from_slice(&[2, 0, 0, 0, 1, 1]);
    forwarded[6..12].copy_from_slice(&[2, 0, 0, 0, 0, 9]);
    let old = aged(1, 0x63c9);
    let here = routing(&rt, 0x0a010000, 16)?;
    let mut row = ReadRow::new(vec![in rt.alloc(); here]?);
    expect_goes(&rt, &mut row, &CLASS, &aged(2, 0x62c9), &forwarded)?;
    expect_dropped(&rt, &mut row, &CLASS, &old, Some(Reason::Ttl), &old)?;
    let elsewhere = routing(&rt, 0x0b000000, 8)?;
    let mut row = ReadRow::new(vec![in rt.alloc(); elsewhere]?);
    expect_dropped(&rt, &mut row, &CLASS, &old, Some(Reason::NoRoute), &old)?;

    // Both stages take 1, and the match between them sees the same five-tuple as the route.
    let between = PlainStage::Only(OnlyStage { wanted: UDP });
    let here = routing(&rt, 0x0a010000, 16)?;
    let mut row = ReadRow::new(vec![in rt.alloc(); PlainStage::Ttl(TtlStage), between, here]?);
    expect_goes(&rt, &mut row, &CLASS, &aged(3, 0x61c9), &forwarded)?;
    expect_dropped(
        &rt,
        &mut row,
        &CLASS,
        &aged(2, 0x62c9),
        Some(Reason::Ttl),
        &old,
    )?;
    expect_dropped(&rt, &mut row, &CLASS, &old, Some(Reason::Ttl), &old)?;
    Ok(())
}

/// A UDP datagram from 10.0.0.1:1000 to port 53 or 99 of 10.1.2.3, or back.
fn datagram(port: u8, back: bool) -> [u8; 46] {
    let mut frame = PING;
    frame[37] = port;
    if port == 99 {
        frame[41] = 0xb6;
    }
    if back {
        frame[26..34].copy_from_slice(&[10, 1, 2, 3, 10, 0, 0, 1]);
        frame[34..38].copy_from_slice(&[0, port, 3, 0xe8]);
    }
    frame
}

/// A firewall that allows what goes to port 53, and denies all else.
fn names_alone(alloc: Global, established: bool) -> Result<FirewallStage, Fail> {
    let to_names = Match {
        dport: Some(53),
        ..ANY
    };
    let mut rows = Vec::new(alloc);
    rows.push(Rule {
        verdict: Verdict::Allow,
        wanted: Some(to_names),
    })?;
    rows.push(Rule {
        verdict: Verdict::Deny,
        wanted: Some(UDP),
    })?;
    let rules = Rules::new(rows, Verdict::Deny);
    Ok(FirewallStage::new(alloc, rules, established)?)
}

#[test]
fn an_answer_passes_where_its_flow_is_established(rt: HostRuntime) -> Result<(), Fail> {
    for established in [true, false] {
        let before = PlainStage::Only(OnlyStage { wanted: UDP });
        let firewall = PlainStage::Firewall(names_alone(rt.alloc(), established)?);
        let mut row = ReadRow::new(vec![in rt.alloc(); before, firewall]?);
        let records = [
            (0, Dir::Forward, 53, true),
            (0, Dir::Reversed, 53, established),
            (1, Dir::Forward, 99, false),
            (1, Dir::Reversed, 99, false),
        ];
        for (flow, dir, port, passes) in records {
            let class = Class { flow, dir, ..CLASS };
            let frame = datagram(port, dir == Dir::Reversed);
            if passes {
                expect_goes(&rt, &mut row, &class, &frame, &frame)?;
            } else {
                expect_dropped(&rt, &mut row, &class, &frame, Some(Reason::Fire), &frame)?;
            }
        }
    }
    Ok(())
}

/// The end of the server, and the ends of the two ports outside.
const SERVER: (u32, u16) = (0xc6336402, 80);

const FIRST_OUTSIDE: (u32, u16) = (0xcb007101, 40000);

const SECOND_OUTSIDE: (u32, u16) = (0xcb007101, 40001);

/// The end of a host inside, by its number.
fn host(number: u8) -> (u32, u16) {
    (0x0a000000 + number as u32, 1000)
}

/// A TCP segment without data from one end to another, with the sequence number 1 and ACK, and with this IPv4 checksum and this TCP
/// checksum.
fn segment(from: (u32, u16), to: (u32, u16), ip4_checksum: u16, tcp_checksum: u16) -> [u8; 54] {
    let mut frame = [0; 54];
    frame[..14].copy_from_slice(&[2, 0, 0, 0, 0, 1, 2, 0, 0, 0, 0, 2, 8, 0]);
    frame[14..24].copy_from_slice(&[0x45, 0, 0, 40, 0, 0, 0x40, 0, 64, 6]);
    frame[24..26].copy_from_slice(&ip4_checksum.to_be_bytes());
    frame[26..30].copy_from_slice(&from.0.to_be_bytes());
    frame[30..34].copy_from_slice(&to.0.to_be_bytes());
    frame[34..36].copy_from_slice(&from.1.to_be_bytes());
    frame[36..38].copy_from_slice(&to.1.to_be_bytes());
    frame[38..50].copy_from_slice(&[0, 0, 0, 1, 0, 0, 0, 0, 0x50, 0x10, 0xff, 0xff]);
    frame[50..52].copy_from_slice(&tcp_checksum.to_be_bytes());
    frame
}

/// A record of the flow of this rank, in this direction, which a host inside opened to the server.
fn translated(rank: u32, from: (u32, u16), dir: Dir) -> Class {
    Class {
        flow: rank,
        dir,
        rank: Some(rank),
        hash: 0,
        first: Ends {
            src: from.0,
            sport: from.1,
            dst: SERVER.0,
            dport: SERVER.1,
        },
        other: false,
        opened: rank,
    }
}

/// The translation of 10.0.0.0/8 to two ports of 203.0.113.1, from 40000 on.
fn two_ports(rt: &impl Abort) -> PlainStage {
    let Some(inside) = Prefix::new(0x0a000000, 8) else {
        panic!(rt; "it is a prefix");
    };
    let Some(plan) = NatPlan::new(inside, 0xcb007101, 40000, 2) else {
        panic!(rt; "there is a plan");
    };
    PlainStage::Nat(NatStage { plan })
}

#[test]
fn two_flows_have_ports_and_the_third_has_none(rt: HostRuntime) -> Result<(), Fail> {
    let mut row = ReadRow::new(vec![in rt.alloc(); two_ports(&rt)]?);
    let steps = [
        (
            translated(0, host(1), Dir::Forward),
            segment(host(1), SERVER, 0x069a, 0x7765),
            segment(FIRST_OUTSIDE, SERVER, 0xd498, 0xad0b),
        ),
        (
            translated(1, host(2), Dir::Forward),
            segment(host(2), SERVER, 0x0699, 0x7764),
            segment(SECOND_OUTSIDE, SERVER, 0xd498, 0xad0a),
        ),
        (
            translated(0, host(1), Dir::Reversed),
            segment(SERVER, FIRST_OUTSIDE, 0xd498, 0xad0b),
            segment(SERVER, host(1), 0x069a, 0x7765),
        ),
    ];
    for (class, frame, wanted) in steps {
        expect_goes(&rt, &mut row, &class, &frame, &wanted)?;
    }
    let class = translated(2, host(3), Dir::Forward);
    let frame = segment(host(3), SERVER, 0x0698, 0x7763);
    expect_dropped(&rt, &mut row, &class, &frame, Some(Reason::NatFull), &frame)?;
    Ok(())
}

#[test]
fn a_match_behind_the_translation_sees_the_new_port(rt: HostRuntime) -> Result<(), Fail> {
    let class = translated(0, host(1), Dir::Forward);
    let frame = segment(host(1), SERVER, 0x069a, 0x7765);
    let outside = segment(FIRST_OUTSIDE, SERVER, 0xd498, 0xad0b);
    let inner = Match {
        sport: Some(1000),
        ..ANY
    };
    let outer = Match {
        sport: Some(40000),
        ..ANY
    };
    let before = PlainStage::Only(OnlyStage { wanted: inner });
    let behind = PlainStage::Only(OnlyStage { wanted: outer });
    let mut row = ReadRow::new(vec![in rt.alloc(); before, two_ports(&rt), behind]?);
    expect_goes(&rt, &mut row, &class, &frame, &outside)?;
    let before = PlainStage::Only(OnlyStage { wanted: inner });
    let behind = PlainStage::Only(OnlyStage { wanted: inner });
    let mut row = ReadRow::new(vec![in rt.alloc(); before, two_ports(&rt), behind]?);
    expect_dropped(
        &rt,
        &mut row,
        &class,
        &frame,
        Some(Reason::Filter),
        &outside,
    )?;
    Ok(())
}

/// A backend of this name, whose Ethernet address ends with this byte.
fn backends(alloc: Global, name: &str, last: u8) -> Result<Vec<Backend>, NoMemory> {
    let mut backends = Vec::new(alloc);
    let name = Name::new(alloc, name)?;
    let mac = [2, 0, 0, 0, 2, last];
    backends.push(Backend { name, mac })?;
    Ok(backends)
}

/// One backend, and from record 2 on another.
fn changing<R: Abort + AllocGlobal>(rt: &R) -> Result<PlainStage, Fail> {
    let first = backends(rt.alloc(), "a", 10)?;
    let second = backends(rt.alloc(), "b", 11)?;
    assert!(rt; first.len() == 1);
    assert!(rt; second.len() == 1);
    let changes = [Change {
        from: 2,
        backends: second,
    }];
    let stage = BalanceStage::new(rt.alloc(), &first, &changes)?;
    Ok(PlainStage::Balance(stage))
}

#[test]
fn a_flow_keeps_the_backend_of_its_epoch(rt: HostRuntime) -> Result<(), Fail> {
    let mut row = ReadRow::new(vec![in rt.alloc(); changing(&rt)?]?);
    // Each record's flow, the record that opened it, and the last byte of the destination.
    for (flow, opened, last) in [(0, 0, 10), (0, 0, 10), (1, 2, 11), (0, 0, 10), (1, 2, 11)] {
        let class = Class {
            flow,
            opened,
            ..CLASS
        };
        let mut wanted = PING;
        wanted[..6].copy_from_slice(&[2, 0, 0, 0, 2, last]);
        expect_goes(&rt, &mut row, &class, &PING, &wanted)?;
    }
    Ok(())
}

/// Every stage but the one that drops what has no IPv4 layer.
fn all_stages<R: Abort + AllocGlobal>(rt: &R) -> Result<Vec<PlainStage>, Fail> {
    let mut stages = Vec::new(rt.alloc());
    stages.push(PlainStage::Ttl(TtlStage))?;
    stages.push(PlainStage::Tos(TosStage { value: 4 }))?;
    stages.push(PlainStage::Only(OnlyStage { wanted: UDP }))?;
    stages.push(PlainStage::Firewall(names_alone(rt.alloc(), true)?))?;
    stages.push(routing(rt, 0x0b000000, 8)?)?;
    stages.push(two_ports(rt))?;
    stages.push(changing(rt)?)?;
    Ok(stages)
}

#[test]
fn class_other_passes_every_stage_but_one(rt: HostRuntime) -> Result<(), Fail> {
    let class = Class {
        other: true,
        ..CLASS
    };
    let mut row = ReadRow::new(all_stages(&rt)?);
    expect_goes(&rt, &mut row, &class, &ARP, &ARP)?;
    let mut stages = all_stages(&rt)?;
    stages.push(PlainStage::Parsed(ParsedStage))?;
    let mut row = ReadRow::new(stages);
    expect_dropped(&rt, &mut row, &class, &ARP, Some(Reason::Unparsed), &ARP)?;
    Ok(())
}

/// Steps over a packet of this frame, and tells whether memory ran out, and what is in the outlet then.
fn step_over<R: Abort + AllocGlobal, O: Operator>(
    rt: &R,
    stages: &mut O,
    frame: &[u8],
) -> Result<(bool, Outlet), NoMemory>
    requires ready { O.meaning.ready stages.old }
    requires spares { O.meaning.spares stages.old ≡ 0 }
    requires room { O.meaning.least_room stages.old ≡ 0 }
{
    let spare = Spare::new(rt.alloc(), 0, 64)?;
    let mut out = Outlet::new(rt.alloc(), spare)?;
    let ran_out = stages.step(&CLASS, packet(rt, frame)?, &mut out).is_err();
    Ok((ran_out, out))
}

#[test]
fn a_row_that_ran_out_of_memory_loses_each_packet(rt: HostRuntime) -> Result<(), Fail> {
    // The firewall had no memory for its flows.
    let mut firewall = names_alone(rt.alloc(), true)?;
    firewall.failed = true;
    let stages = vec![in rt.alloc(); PlainStage::Ttl(TtlStage), PlainStage::Firewall(firewall)]?;
    let mut row = ReadRow::new(stages);
    let old = aged(1, 0x63c9);
    expect_dropped(&rt, &mut row, &CLASS, &old, Some(Reason::Ttl), &old)?;
    expect_dropped(&rt, &mut row, &CLASS, &aged(2, 0x62c9), None, &old)?;
    // From then on the stage before it treats nothing.
    expect_dropped(&rt, &mut row, &CLASS, &old, None, &old)?;
    let (ran_out, out) = step_over(&rt, &mut row, &PING)?;
    assert!(rt; ran_out);
    assert_eq!(rt; (out.passed.len(), out.dropped.len()), (0, 1));
    assert_eq!(rt; out.dropped[0].reason, None);

    let mut row: PlainRow = ReadRow::new(vec![in rt.alloc(); PlainStage::Ttl(TtlStage)]?);
    let (ran_out, out) = step_over(&rt, &mut row, &aged(2, 0x62c9))?;
    assert!(rt; !ran_out);
    assert_eq!(rt; (out.passed.len(), out.dropped.len()), (1, 0));
    assert_eq!(rt; out.passed[0].packet.payload(), aged(1, 0x63c9).as_slice());
    Ok(())
}
