ghost use Rattle.std.specs.Prelude.{◌≡◌, ℕ, ◌%◌, ◌≤◌, length};
ghost use Rattle.brick_spec.specs.Edit.{with_source, with_tcp_source, with_tcp_address};

use crate::{
    Match, Tcp, TcpMut, TcpView, Tuple, Udp, UdpMut, UdpView, parse_finds_layers,
    transport_edits_keep_right, transport_ok,
};
use brick_base::{Prefix, Proto, Raw};
use eth_ip::{Eth, Ip4, Ip4Mut, Ip4View};
use packet_owner::{Buffer, Packet};
use pcap_io::Entry;
use std::test::Fail;
use test_frames::{CUT, PING};

/// How many bytes the TCP payload of a packet has, where it has TCP.
fn tcp_payload(packet: Packet<Raw>) -> Option<usize> {
    let ethernet = packet.parse::<Eth>().ok()?;
    let ip4 = ethernet.parse::<Ip4>().ok()?;
    let tcp = ip4.parse::<Tcp>().ok()?;
    Some(tcp.payload().len())
}

#[test]
fn a_short_total_length(rt: HostRuntime) -> Result<(), Fail> {
    let mut frame = CUT;
    frame[16] = 0;
    frame[17] = 40;
    let buffer = Buffer::new(rt.alloc(), 0, 64)?;
    assert!(rt; buffer.room() >= 60);
    let entry = Entry {
        seconds: 0,
        fraction: 0,
        original: 60,
        frame: &frame[..60],
    };
    assert_eq!(rt; tcp_payload(Packet::fill(buffer, 0, entry)), Some(0));
    parse_finds_layers();
    Ok(())
}

/// Sets the source, through a view.
fn translate_address(header: &mut [u8], address: u32)
    requires long { 20 ≤ length header.old }
    requires even { length header.old % 2 ≡ 0 }
    ensures { header.new ≡ with_source header.old address }
{
    let mut ip4 = Ip4Mut::of(header);
    ip4.set_src(address);
}

/// Sets the source port, where the source of the datagram has changed, through a view.
fn translate_port(header: &mut [u8], old: u32, new: u32, port: u16)
    requires { 20 ≤ length header.old }
    ensures { header.new ≡ with_tcp_source (with_tcp_address header.old old new) port }
{
    let mut tcp = TcpMut::of(header);
    tcp.address_changed(old, new);
    tcp.set_sport(port);
}

#[test]
fn a_cut_frame_is_translated(rt: HostRuntime) {
    let mut frame = CUT;
    translate_address(&mut frame[14..34], 0xcb00_7101);
    translate_port(&mut frame[34..54], 0x0a00_0001, 0xcb00_7101, 0x9c40);
    let ip4 = Ip4View::of(&frame[14..34]);
    assert_eq!(rt; (ip4.src(), ip4.stored()), (0xcb00_7101, 0xcee4));
    let tcp = TcpView::of(&frame[34..54]);
    assert_eq!(rt;
        (tcp.sport(), tcp.dport(), tcp.stored()),
        (0x9c40, 80, 0x47da)
    );
    assert_eq!(rt; transport_ok(&frame), None);
}

#[test]
fn fields(rt: HostRuntime) {
    let tcp = TcpView::of(&CUT[34..54]);
    assert_eq!(rt; (tcp.sport(), tcp.dport()), (1000, 80));
    assert_eq!(rt; (tcp.seq(), tcp.ack()), (1, 0));
    assert_eq!(rt;
        (tcp.flags(), tcp.window(), tcp.stored()),
        (0x10, 0xffff, 0x1234)
    );
    let udp = UdpView::of(&PING[34..42]);
    assert_eq!(rt; (udp.sport(), udp.dport()), (1000, 53));
    assert_eq!(rt; (udp.length(), udp.stored()), (12, 0x06e4));
}

/// Whether a frame has ports, where it has IPv4.
fn has_ports(frame: &[u8]) -> Option<bool> {
    let tuple = Tuple::read(frame)?;
    Some(tuple.ports.is_some())
}

#[test]
fn layers_of_udp_frames(rt: HostRuntime) {
    assert_eq!(rt; has_ports(&PING[..0]), None);
    assert_eq!(rt; has_ports(&PING[..13]), None);
    // The place and the value of the byte that is changed: IHL 4, IHL 15, version 6, total length 19, fragment offset 1, more
    // fragments, UDP length 7, UDP length 8.
    let rows = [
        (14, 0x44, None),
        (14, 0x4f, None),
        (14, 0x65, None),
        (17, 19, None),
        (21, 1, Some(false)),
        (20, 0x20, Some(false)),
        (39, 7, Some(false)),
        (39, 8, Some(true)),
    ];
    for (place, value, want) in rows {
        assert!(rt; place < 46);
        let mut frame = PING;
        frame[place] = value;
        assert_eq!(rt; has_ports(&frame), want, "{value} at {place}");
    }
}

#[test]
fn layers_of_tcp_frames(rt: HostRuntime) {
    // The data offset, how many bytes are captured, and whether there are ports: offset 4, offset 15 with 20 payload bytes.
    let rows = [
        (0x50, 54, Some(true)),
        (0x50, 53, Some(false)),
        (0x40, 54, Some(false)),
        (0xf0, 54, Some(false)),
    ];
    for (offset, length, want) in rows {
        assert!(rt; length <= 64);
        let mut frame = CUT;
        frame[46] = offset;
        assert_eq!(rt; has_ports(&frame[..length]), want, "{offset} of {length}");
    }
}

/// The length of a layer's header, through the bound.
fn length_of<P: Proto>(outer: &[u8], rest: &[u8]) -> Option<usize> {
    P::length(outer, rest)
}

#[test]
fn lengths(rt: HostRuntime) {
    assert_eq!(rt; length_of::<Tcp>(&CUT[14..34], &CUT[34..]), Some(20));
    assert_eq!(rt; length_of::<Udp>(&CUT[14..34], &CUT[34..]), None);
    assert_eq!(rt; length_of::<Udp>(&PING[14..34], &PING[34..]), Some(8));
    // A UDP length of 12, and how many bytes are there.
    assert_eq!(rt; Udp::extent(&PING[34..42], 20), 12);
    assert_eq!(rt; Udp::extent(&PING[34..42], 10), 10);
    assert_eq!(rt; Tcp::extent(&CUT[34..54], 30), 30);
}

#[test]
fn checksums(rt: HostRuntime) {
    // The place and the value of the byte that is changed: nothing, a payload byte, UDP length 13, total length 33.
    let rows = [
        (45, 0x67, Some(true)),
        (45, 0x68, Some(false)),
        (39, 13, None),
        (17, 33, None),
    ];
    for (place, value, want) in rows {
        assert!(rt; place < 46);
        let mut frame = PING;
        frame[place] = value;
        assert_eq!(rt; transport_ok(&frame), want, "{value} at {place}");
    }
    let mut frame = PING;
    frame[40] = 0;
    frame[41] = 0;
    assert_eq!(rt; transport_ok(&frame), None);
    transport_edits_keep_right();
}

#[test]
fn udp_edits(rt: HostRuntime) {
    // The stored checksum and the one after the source port 1000 has become 2764: a result of 0 stands as ffff, and 0 stays 0.
    for (stored, want) in [([0x06, 0xe4], 0xffff), ([0, 0], 0)] {
        let mut frame = PING;
        frame[40] = stored[0];
        frame[41] = stored[1];
        let mut udp = UdpMut::of(&mut frame[34..42]);
        udp.set_sport(2764);
        assert_eq!(rt; (udp.sport(), udp.stored()), (2764, want));
        udp.set_dport(53);
        udp.address_changed(0x0a00_0001, 0x0a00_0001);
        assert_eq!(rt; udp.stored(), want);
    }
}

/// A match without a key.
const ANY: Match = Match {
    proto: None,
    src: None,
    dst: None,
    sport: None,
    dport: None,
    port: None,
};

/// A match with one of the ports.
fn of_port(sport: Option<u16>, dport: Option<u16>, port: Option<u16>) -> Match {
    Match {
        sport,
        dport,
        port,
        ..ANY
    }
}

/// A match with a protocol or with prefixes.
fn of_ends(proto: Option<u8>, src: Option<Prefix>, dst: Option<Prefix>) -> Match {
    Match {
        proto,
        src,
        dst,
        ..ANY
    }
}

#[test]
fn matches(rt: HostRuntime) -> Result<(), Fail> {
    let ping = Tuple::read(&PING);
    assert!(rt; ANY.meets(&ping));
    assert!(rt; ANY.meets(&None));
    let inside = Prefix::new(0x0a00_0000, 16).ok_or("a prefix")?;
    // 10.0.0.0/16 has the source and not the destination; port 53 is the destination's.
    let rows = [
        (of_ends(Some(17), None, None), true),
        (of_ends(Some(6), None, None), false),
        (of_ends(None, Some(inside), None), true),
        (of_ends(None, None, Some(inside)), false),
        (of_port(Some(53), None, None), false),
        (of_port(None, Some(53), None), true),
        (of_port(None, None, Some(53)), true),
        (of_port(None, None, Some(54)), false),
    ];
    for (wanted, want) in rows {
        assert_eq!(rt; wanted.meets(&ping), want);
        assert!(rt; !wanted.meets(&None));
    }
    Ok(())
}

#[test]
fn a_tuple_without_ports_has_no_port_0(rt: HostRuntime) {
    let portless = Tuple {
        proto: 1,
        src: 0,
        dst: 0,
        ports: None,
    };
    assert!(rt; !of_port(None, None, Some(0)).meets(&Some(portless)));
}
