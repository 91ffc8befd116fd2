ghost use Rattle.std.specs.Prelude.{◌≡◌, ◌-◌, ◌%◌, ◌≤◌, length};
ghost use Rattle.brick_spec.specs.Edit.{ttl_of, with_ttl};

use crate::{Eth, EthMut, EthView, Ip4, Ip4Mut, Ip4View, edits_keep_right};
use brick_base::Proto;
use test_frames::{CUT, PING};

/// An IPv4 header of 20 bytes.
const HEADER: [u8; 20] = [
    0x45, 0x00, 0x00, 0x73, 0x00, 0x00, 0x40, 0x00, 0x40, 0x11, 0xb8, 0x61, 0xc0, 0xa8, 0x00, 0x01,
    0xc0, 0xa8, 0x00, 0xc7,
];

/// Sets the time to live to one less, through a view.
fn lower_ttl(header: &mut [u8])
    requires long { 20 ≤ length header.old }
    requires even { length header.old % 2 ≡ 0 }
    requires live { 1 ≤ ttl_of header.old }
    ensures { header.new ≡ with_ttl header.old (ttl_of header.old - 1) }
{
    let mut ip4 = Ip4Mut::of(header);
    let ttl = ip4.ttl();
    ip4.set_ttl(ttl - 1);
}

#[test]
fn ttl_edits(rt: HostRuntime) {
    for (stored, want) in [([0xb8, 0x61], [0xb9, 0x61]), ([0xff, 0x61], [0x00, 0x62])] {
        let mut header = HEADER;
        header[10] = stored[0];
        header[11] = stored[1];
        let mut expected = HEADER;
        expected[8] = 0x3f;
        expected[10] = want[0];
        expected[11] = want[1];

        let mut ip4 = Ip4Mut::of(&mut header);
        assert_eq!(rt; ip4.ttl(), 0x40);
        assert_eq!(rt; ip4.protocol(), 17);
        ip4.set_ttl(0x3f);
        assert_eq!(rt; header, expected);

        let view = Ip4View::of(&header);
        assert_eq!(rt; view.ttl(), 0x3f);
        assert_eq!(rt; view.protocol(), 17);
    }
    let mut header = HEADER;
    assert!(rt; header[8] == 0x40);
    lower_ttl(&mut header);
    assert_eq!(rt; header[8], 0x3f);
}

/// The length of a layer's header, through the bound.
fn length_of<P: Proto>(outer: &[u8], rest: &[u8]) -> Option<usize> {
    P::length(outer, rest)
}

#[test]
fn lengths(rt: HostRuntime) {
    assert_eq!(rt; length_of::<Eth>(&[], &PING[..13]), None);
    assert_eq!(rt; length_of::<Eth>(&[], &PING[..14]), Some(14));
    // The place and the value of the byte that is changed: IHL 4, version 6, IHL 15, total length 19, type 0806.
    let rows = [
        (14, 0x45, Some(20)),
        (14, 0x44, None),
        (14, 0x65, None),
        (14, 0x4f, None),
        (17, 19, None),
        (17, 20, Some(20)),
        (13, 0x06, None),
    ];
    for (place, value, want) in rows {
        assert!(rt; place < 46);
        let mut frame = PING;
        frame[place] = value;
        let length = length_of::<Ip4>(&frame[..14], &frame[14..]);
        assert_eq!(rt; length, want, "{value} at {place}");
    }
    assert_eq!(rt; length_of::<Ip4>(&PING[..14], &PING[14..33]), None);
}

#[test]
fn extents(rt: HostRuntime) {
    assert_eq!(rt; Eth::extent(&PING[..14], 46), 46);
    // The total length, how many bytes are there, and where the payload ends.
    let rows = [(32, 32, 32), (40, 46, 40), (32, 26, 26), (19, 32, 20)];
    for (total, room, want) in rows {
        assert!(rt; 20 <= room);
        let mut header = HEADER;
        header[3] = total;
        assert_eq!(rt; Ip4::extent(&header, room), want);
    }
}

#[test]
fn ethernet_fields(rt: HostRuntime) {
    let mut header = [2, 0, 0, 0, 0, 1, 2, 0, 0, 0, 0, 2, 8, 0];
    let view = EthView::of(&header);
    assert_eq!(rt; view.dst(), [2, 0, 0, 0, 0, 1]);
    assert_eq!(rt; view.src(), [2, 0, 0, 0, 0, 2]);
    assert_eq!(rt; view.kind(), 0x0800);

    let mut ethernet = EthMut::of(&mut header);
    ethernet.set_dst([2, 0, 0, 0, 0, 3]);
    ethernet.set_src([2, 0, 0, 0, 0, 4]);
    assert_eq!(rt; header, [2, 0, 0, 0, 0, 3, 2, 0, 0, 0, 0, 4, 8, 0]);
}

#[test]
fn internet_fields(rt: HostRuntime) {
    let view = Ip4View::of(&HEADER);
    assert_eq!(rt; (view.tos(), view.total(), view.ident()), (0, 0x73, 0));
    assert_eq!(rt; (view.more_fragments(), view.fragment_offset()), (false, 0));
    assert_eq!(rt; (view.src(), view.dst()), (0xc0a8_0001, 0xc0a8_00c7));
    assert_eq!(rt; (view.stored(), view.header_ok()), (0xb861, true));

    let mut header = HEADER;
    header[6] = 0x20;
    header[7] = 0x01;
    let fragment = Ip4View::of(&header);
    assert_eq!(rt;
        (fragment.more_fragments(), fragment.fragment_offset()),
        (true, 1)
    );
    assert!(rt; !fragment.header_ok());
}

#[test]
fn address_edits(rt: HostRuntime) {
    // The cut frame, translated to 203.0.113.1.
    let mut frame = CUT;
    let mut ip4 = Ip4Mut::of(&mut frame[14..34]);
    ip4.set_src(0xcb00_7101);
    assert_eq!(rt; (ip4.src(), ip4.stored()), (0xcb00_7101, 0xcee4));
}

#[test]
fn other_edits(rt: HostRuntime) {
    // A word that grows by n takes n from a checksum that has as much.
    let mut header = HEADER;
    let mut ip4 = Ip4Mut::of(&mut header);
    ip4.set_tos(0x10);
    assert_eq!(rt; (ip4.tos(), ip4.stored()), (0x10, 0xb851));
    ip4.set_dst(0xc0a8_00c8);
    assert_eq!(rt; (ip4.dst(), ip4.stored()), (0xc0a8_00c8, 0xb850));
    ip4.set_total(0x74);
    assert_eq!(rt; (ip4.total(), ip4.stored()), (0x74, 0xb84f));
    assert!(rt; ip4.header_ok());
    edits_keep_right();
}
