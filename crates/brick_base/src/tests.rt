use crate::{Name, Numbers, Prefix, Proto, Raw, adjust, checksum, fnv1a};
use std::test::Fail;

#[test]
fn checksums_and_hashes(rt: HostRuntime) {
    // the last two are the example of RFC 1071, section 3, and an IPv4 header with its checksum
    let example = [0x00, 0x01, 0xf2, 0x03, 0xf4, 0xf5, 0xf6, 0xf7];
    let header = [
        0x45, 0x00, 0x00, 0x73, 0x00, 0x00, 0x40, 0x00, 0x40, 0x11, 0xb8, 0x61, 0xc0, 0xa8, 0x00,
        0x01, 0xc0, 0xa8, 0x00, 0xc7,
    ];
    let sums: [(&[u8], u16); 5] = [
        (b"", 0xffff),
        (&[1], 0xfeff),
        (&[0xff, 0xff], 0),
        (&example, 0x220d),
        (&header, 0),
    ];
    for (bytes, want) in sums {
        assert_eq!(rt; checksum(bytes), want);
    }
    assert_eq!(rt; adjust(0xffff, 0xffff, 0), 0xffff);

    let hashes: [(&[u8], u64); 3] = [
        (b"", 0xcbf2_9ce4_8422_2325),
        (b"a", 0xaf63_dc4c_8601_ec8c),
        (b"foobar", 0x8594_4171_f739_67e8),
    ];
    for (bytes, want) in hashes {
        assert_eq!(rt; fnv1a(bytes), want);
    }
}

#[test]
fn names_and_numbers(rt: HostRuntime) -> Result<(), Fail> {
    assert_eq!(rt; Name::new(rt.alloc(), "a")?.as_str(), "a");

    let numbers = Numbers::of([3, 1].to_vec(rt.alloc())?);
    assert_eq!(rt; numbers.as_slice(), [3, 1].as_slice());
    assert_eq!(rt; numbers.into_vec().as_slice(), [3, 1].as_slice());
    Ok(())
}

#[test]
fn prefixes(rt: HostRuntime) -> Result<(), Fail> {
    // 10.1.0.0/16 and 0.0.0.0/0
    let private = Prefix::new(0x0a01_0000, 16).ok_or("a prefix")?;
    assert!(rt; private.contains(0x0a01_0203));
    assert!(rt; !private.contains(0x0a02_0000));
    let all = Prefix::new(0, 0).ok_or("a prefix")?;
    assert!(rt; all.contains(0xffff_ffff));
    assert_eq!(rt; Prefix::new(0x0a01_0200, 16), None);
    assert_eq!(rt; Prefix::new(0, 33), None);
    Ok(())
}

/// The header's length and the payload's end of a layer that is at the front.
fn ends<P: Proto>(frame: &[u8]) -> (Option<usize>, usize) {
    (P::length(&[], frame), P::extent(&[], frame.len()))
}

#[test]
fn a_frame_has_no_header(rt: HostRuntime) {
    assert_eq!(rt; ends::<Raw>(b"abc"), (Some(0), 3));
}
