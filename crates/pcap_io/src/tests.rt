use crate::{Capture, CaptureFault, Frame, Item, Items, ItemsBuilder, LentItem, Writer};
use std::alloc::{AllocError, Global};
use std::process::Abort;
use std::test::Fail;

/// Little-endian, microseconds, version 2.4, snapshot length 262,144, link type 1.
const FILE_HEADER: [u8; 24] = [
    0xd4, 0xc3, 0xb2, 0xa1, 2, 0, 4, 0, 0, 0, 0, 0, 0, 0, 0, 0, 0, 0, 4, 0, 1, 0, 0, 0,
];

/// The same with nanoseconds.
const NANO_HEADER: [u8; 24] = [
    0x4d, 0x3c, 0xb2, 0xa1, 2, 0, 4, 0, 0, 0, 0, 0, 0, 0, 0, 0, 0, 0, 4, 0, 1, 0, 0, 0,
];

/// Both in big-endian order, with a snapshot length of 65,535.
const BIG_HEADER: [u8; 24] = [
    0xa1, 0xb2, 0xc3, 0xd4, 0, 2, 0, 4, 0, 0, 0, 0, 0, 0, 0, 0, 0, 0, 0xff, 0xff, 0, 0, 0, 1,
];

const BIG_NANO_HEADER: [u8; 24] = [
    0xa1, 0xb2, 0x3c, 0x4d, 0, 2, 0, 4, 0, 0, 0, 0, 0, 0, 0, 0, 0, 0, 0xff, 0xff, 0, 0, 0, 1,
];

/// Second 1, fraction 2, 46 bytes captured of 46.
const RECORD_HEAD: [u8; 16] = [1, 0, 0, 0, 2, 0, 0, 0, 46, 0, 0, 0, 46, 0, 0, 0];

const BIG_RECORD_HEAD: [u8; 16] = [0, 0, 0, 1, 0, 0, 0, 2, 0, 0, 0, 46, 0, 0, 0, 46];

/// 262,145 bytes captured.
const LONG_RECORD_HEAD: [u8; 16] = [1, 0, 0, 0, 2, 0, 0, 0, 1, 0, 4, 0, 1, 0, 4, 0];

/// A UDP datagram of 4 bytes from 10.0.0.1:1000 to 10.1.2.3:53.
const FRAME: [u8; 46] = [
    2, 0, 0, 0, 0, 1, 2, 0, 0, 0, 0, 2, 8, 0, 0x45, 0, 0, 0x20, 0, 0, 0x40, 0, 0x40, 0x11, 0x24,
    0xc9, 10, 0, 0, 1, 10, 1, 2, 3, 3, 0xe8, 0, 53, 0, 12, 0x06, 0xe4, 0x70, 0x69, 0x6e, 0x67,
];

fn joined(alloc: Global, parts: &[&[u8]]) -> Result<Vec<u8>, AllocError> {
    let mut bytes = Vec::new(alloc);
    for part in parts {
        bytes.extend_from_slice(part)?;
    }
    Ok(bytes)
}

fn read(rt: &impl Abort, alloc: Global, bytes: Vec<u8>) -> Result<Capture, CaptureFault> {
    assert!(rt; bytes.len() <= 33_554_432);
    Capture::read(alloc, bytes)
}

/// How many records are read of a file header, a record's numbers and its frame.
fn count(
    rt: &impl Abort,
    alloc: Global,
    header: &[u8],
    head: &[u8],
    frame: &[u8],
) -> Result<u32, CaptureFault> {
    let Ok(bytes) = joined(alloc, &[header, head, frame]) else {
        return Err(CaptureFault::NoMemory);
    };
    Ok(read(rt, alloc, bytes)?.count())
}

/// A file header with one byte changed.
fn edited(mut header: [u8; 24], at: usize, byte: u8) -> [u8; 24] {
    if let Some(place) = header.get_mut(at) {
        *place = byte;
    }
    header
}

/// A file header, a record header, and how many records a capture of both has.
type Row<'a> = (&'a [u8], &'a [u8], Result<u32, CaptureFault>);

/// Each capture has so many records, or this fault.
fn counts_are(rt: &impl Abort, alloc: Global, table: &[Row<'_>]) -> Result<(), Fail> {
    for (header, head, want) in table {
        let frame: &[u8] = if head.len() == 0 { &[] } else { &FRAME };
        assert_eq!(rt; count(rt, alloc, header, head, frame), *want, "{header:?}");
    }
    Ok(())
}

#[test]
fn good_headers(rt: HostRuntime) -> Result<(), Fail> {
    let table: [Row<'_>; 3] = [
        (&FILE_HEADER, &[], Ok(0)),
        (&BIG_HEADER, &BIG_RECORD_HEAD, Ok(1)),
        (&BIG_NANO_HEADER, &BIG_RECORD_HEAD, Ok(1)),
    ];
    counts_are(&rt, rt.alloc(), &table)
}

#[test]
fn first_faults(rt: HostRuntime) -> Result<(), Fail> {
    let other_magic = edited(FILE_HEADER, 0, 0xd5);
    let other_link = edited(FILE_HEADER, 20, 2);
    let other_version = edited(FILE_HEADER, 6, 3);
    let big_other_version = edited(BIG_HEADER, 4, 7);
    let both = edited(other_version, 20, 2);
    let magic = CaptureFault::Magic { word: 0xd5c3_b2a1 };
    let version = CaptureFault::Version { major: 2, minor: 3 };
    let big_version = CaptureFault::Version {
        major: 1794,
        minor: 4,
    };
    let link = CaptureFault::Link { word: 2 };
    let long = CaptureFault::LongRecord {
        number: 0,
        len: 262_145,
    };
    let table: [Row<'_>; 7] = [
        (&[], &[], Err(CaptureFault::ShortHeader { len: 0 })),
        (&other_magic, &RECORD_HEAD, Err(magic)),
        (&other_version, &RECORD_HEAD, Err(version)),
        (&big_other_version, &RECORD_HEAD, Err(big_version)),
        (&both, &RECORD_HEAD, Err(version)),
        (&other_link, &RECORD_HEAD, Err(link)),
        (&FILE_HEADER, &LONG_RECORD_HEAD, Err(long)),
    ];
    counts_are(&rt, rt.alloc(), &table)
}

#[test]
fn every_prefix(rt: HostRuntime) -> Result<(), Fail> {
    let record = [RECORD_HEAD.as_slice(), FRAME.as_slice()];
    let parts = [
        FILE_HEADER.as_slice(),
        record[0],
        record[1],
        record[0],
        record[1],
        record[0],
        record[1],
    ];
    for len in 0..211u32 {
        let mut bytes = joined(rt.alloc(), &parts)?;
        assert_eq!(rt; bytes.len(), 210);
        bytes.truncate(len as usize);
        let want = match len {
            0..24 => Err(CaptureFault::ShortHeader { len }),
            24 => Ok(0),
            25..86 => Err(CaptureFault::CutRecord { number: 0, at: 24 }),
            86 => Ok(1),
            87..148 => Err(CaptureFault::CutRecord { number: 1, at: 86 }),
            148 => Ok(2),
            149..210 => Err(CaptureFault::CutRecord { number: 2, at: 148 }),
            _ => Ok(3),
        };
        let found = match read(&rt, rt.alloc(), bytes) {
            Ok(capture) => Ok(capture.count()),
            Err(fault) => Err(fault),
        };
        assert_eq!(rt; found, want, "{len} bytes");
    }
    Ok(())
}

/// What the writer writes of the first record of a capture.
fn rewritten(rt: &impl Abort, alloc: Global, capture: &Capture) -> Result<Vec<u8>, Fail> {
    assert!(rt; 0 < capture.count());
    let entry = capture.entry(0);
    let item = Item {
        a: 0,
        j: 0,
        seconds: entry.seconds,
        fraction: entry.fraction,
        original: entry.original,
        frame: Frame::of(entry.frame.to_vec(alloc)?),
    };
    let mut writer = Writer::new(alloc, capture.nano())?;
    assert!(rt; item.frame.as_slice().len() <= 262_144);
    writer.append(&item)?;
    Ok(writer.into_bytes())
}

#[test]
fn foreign_captures(rt: HostRuntime) -> Result<(), Fail> {
    let alloc = rt.alloc();
    for (foreign, header) in [(BIG_HEADER, FILE_HEADER), (BIG_NANO_HEADER, NANO_HEADER)] {
        let bytes = joined(alloc, &[foreign.as_slice(), &BIG_RECORD_HEAD, &FRAME])?;
        let capture = read(&rt, alloc, bytes)?;
        let want = joined(alloc, &[header.as_slice(), &RECORD_HEAD, &FRAME])?;
        assert_eq!(rt;
            rewritten(&rt, alloc, &capture)?.as_slice(),
            want.as_slice()
        );
    }
    Ok(())
}

#[test]
fn an_entry(rt: HostRuntime) -> Result<(), Fail> {
    let bytes = joined(rt.alloc(), &[&FILE_HEADER, &RECORD_HEAD, &FRAME])?;
    let capture = read(&rt, rt.alloc(), bytes)?;
    assert_eq!(rt; capture.count(), 1);
    assert!(rt; !capture.nano());
    let entry = capture.entry(0);
    assert_eq!(rt; (entry.seconds, entry.fraction, entry.original), (1, 2, 46));
    assert_eq!(rt; entry.frame, FRAME.as_slice());
    Ok(())
}

#[test]
fn writes(rt: HostRuntime) -> Result<(), Fail> {
    let item = Item {
        a: 0,
        j: 0,
        seconds: 1,
        fraction: 2,
        original: 46,
        frame: Frame::of(FRAME.as_slice().to_vec(rt.alloc())?),
    };
    assert_eq!(rt; item.frame.as_slice(), FRAME.as_slice());

    let mut writer = Writer::new(rt.alloc(), false)?;
    assert!(rt; item.frame.as_slice().len() <= 262_144);
    writer.append(&item)?;
    let want = joined(rt.alloc(), &[&FILE_HEADER, &RECORD_HEAD, &FRAME])?;
    assert_eq!(rt; writer.into_bytes().as_slice(), want.as_slice());
    assert_eq!(rt;
        Writer::new(rt.alloc(), false)?.into_bytes().as_slice(),
        FILE_HEADER.as_slice()
    );

    let mut list = Vec::new(rt.alloc());
    list.push(item)?;
    let items = Items::of(list);
    assert_eq!(rt; items.as_slice().len(), 1);
    assert_eq!(rt; items.into_vec().len(), 1);
    Ok(())
}

/// An item of this key, with this frame.
fn lent(a: u64, frame: &[u8]) -> LentItem<'_> {
    LentItem {
        a,
        j: 0,
        seconds: 1,
        fraction: 2,
        original: 60,
        frame,
    }
}

/// The items have these keys and these frames.
fn items_are(rt: &impl Abort, items: &[Item], rows: &[(u64, &[u8])]) {
    assert_eq!(rt; items.len(), rows.len());
    for (item, (a, frame)) in items.iter().zip(rows) {
        assert_eq!(rt; item.a, *a);
        assert_eq!(rt; (item.seconds, item.fraction, item.original), (1, 2, 60));
        assert_eq!(rt; item.frame.as_slice(), *frame);
    }
}

#[test]
fn frames_of_one_list(rt: HostRuntime) -> Result<(), Fail> {
    let alloc = rt.alloc();
    let none: &[u8] = &[];
    let one: &[u8] = &[5];
    let long = [7; 60];
    let long = long.as_slice();

    let mut builder = ItemsBuilder::new(alloc);
    for (a, frame) in [(2, none), (0, long), (3, one), (1, none)] {
        builder.push(lent(a, frame))?;
    }
    let text = format!(in alloc; "{builder:?}")?;
    assert_eq!(rt; text.as_str(), "ItemsBuilder { count: 4, .. }");
    let mut items = builder.into_items(alloc)?;
    items_are(&rt, &items, &[(2, none), (0, long), (3, one), (1, none)]);
    items.sort_by_key(|item| (item.a, item.j))?;
    items_are(&rt, &items, &[(0, long), (1, none), (2, none), (3, one)]);

    // the last frame keeps the memory of all
    let Some(last) = items.pop() else {
        return Err(Fail::from("no item"));
    };
    items.clear();
    let copy = last.lend().to_item(alloc)?;
    for item in [last, copy] {
        let text = format!(in alloc; "{:?}", item.frame)?;
        assert_eq!(rt; text.as_str(), "Frame { bytes: [5] }");
    }
    Ok(())
}
