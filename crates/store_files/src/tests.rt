use crate::{Content, ReadFault, Text, read_whole, write_texts};
use pcap_io::{Frame, Item};
use std::alloc::Global;
use std::process::Abort;
use std::test::Fail;
use store_io::{IoFault, MemStore};

/// The file header of a capture, little-endian with microseconds, and the head of a record with seconds 1, fraction 2 and 4 bytes
/// of 60.
const FRONT: [u8; 40] = [
    0xd4, 0xc3, 0xb2, 0xa1, 2, 0, 4, 0, 0, 0, 0, 0, 0, 0, 0, 0, 0, 0, 4, 0, 1, 0, 0, 0, 1, 0, 0, 0,
    2, 0, 0, 0, 4, 0, 0, 0, 60, 0, 0, 0,
];

/// A list of these items, each of zeros.
fn items(alloc: Global, count: u32, len: usize) -> Result<Vec<Item>, Fail> {
    let mut items = Vec::new(alloc);
    for a in 0..count {
        items.push(Item {
            a: u64::from(a),
            j: 0,
            seconds: 1,
            fraction: 2,
            original: 60,
            frame: Frame::of(vec![in alloc; 0u8; len]?),
        })?;
    }
    Ok(items)
}

/// Writes the capture of the items and then a text, where a call of the store fails. These are the answer, how long the first file is,
/// and whether there is a second.
fn written(
    alloc: Global,
    items: &[Item],
    fails: Vec<u32>,
) -> Result<(Result<(), IoFault>, Option<usize>, bool), Fail> {
    let mut store = MemStore::new(alloc, Vec::new(alloc), fails)?;
    let texts = vec![in alloc;
        Text {
            name: String::from_str(alloc, "one")?,
            content: Content::Capture { nano: false, items },
        },
        Text {
            name: String::from_str(alloc, "two")?,
            content: Content::Bytes(b"2\n"),
        },
    ]?;
    let answer = write_texts(alloc, &mut store, 2, &texts);
    let length = store.file("one").map(|bytes| bytes.len());
    Ok((answer, length, store.file("two").is_some()))
}

#[test]
fn a_capture_and_a_text(rt: HostRuntime) -> Result<(), Fail> {
    let alloc = rt.alloc();
    let items = items(alloc, 1, 4)?;
    let texts = vec![in alloc;
        Text {
            name: String::from_str(alloc, "one")?,
            content: Content::Capture {
                nano: false,
                items: &items
            },
        },
        Text {
            name: String::from_str(alloc, "two")?,
            content: Content::Bytes(&[]),
        },
    ]?;
    let mut store = MemStore::new(alloc, Vec::new(alloc), Vec::new(alloc))?;
    assert_eq!(rt; write_texts(alloc, &mut store, 2, &texts), Ok(()));
    let mut capture = FRONT.to_vec(alloc)?;
    capture.extend_from_slice(&[0; 4])?;
    assert!(rt; store.file("one") == Some(capture.as_slice()));
    assert!(rt; store.file("two") == Some(&[]));
    Ok(())
}

/// 17 frames of 65,600 bytes give 1,115,496 bytes: a piece of 1,048,576, and one of 66,920.
#[test]
fn long_captures_are_appended_in_pieces(rt: HostRuntime) -> Result<(), Fail> {
    let alloc = rt.alloc();
    let items = items(alloc, 17, 65_600)?;
    let table = [
        (0u32, None, false),
        (1, Some(524_288), false),
        (2, Some(1_082_036), false),
        (3, Some(1_115_496), false),
        (4, Some(1_115_496), true),
    ];
    for (call, length, second) in table {
        let (answer, len, there) = written(alloc, &items, vec![in alloc; call]?)?;
        assert_eq!(rt; answer, Err(IoFault::Failed));
        assert_eq!(rt; len, length);
        assert_eq!(rt; there, second);
    }
    let (answer, _, _) = written(alloc, &items, vec![in alloc; 5]?)?;
    assert_eq!(rt; answer, Ok(()));
    Ok(())
}

#[test]
fn files_that_are_read_to_a_limit(rt: HostRuntime) -> Result<(), Fail> {
    let alloc = rt.alloc();
    let mut files = Vec::new(alloc);
    files.push((String::from_str(alloc, "one")?, b"123".to_vec(alloc)?))?;
    let mut store = MemStore::new(alloc, files, Vec::new(alloc))?;
    assert!(rt; read_whole(alloc, &mut store, 1, "one", 3) == Ok(b"123".to_vec(alloc)?));
    assert!(rt; read_whole(alloc, &mut store, 1, "one", 2) == Err(ReadFault::TooLong));
    assert!(rt; read_whole(alloc, &mut store, 1, "two", 3) == Err(ReadFault::Failed));
    Ok(())
}
