//! What Books and outputs have to be.
use lane_core::Book;
use pcap_io::{Item, Items};
use std::process::Abort;

/// The numbers of one worker are those that it received, in order, and rise. Answers how many there are.
fn is_received(rt: &impl Abort, sent: &[(u32, u32)], received: &[(u32, u32)]) -> usize {
    assert!(rt; sent == received);
    let mut next = 0;
    for (_, number) in sent {
        assert!(rt; *number >= next);
        next = number.wrapping_add(1);
    }
    sent.len()
}

/// The Book is whole: each of so many buffers is home once, and so many workers received what was sent to them, in all
/// so many records.
pub fn is_whole(rt: &impl Abort, book: &Book, buffers: u32, workers: usize, records: usize) {
    assert_eq!(rt; book.buffers, buffers);
    let home = book.home.as_slice();
    assert_eq!(rt; home.len(), buffers as usize);
    for slot in 0..buffers {
        assert!(rt; home.contains(&slot), "slot {slot}");
    }
    assert_eq!(rt; (book.sent.len(), book.received.len()), (workers, workers));
    let mut count = 0usize;
    for (sent, received) in book.sent.iter().zip(&book.received) {
        count = count.wrapping_add(is_received(rt, sent.as_slice(), received.as_slice()));
    }
    assert_eq!(rt; count, records);
}

/// The item has this key and these bytes.
pub fn is_item(rt: &impl Abort, item: &Item, a: u64, j: u32, frame: &[u8]) {
    assert_eq!(rt; (item.a, item.j), (a, j));
    assert!(rt; item.frame.as_slice() == frame, "({a}, {j})");
}

/// The items are the same.
fn are_same(rt: &impl Abort, got: &[Item], wanted: &[Item]) {
    assert_eq!(rt; got.len(), wanted.len());
    for (item, other) in got.iter().zip(wanted) {
        is_item(rt, item, other.a, other.j, other.frame.as_slice());
        assert_eq!(rt;
            (item.seconds, item.fraction, item.original),
            (other.seconds, other.fraction, other.original)
        );
    }
}

/// The outputs are the same, and so many.
pub fn are_same_outputs(rt: &impl Abort, got: &[Items], wanted: &[Items], count: usize) {
    assert_eq!(rt; (got.len(), wanted.len()), (count, count));
    for (items, others) in got.iter().zip(wanted) {
        are_same(rt, items.as_slice(), others.as_slice());
    }
}
