ghost use Rattle.std.specs.Prelude.{◌≡◌, ◌≤◌, ◌∷◌, [], ◌++◌, ℕ, Bool, List, length, IfOk, OnOk, OnErr};
ghost use Rattle.brick_spec.specs.Bytes.{Little, four_bytes};
ghost use Rattle.brick_spec.specs.Capture.{header_text, record_text};
ghost use Rattle.brick_spec.specs.Item as spec;
ghost use Rattle.brick_spec.specs.Item.{entry_of, items_text};
ghost use Rattle.pcap_io.specs.View.{item_view, lent_view};

use crate::header::{HEADER, magic_number};
use crate::record::{HEAD, LONGEST};
use crate::{Item, LentItem};
use brick_base::NoMemory;
use byteorder::{ByteOrder, LittleEndian};
use std::alloc::Global;
use std::fmt;
use std::marker::Model;

/// The text of a capture, as it grows: little-endian, version 2.4, zone 0, accuracy 0, snapshot length 262,144, link
/// type 1.
#[derive(Drop)]
pub struct Writer {
    bytes: Vec<u8>,
}

impl Model for Writer {
    ghost use Rattle.std.specs.Prelude.{List, ℕ};

    ghost Value = { List ℕ };

    ghost view = { λ w. w.bytes.items };
}

/// The number of bytes so far, and not the bytes.
impl fmt::Debug for Writer {
    fn fmt<W: fmt::Write>(&self, f: &mut fmt::Formatter<W>) -> fmt::Result {
        f.debug_struct("Writer")
            .field("len", &self.bytes.len())
            .finish_non_exhaustive()
    }
}

/// The file header of a capture that is written, whose fractions are nanoseconds or else microseconds.
#[tactic(auto, unfolding(brick_spec::specs::Bytes::two_bytes, brick_spec::specs::Bytes::four_bytes, brick_spec::specs::Capture::header_text))]
pub fn file_header(nano: bool) -> [u8; 24]
    ensures { result ≡ header_text nano }
{
    let mut header = [0; HEADER];
    LittleEndian::write_u32(&mut header, magic_number(nano));
    LittleEndian::write_u16_into(&[2, 4], &mut header[4..8]);
    LittleEndian::write_u32_into(&[0, 0, LONGEST, 1], &mut header[8..]);
    header
}

/// The lowest 32 bits of the length.
fn low_length(bytes: &[u8]) -> u32
    ensures { four_bytes Little result ≡ four_bytes Little (length bytes.now) }
{
    (bytes.len() % 4_294_967_296) as u32
}

/// The four numbers of the record of an item whose frame is lent, as `record_head`.
#[tactic(auto, unfolding(brick_spec::specs::Bytes::four_bytes))]
fn lent_head(item: LentItem<'_>) -> [u8; 16]
    ensures { result ≡ four_bytes Little item.entry.seconds
        ++ (four_bytes Little item.entry.fraction
        ++ (four_bytes Little (length item.entry.frame.now) ++ four_bytes Little item.entry.original)) }
{
    let captured = low_length(item.frame);
    let numbers = [item.seconds, item.fraction, captured, item.original];
    let mut head = [0; HEAD];
    LittleEndian::write_u32_into(&numbers, &mut head);
    head
}

/// The four numbers of an item's record, which stand in front of its frame, little-endian. Of the captured length the
/// lowest 32 bits are told, which is all of it up to 4,294,967,295 bytes.
pub fn record_head(item: &Item) -> [u8; 16]
    ensures { result ≡ four_bytes Little item.now.seconds
        ++ (four_bytes Little item.now.fraction
        ++ (four_bytes Little (length item.now.frame) ++ four_bytes Little item.now.original)) }
{
    lent_head(item.lend())
}

impl Writer {
    /// A capture with no record, whose fractions are nanoseconds or else microseconds.
    pub fn new(alloc: Global, nano: bool) -> Result<Writer, NoMemory>
        ensures { IfOk result (λ w. w ≡ items_text nano []) }
    {
        let bytes = Vec::from_array(alloc, file_header(nano))?;
        Ok(Writer { bytes })
    }

    /// Puts the item behind the others, as a record. Where memory runs out nothing is put.
    pub fn append(&mut self, item: &Item) -> Result<(), NoMemory>
        requires { length item.now.frame ≤ 262144 }
        ensures ok { OnOk result (self.new ≡ self.old ++ record_text Little (entry_of (item_view item.now))) }
        ensures text { OnOk result ((nano : Bool) (items : List spec.Item) → self.old ≡ items_text nano items
            → self.new ≡ items_text nano (items ++ item_view item.now ∷ [])) }
        ensures err { OnErr result (self.new ≡ self.old) }
    {
        self.append_lent(item.lend())
    }

    /// As `append`, of an item whose frame is lent.
    pub fn append_lent(&mut self, item: LentItem<'_>) -> Result<(), NoMemory>
        requires { length item.frame.now ≤ 262144 }
        ensures ok { OnOk result (self.new ≡ self.old ++ record_text Little (entry_of (lent_view item.entry))) }
        ensures text { OnOk result ((nano : Bool) (items : List spec.Item) → self.old ≡ items_text nano items
            → self.new ≡ items_text nano (items ++ lent_view item.entry ∷ [])) }
        ensures err { OnErr result (self.new ≡ self.old) }
    {
        let head = lent_head(item);
        let frame = item.frame;
        self.bytes.reserve(HEAD + frame.len())?;
        self.bytes.extend_from_slice(head.as_slice())?;
        self.bytes.extend_from_slice(frame)?;
        Ok(())
    }

    /// The bytes, with their room.
    pub fn into_bytes(self) -> Vec<u8>
        ensures { result.items ≡ self }
    {
        let Writer { bytes } = self;
        bytes
    }
}
