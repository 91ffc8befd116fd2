ghost use Rattle.std.specs.Prelude.{◌≡◌, ◌+◌, ◌<◌, ◌≤◌, Some, length, vec_len, slice_get, IfOk, IfErr, flat_map};
ghost use Rattle.std.specs.List.{AllByRecursion};
ghost use Rattle.brick_spec.specs.Capture.{Fits, IsWhole, record_text};
ghost use Rattle.pcap_io.specs.Reading.{entries_at, ArePlaces};
ghost use Rattle.pcap_io.specs.View.{entry_view, order_view, record_fault_of, StandsIn, StandsInRecords};

use crate::header::{Form, HEADER, read_header};
use crate::number::Order;
use crate::record::{HEAD, Stuck, record_at_front, record_size};
use crate::{CaptureFault, Entry};
use std::alloc::Global;
use std::fmt;
use std::marker::Model;

/// The least length of an Ethernet frame without its check sequence (IEEE 802.3). A capture may have shorter ones.
const SHORTEST_FRAME: usize = 60;

/// The fault of a record of a number, counted from 0, whose first byte has this place behind the file header.
fn record_fault(number: usize, at: usize, stuck: Stuck) -> CaptureFault
    requires number { number ≤ 33554432 }
    requires at { at ≤ 33554432 }
    ensures { result ≡ record_fault_of number (24 + at) stuck }
{
    match stuck {
        Stuck::Cut => CaptureFault::CutRecord {
            number: number as u32,
            at: (HEADER + at) as u32,
        },
        Stuck::Long { len } => CaptureFault::LongRecord {
            number: number as u32,
            len,
        },
    }
}

/// The places of the records behind a file header, where there are whole records and nothing more. There is room from
/// the start for the places of the shortest Ethernet frames, so that the list seldom grows.
fn places_of(alloc: Global, order: Order, records: &[u8]) -> Result<Vec<usize>, CaptureFault>
    requires { length records.now ≤ 33554432 }
    ensures text { IfOk result (λ places. records.now
        ≡ flat_map (record_text (order_view order)) (entries_at (order_view order) records.now places.items)) }
    ensures fit { IfOk result (λ places. AllByRecursion Fits (entries_at (order_view order) records.now places.items)) }
    ensures places { IfOk result (λ places. ArePlaces (order_view order) records.now places.items) }
    ensures fault { IfErr result (StandsInRecords (order_view order) records.now) }
{
    let mut places = Vec::with_capacity(alloc, records.len() / (HEAD + SHORTEST_FRAME))?;
    let mut at = 0;
    while at < records.len() {
        let (_, rest) = records.split_at(at);
        match record_size(order, rest) {
            Ok(size) => {
                places.push(at)?;
                at += size;
            }
            Err(stuck) => return Err(record_fault(places.len(), at, stuck)),
        }
    }
    Ok(places)
}

/// A capture that was read whole. It owns its bytes and keeps the place of each record.
#[derive(Drop)]
pub struct Capture {
    order: Order,
    nano: bool,
    bytes: Vec<u8>,
    // from the end of the file header on
    places: Vec<usize>,
}

impl Model for Capture {
    ghost use Rattle.std.specs.Prelude.{◌≤◌, length, drop};
    ghost use Rattle.brick_spec.specs.Capture.{Contents};
    ghost use Rattle.pcap_io.specs.Reading.{entries_at, ArePlaces};
    ghost use Rattle.pcap_io.specs.View.{order_view};

    ghost Value = { Contents };

    ghost view = { λ c. record {
      nano = c.nano;
      entries = entries_at (order_view c.order) (drop 24 c.bytes.items) c.places.items;
    } };

    ghost invariant = { λ c. (24 ≤ length c.bytes.items)
        × ArePlaces (order_view c.order) (drop 24 c.bytes.items) c.places.items };
}

/// The number of records, the resolution and the byte order; not the frames.
impl fmt::Debug for Capture {
    fn fmt<W: fmt::Write>(&self, f: &mut fmt::Formatter<W>) -> fmt::Result {
        f.debug_struct("Capture")
            .field("count", &self.places.len())
            .field("nano", &self.nano)
            .field("order", &self.order)
            .finish_non_exhaustive()
    }
}

impl Capture {
    /// Reads a whole capture, in either byte order, with microseconds or nanoseconds. On a refusal the bytes are given
    /// up, and the fault is the one that stands in them. No frame is copied.
    pub fn read(alloc: Global, bytes: Vec<u8>) -> Result<Capture, CaptureFault>
        requires { vec_len bytes ≤ 33554432 }
        ensures whole { IfOk result (IsWhole bytes.items) }
        ensures fault { IfErr result (StandsIn bytes.items) }
    {
        let Form { order, nano } = read_header(&bytes)?;
        let (_, records) = bytes.split_at(HEADER);
        let places = places_of(alloc, order, records)?;
        Ok(Capture {
            order,
            nano,
            bytes,
            places,
        })
    }

    /// How many records there are.
    pub fn count(&self) -> u32
        ensures { result ≡ length self.now.entries }
    {
        self.places.len() as u32
    }

    /// Whether the fractions are nanoseconds, and not microseconds.
    pub fn nano(&self) -> bool
        ensures { result ≡ self.now.nano }
    {
        self.nano
    }

    /// The record of a number, counted from 0. Its frame is lent from the capture.
    pub fn entry(&self, k: u32) -> Entry<'_>
        requires { k < length self.now.entries }
        ensures entry { slice_get self.now.entries k ≡ Some (entry_view result) }
        ensures short { length result.frame.now ≤ 262144 }
    {
        let (_, records) = self.bytes.split_at(HEADER);
        let (_, rest) = records.split_at(self.places[k as usize]);
        record_at_front(self.order, rest)
    }
}
