ghost use Rattle.std.specs.Prelude.{ℕ, ◌≡◌, ◌≤◌, ◌+◌, ◌++◌, [], ◌∷◌, length, take, drop, replicate, Some, None, IfOk};
ghost use Rattle.std.specs.Prelude.{IfErr, OnErr, vec_len, vec_capacity};
ghost use Rattle.std.specs.Borrow.{sem};
ghost use Rattle.brick_spec.specs.Item.{item_of};
ghost use Rattle.pcap_io.specs.View.{entry_view, item_view, lent_view};
ghost use Rattle.packet_owner.specs.Packet.{PacketModel, AreNested, IsWithin, place_view, here_of, header_of};
ghost use Rattle.packet_owner.specs.Packet.{payload_of, packet_item, parsed, deparsed};

use crate::Buffer;
use crate::buffer::Block;
use crate::meta::Meta;
use crate::place::Place;
use brick_base::{NoMemory, Proto, Raw};
use pcap_io::{Entry, Item, LentItem};
use std::alloc::Global;
use std::fmt;
use std::marker::{Model, PhantomData};

/// A frame in a buffer of its own, with its key, its times and its length on the link, read up to the layer `P`. The
/// bytes of the buffer behind the frame mean nothing.
#[derive(Drop)]
pub struct Packet<P: Proto> {
    block: Box<Block>,
    layer: PhantomData<P>,
}

impl<P: Proto> Model for Packet<P> {
    ghost use Rattle.packet_owner.specs.Block.{packet_in, IsSound};
    ghost use Rattle.packet_owner.specs.Packet.{PacketModel};

    ghost Value = { PacketModel };

    ghost view = { λ p. packet_in P.DEPTH p.block.value };

    ghost invariant = { λ p. IsSound P.DEPTH p.block.value };
}

/// The key, the slot of its buffer and the length of the frame, and not its bytes.
impl<P: Proto> fmt::Debug for Packet<P> {
    fn fmt<W: fmt::Write>(&self, f: &mut fmt::Formatter<W>) -> fmt::Result {
        f.debug_struct("Packet")
            .field("key", &self.key())
            .field("slot", &self.slot())
            .field("len", &self.block.len)
            .finish_non_exhaustive()
    }
}

/// Makes bytes long enough for `len` bytes, for which there is memory.
fn reach(bytes: &mut Vec<u8>, len: usize)
    requires { len ≤ vec_capacity bytes.old }
    ensures long { len ≤ vec_len bytes.new }
    ensures within { (room : ℕ) → len ≤ room → vec_len bytes.old ≤ room → vec_len bytes.new ≤ room }
    ensures memory { vec_capacity bytes.old ≤ vec_capacity bytes.new }
{
    if bytes.len() < len {
        let done = bytes.resize(len, 0);
        done.unwrap();
    }
}

/// Writes the frame over the first bytes.
fn fill_front(bytes: &mut [u8], frame: &[u8])
    requires { length frame.now ≤ length bytes.old }
    ensures { bytes.new ≡ frame.now ++ drop (length frame.now) bytes.old }
{
    bytes[..frame.len()].copy_from_slice(frame);
}

/// Writes zeros over the first bytes.
fn clear_front(bytes: &mut [u8], len: usize)
    requires { len ≤ length bytes.old }
    ensures { bytes.new ≡ replicate len 0 ++ drop len bytes.old }
{
    bytes[..len].fill(0);
}

impl Packet<Raw> {
    /// The packet of the record of this number, in the buffer, whose memory the packet keeps. The frame is copied.
    pub fn fill(buffer: Buffer, number: u32, entry: Entry<'_>) -> Packet<Raw>
        requires { length entry.frame.now ≤ buffer.room }
        ensures item { packet_item result ≡ item_of number (entry_view entry.entry) }
        ensures slot { result.slot ≡ buffer.slot }
        ensures room { result.room ≡ buffer.room }
        ensures layers { result.layers ≡ [] }
    {
        let Buffer { mut block } = buffer;
        reach(&mut block.bytes, entry.frame.len());
        fill_front(&mut block.bytes, entry.frame);
        block.len = entry.frame.len() as u32;
        block.meta = Meta {
            a: number as u64,
            j: 0,
            seconds: entry.seconds,
            fraction: entry.fraction,
            original: entry.original,
        };
        Packet {
            block,
            layer: PhantomData,
        }
    }

    /// A packet of `len` zero bytes in the buffer, whose memory the packet keeps, with this key and these times. On the
    /// link it is as long.
    pub fn blank(
        buffer: Buffer,
        a: u64,
        j: u32,
        seconds: u32,
        fraction: u32,
        len: u32,
    ) -> Packet<Raw>
        requires { len ≤ buffer.room }
        ensures item { packet_item result
            ≡ record { a = a; j = j; seconds = seconds; fraction = fraction; original = len; frame = replicate len 0 } }
        ensures slot { result.slot ≡ buffer.slot }
        ensures room { result.room ≡ buffer.room }
        ensures layers { result.layers ≡ [] }
    {
        let Buffer { mut block } = buffer;
        reach(&mut block.bytes, len as usize);
        clear_front(&mut block.bytes, len as usize);
        block.len = len;
        block.meta = Meta {
            a,
            j,
            seconds,
            fraction,
            original: len,
        };
        Packet {
            block,
            layer: PhantomData,
        }
    }

    /// The packet with the first `len` bytes of its frame alone, in its own buffer. On the link it is as long.
    pub fn cut(self, len: u32) -> Packet<Raw>
        requires { len ≤ length self.frame }
        ensures item { packet_item result ≡ record (packet_item self) { original = len; frame = take len self.frame } }
        ensures slot { result.slot ≡ self.slot }
        ensures room { result.room ≡ self.room }
        ensures layers { result.layers ≡ [] }
    {
        let Packet {
            mut block,
            layer: _,
        } = self;
        block.len = len;
        block.meta.original = len;
        Packet {
            block,
            layer: PhantomData,
        }
    }
}

impl<P: Proto> Packet<P> {
    ghost use Rattle.packet_owner.specs.Lends.{LendsFrame, LendsHeader, LendsPayload};

    /// Where its layer stands.
    #[tactic(auto, using(crate::proofs::Layers::innermost_within))]
    fn here(&self) -> Place
        ensures value { place_view result ≡ here_of self.now }
        ensures within { IsWithin (place_view result) (length self.now.frame) }
    {
        if P::DEPTH == 0 {
            return Place {
                start: 0,
                middle: 0,
                end: self.block.len,
            };
        }
        self.block.places[P::DEPTH - 1]
    }

    /// The header of its layer: of a packet of which no layer was read, no bytes.
    pub fn header(&self) -> &[u8]
        ensures value { result.now ≡ header_of self.now }
        ensures layers { length self.now.layers ≡ P.DEPTH }
    {
        let here = self.here();
        &self.block.bytes[here.start as usize..here.middle as usize]
    }

    /// The header of its layer, to be written. What is written stands in the frame, and nothing else changes: no layer
    /// moves.
    pub fn header_mut(&mut self) -> &mut [u8]
        ensures* writes_back { sem 𝓛 (LendsHeader P.row P.Prev.row P.Proto self.entry result) }
        ensures value { result.now ≡ header_of self.old }
        ensures layers { length self.old.layers ≡ P.DEPTH }
    {
        let here = self.here();
        self.block
            .bytes
            .slice_mut(here.start as usize..here.middle as usize)
    }

    /// The payload of its layer: of a packet of which no layer was read, the frame.
    pub fn payload(&self) -> &[u8]
        ensures value { result.now ≡ payload_of self.now }
        ensures layers { length self.now.layers ≡ P.DEPTH }
    {
        let here = self.here();
        &self.block.bytes[here.middle as usize..here.end as usize]
    }

    /// The payload of its layer, to be written. What is written stands in the frame, and nothing else changes.
    pub fn payload_mut(&mut self) -> &mut [u8]
        ensures* writes_back { sem 𝓛 (LendsPayload P.row P.Prev.row P.Proto self.entry result) }
        ensures value { result.now ≡ payload_of self.old }
        ensures layers { length self.old.layers ≡ P.DEPTH }
    {
        let here = self.here();
        self.block
            .bytes
            .slice_mut(here.middle as usize..here.end as usize)
    }

    /// Its frame.
    pub fn frame(&self) -> &[u8]
        ensures { result.now ≡ self.now.frame }
    {
        &self.block.bytes[..self.block.len as usize]
    }

    /// Its frame, to be written. What is written stands in the frame, and nothing else changes: no layer moves.
    pub fn frame_mut(&mut self) -> &mut [u8]
        ensures* writes_back { sem 𝓛 (LendsFrame P.row P.Prev.row P.Proto self.entry result) }
        ensures value { result.now ≡ self.old.frame }
    {
        let len = self.block.len as usize;
        self.block.bytes.slice_mut(0..len)
    }

    /// Reads the next layer. Where it is not there the packet comes back.
    #[tactic(auto, using(crate::proofs::Layers::length_given))]
    pub fn parse<Q: Proto<Prev = P>>(self) -> Result<Packet<Q>, Packet<P>>
        requires { Q.DEPTH ≡ P.DEPTH + 1 }
        ensures ok { IfOk result (λ q. parsed Q.length_of Q.extent_of self ≡ Some q) }
        ensures given { IfOk result (λ q. Q.length_of (header_of self) (payload_of self)
            ≡ Some (length (header_of q))) }
        ensures least { IfOk result (λ q. Q.LEAST ≤ length (header_of q)) }
        ensures layers { length self.layers ≡ P.DEPTH }
        ensures err { IfErr result (λ p. p ≡ self) }
        ensures absent { OnErr result (Q.length_of (header_of self) (payload_of self) ≡ None) }
    {
        let here = self.here();
        let rest = self.payload();
        match Q::length(self.header(), rest) {
            None => Err(self),
            Some(n) => {
                let extent = Q::extent(&rest[..n], rest.len());
                let place = Place {
                    start: here.middle,
                    middle: here.middle + n as u32,
                    end: here.middle + extent as u32,
                };
                Ok(self.with_place(place))
            }
        }
    }

    /// The packet with a further layer at this place.
    fn with_place<Q: Proto>(self, place: Place) -> Packet<Q>
        requires depth { Q.DEPTH ≡ P.DEPTH + 1 }
        requires nested { AreNested (place_view place ∷ self.layers) (length self.frame) }
        ensures { result ≡ record self { layers = place_view place ∷ self.layers } }
    {
        let Packet {
            mut block,
            layer: _,
        } = self;
        block.places[P::DEPTH] = place;
        Packet {
            block,
            layer: PhantomData,
        }
    }

    /// Back to the layer before.
    pub fn deparse<O: Proto>(self) -> Packet<O>
    where
        P: Proto<Prev = O>,
        requires { P.DEPTH ≡ O.DEPTH + 1 }
        ensures { result ≡ deparsed self }
    {
        Packet {
            block: self.block,
            layer: PhantomData,
        }
    }

    /// Its key: the number of the record that it comes from, and its place among the items of that record.
    pub fn key(&self) -> (u64, u32)
        ensures { result ≡ (self.now.a, self.now.j) }
    {
        (self.block.meta.a, self.block.meta.j)
    }

    /// Its time: the seconds since 1970-01-01 00:00:00 UTC, and the microseconds or nanoseconds behind them.
    pub fn times(&self) -> (u32, u32)
        ensures { result ≡ (self.now.seconds, self.now.fraction) }
    {
        (self.block.meta.seconds, self.block.meta.fraction)
    }

    /// The number of its buffer.
    pub fn slot(&self) -> u32
        ensures { result ≡ self.now.slot }
    {
        self.block.slot
    }

    /// The item of the packet, with its frame lent.
    pub fn lend(&self) -> LentItem<'_>
        ensures { lent_view result ≡ packet_item self.now }
    {
        LentItem {
            a: self.block.meta.a,
            j: self.block.meta.j,
            seconds: self.block.meta.seconds,
            fraction: self.block.meta.fraction,
            original: self.block.meta.original,
            frame: self.frame(),
        }
    }

    /// The item of the packet, with a copy of its frame.
    pub fn item(&self, alloc: Global) -> Result<Item, NoMemory>
        ensures { IfOk result (λ i. item_view i ≡ packet_item self.now) }
    {
        self.lend().to_item(alloc)
    }

    /// Its buffer. The frame is given up.
    pub fn into_buffer(self) -> Buffer
        ensures { result ≡ record { slot = self.slot; room = self.room } }
    {
        let Packet { block, layer: _ } = self;
        Buffer { block }
    }
}
