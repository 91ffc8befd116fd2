ghost use Rattle.std.specs.Prelude.{◌≡◌, ◌<◌, ◌≤◌, ◌+◌, ℕ, [], ◌∷◌, ◌++◌, map, flat_map, min, slice_index, is_err};
ghost use Rattle.brick_base.specs.Reason.{reason_view};
ghost use Rattle.batch_ops.specs.Outlet.{buffer_of, drops_of, is_lost};
ghost use Rattle.packet_owner.specs.Packet.{packet_item};
ghost use Rattle.flow_spec.specs.Answer.{reason_place};
ghost use Rattle.flow_work.specs.Buffers.{AreOut, Recycled};
ghost use Rattle.flow_work.specs.Log.{CountsMore};
ghost use Rattle.chain_nodes.specs.Desk.{counted, dropped_buffer, SameLists};

use batch_ops::{Dropped, Outlet};
use brick_base::{NoMemory, Raw, Reason};
use packet_owner::Packet;
use work_core::Returned;

/// Where packets come to rest: the outlet that they go through, the counts of those that were dropped, and the buffers
/// that go back.
#[derive(Debug, Drop)]
pub struct Desk {
    /// The outlet, with the spare buffers.
    pub out: Outlet,
    /// How many packets were dropped, by the places of their reasons.
    pub counts: [u32; 9],
    /// The buffers that go back.
    pub back: Returned,
}

/// The place of a reason in the report.
fn place_of(reason: Reason) -> usize
    ensures place { result ≡ reason_place (reason_view reason) }
    ensures within { result < 9 }
{
    match reason {
        Reason::Big => 0,
        Reason::Unparsed => 1,
        Reason::Fire => 2,
        Reason::NoRoute => 3,
        Reason::Ttl => 4,
        Reason::NatFull => 5,
        Reason::Filter => 6,
        Reason::NoGroup => 7,
        Reason::Reach => 8,
    }
}

/// Counts a drop, up to 4,294,967,295 of each reason.
fn count(counts: &mut [u32; 9], reason: Option<Reason>)
    ensures { (k : ℕ) → k < 9
        → slice_index counts.new k ≡ min 4294967295 (slice_index counts.old k + counted k reason) }
{
    if let Some(reason) = reason {
        let at = place_of(reason);
        counts[at] = counts[at].saturating_add(1);
    }
}

impl Desk {
    /// Brings the buffer of a packet to rest.
    #[inline]
    pub fn put_back(&mut self, packet: Packet<Raw>)
        requires { AreOut (buffer_of packet ∷ []) self.old.back self.old.out.spare }
        ensures recycled { Recycled (buffer_of packet
            ∷ []) self.old.back self.new.back self.old.out.spare self.new.out.spare }
        ensures lists { SameLists self.old.out self.new.out }
        ensures counts { self.new.counts ≡ self.old.counts }
    {
        if packet.slot() < 1024 {
            self.back.push(packet.into_buffer());
        } else {
            self.out.spare.give(packet.into_buffer());
        }
    }

    /// Drops a packet: it is counted, and its buffer comes to rest.
    pub fn drop_for(&mut self, reason: Reason, packet: Packet<Raw>)
        requires { AreOut (buffer_of packet ∷ []) self.old.back self.old.out.spare }
        ensures recycled { Recycled (buffer_of packet
            ∷ []) self.old.back self.new.back self.old.out.spare self.new.out.spare }
        ensures lists { SameLists self.old.out self.new.out }
        ensures counts { CountsMore self.old.counts self.new.counts (record {
          reason = reason_view reason;
          item = packet_item packet;
        } ∷ []) }
    {
        count(&mut self.counts, Some(reason));
        self.put_back(packet);
    }

    /// Counts a packet that was dropped, and brings its buffer to rest. One that was lost to want of memory is not
    /// counted.
    pub fn take_dropped(&mut self, dropped: Dropped) -> Result<(), NoMemory>
        requires { AreOut (dropped_buffer dropped ∷ []) self.old.back self.old.out.spare }
        ensures recycled { Recycled (dropped_buffer dropped
            ∷ []) self.old.back self.new.back self.old.out.spare self.new.out.spare }
        ensures lists { SameLists self.old.out self.new.out }
        ensures counts { CountsMore self.old.counts self.new.counts (drops_of dropped) }
        ensures lost { is_err result ≡ is_lost dropped }
    {
        let lost = dropped.reason.is_none();
        count(&mut self.counts, dropped.reason);
        self.put_back(dropped.packet);
        if lost { Err(NoMemory) } else { Ok(()) }
    }

    /// Counts the packets that were dropped, and brings their buffers to rest.
    pub fn settle_dropped(&mut self)
        requires { AreOut (map dropped_buffer self.old.out.dropped.items) self.old.back self.old.out.spare }
        ensures recycled { Recycled
            (map dropped_buffer self.old.out.dropped.items) self.old.back self.new.back self.old.out.spare
            self.new.out.spare }
        ensures counts { CountsMore self.old.counts self.new.counts (flat_map drops_of self.old.out.dropped.items) }
        ensures emptied { self.new.out.dropped.items ≡ [] }
        ensures passed { self.new.out.passed ≡ self.old.out.passed }
        ensures consumed { self.new.out.consumed ≡ self.old.out.consumed }
    {
        'each: while let Some(Dropped { reason, packet }) = self.out.dropped.pop() {
            count(&mut self.counts, reason);
            self.put_back(packet);
        }
    }

    /// Brings the buffers of packets to rest of which the content is kept elsewhere.
    pub fn settle_consumed(&mut self)
        requires { AreOut (map buffer_of self.old.out.consumed.items) self.old.back self.old.out.spare }
        ensures recycled { Recycled
            (map buffer_of self.old.out.consumed.items) self.old.back self.new.back self.old.out.spare
            self.new.out.spare }
        ensures counts { self.new.counts ≡ self.old.counts }
        ensures emptied { self.new.out.consumed.items ≡ [] }
        ensures passed { self.new.out.passed ≡ self.old.out.passed }
        ensures dropped { self.new.out.dropped ≡ self.old.out.dropped }
    {
        'each: while let Some(packet) = self.out.consumed.pop() {
            self.put_back(packet);
        }
    }

    /// Counts the packets that were dropped, and brings all buffers to rest but those of the packets that go on.
    pub fn settle(&mut self)
        requires { AreOut (map dropped_buffer self.old.out.dropped.items
            ++ map buffer_of self.old.out.consumed.items) self.old.back self.old.out.spare }
        ensures recycled { Recycled (map dropped_buffer self.old.out.dropped.items
            ++ map buffer_of self.old.out.consumed.items) self.old.back self.new.back self.old.out.spare
            self.new.out.spare }
        ensures counts { CountsMore self.old.counts self.new.counts (flat_map drops_of self.old.out.dropped.items) }
        ensures dropped { self.new.out.dropped.items ≡ [] }
        ensures consumed { self.new.out.consumed.items ≡ [] }
        ensures passed { self.new.out.passed ≡ self.old.out.passed }
    {
        self.settle_dropped();
        self.settle_consumed();
    }
}
