// The steps on a ring's cells and on the slots that its entries name.
ghost use Rattle.std.specs.Prelude.{◌≡◌, ℕ, ◌+◌, ◌^◌, ◌<◌, false, [], ◌∷◌, length, slice_index, Some};
ghost use Rattle.lane_spec.specs.Counts.{times};
ghost use Rattle.lane_core.specs.Got.{IfPacket, IfNothing, IfEnd};
ghost use Rattle.lane_core.specs.Seats.{IsRecord, log_of};
ghost use Rattle.lane_table.specs.declared.view.Stored.TheVariants.{Empty};
ghost use Rattle.lane_table.specs.Rule.{mark_at, Below};
ghost use Rattle.lane_table.specs.Steps.{taken_by, sent_by, closed_by, received_by, ended_by, empty_by, settled_by};

use crate::lane::TableLane;
use crate::plays::{PutEnd, PutEntry, SettleSlot, TakeEntry, TakeSlot};
use crate::view::{SeatView, Stored};
use crate::words::{END, cell_of, entry_of, slot_of};
use atomic_table::Seat;
use brick_base::Raw;
use lane_core::Got;
use packet_owner::Packet;

impl TableLane {
    /// Takes the slot that the seat holds out of the table.
    pub(crate) fn take_slot(&self, seat: &mut Seat<Stored, SeatView>, slot: u32)
        requires lane { (seat.old.table_id ≡ self.now.table.shared.table_id) × (slot < self.now.buffers) }
        requires seat { (0 < length seat.old.me.0.found) × (seat.old.me.0.out ≡ []) × (seat.old.me.1 ≡ [])
            × (0 < times slot seat.old.me.0.held) }
        ensures same { (seat.new.table_id ≡ seat.old.table_id) × (seat.new.id ≡ seat.old.id) }
        ensures taken { seat.new.me ≡ (taken_by slot seat.old.me.0, (slot, Empty) ∷ []) }
    {
        self.table.shared.load::<TakeSlot>(seat, slot as usize);
    }

    /// Puts a packet, whose slot is out with the seat, into its slot, and then its entry into ring `w`, which has
    /// `count` entries.
    pub(crate) fn put_entry(
        &self,
        seat: &mut Seat<Stored, SeatView>,
        w: u32,
        count: u64,
        p: Packet<Raw>,
    )
        requires lane { (seat.old.table_id ≡ self.now.table.shared.table_id) × (w < self.now.workers)
            × (p.slot < self.now.buffers) × (p.a < 2 ^ 32) }
        requires seat { (0 < length seat.old.me.0.found) × (0 < times 0 seat.old.me.0.roles)
            × (seat.old.me.0.out ≡ p.slot ∷ []) × (seat.old.me.1 ≡ (p.slot, Empty) ∷ []) }
        requires place { (count ≡ length (log_of seat.old.me.0.sent w)) × (mark_at seat.old.me.0.ends w ≡ false)
            × (count < slice_index self.now.table.shared.key.shares.value.items w) }
        requires packet { (p.room ≡ self.now.bytes) × IsRecord self.now.table.shared.key.capture.value p.a p
            × ((y : ℕ) → Below p.a (log_of seat.old.me.0.sent y)) }
        ensures same { (seat.new.table_id ≡ seat.old.table_id) × (seat.new.id ≡ seat.old.id) }
        ensures sent { seat.new.me ≡ (sent_by w p.slot p.a seat.old.me.0, []) }
    {
        let slot = p.slot();
        let (number, _) = p.key();
        let cell = cell_of(self.buffers, w, count);
        let entry = entry_of(slot, number);
        let words = &self.table.shared;
        match words.exchange(seat, slot as usize, Stored::Filled(p)) {
            Stored::Empty => {}
            _ => unreachable!(),
        }
        words.swap::<PutEntry>(seat, cell, entry);
    }

    /// Puts END into ring `w`, which has `count` entries.
    pub(crate) fn put_end(&self, seat: &mut Seat<Stored, SeatView>, w: u32, count: u64)
        requires lane { (seat.old.table_id ≡ self.now.table.shared.table_id) × (w < self.now.workers) }
        requires seat { (0 < length seat.old.me.0.found) × (0 < times 0 seat.old.me.0.roles) }
        requires place { (count ≡ length (log_of seat.old.me.0.sent w)) × (mark_at seat.old.me.0.ends w ≡ false) }
        ensures same { (seat.new.table_id ≡ seat.old.table_id) × (seat.new.id ≡ seat.old.id) }
        ensures closed { seat.new.me ≡ (closed_by w seat.old.me.0, seat.old.me.1) }
    {
        let cell = cell_of(self.buffers, w, count);
        self.table.shared.swap::<PutEnd>(seat, cell, END);
    }

    /// Takes what lies in the next cell of ring `w`, of which `count` entries were taken.
    pub(crate) fn take_entry(&self, seat: &mut Seat<Stored, SeatView>, w: u32, count: u64) -> Got
        requires lane { (seat.old.table_id ≡ self.now.table.shared.table_id) × (w < self.now.workers) }
        requires seat { (0 < length seat.old.me.0.found) × (seat.old.me.0.about ≡ Some self.now.table.shared.key)
            × (0 < times (w + 1) seat.old.me.0.roles) × (length seat.old.me.0.roles ≡ 1) × (seat.old.me.0.out ≡ [])
            × (seat.old.me.1 ≡ []) }
        requires place { (count ≡ length (log_of seat.old.me.0.received w)) × (mark_at seat.old.me.0.ended w ≡ false) }
        ensures same { (seat.new.table_id ≡ seat.old.table_id) × (seat.new.id ≡ seat.old.id) }
        ensures packet { IfPacket result (λ p. (p.room ≡ self.now.bytes)
            × IsRecord self.now.table.shared.key.capture.value p.a p × Below p.a (log_of seat.old.me.0.received w)
            × (p.slot < self.now.buffers)) }
        ensures received { IfPacket result (λ p. seat.new.me
            ≡ (settled_by (received_by w (p.slot, p.a) seat.old.me.0), [])) }
        ensures room { IfPacket result (λ p. (length seat.old.me.0.held < self.now.buffers)
            × (count < slice_index self.now.table.shared.key.shares.value.items w)) }
        ensures nothing { IfNothing result (seat.new.me ≡ (empty_by w seat.old.me.0, [])) }
        ensures ended { IfEnd result (seat.new.me ≡ (ended_by w seat.old.me.0, [])) }
    {
        let cell = cell_of(self.buffers, w, count);
        let words = &self.table.shared;
        let word = words.swap::<TakeEntry>(seat, cell, 0);
        if word == 0 {
            return Got::Nothing;
        }
        if word == END {
            return Got::End;
        }
        let slot = slot_of(word);
        let found = words.exchange(seat, slot, Stored::Empty);
        words.load::<SettleSlot>(seat, slot);
        match found {
            Stored::Filled(p) => Got::Packet(p),
            _ => unreachable!(),
        }
    }
}
