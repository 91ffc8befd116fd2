// The steps on a buffer's word and its slot.
ghost use Rattle.std.specs.Prelude.{◌≡◌, ◌<◌, ◌≤◌, [], length, MatchOption, IfSome, Some};
ghost use Rattle.lane_spec.specs.Counts.{times};
ghost use Rattle.lane_table.specs.Steps.{claimed_by, missed_by, settled_by, released_by};
ghost use Rattle.lane_table.specs.Tries.{looked_at, FoundTaken, FoundFree};

use crate::lane::TableLane;
use crate::plays::{ClaimWord, OpenWord, SettleSlot, TakeSlot};
use crate::view::{SeatView, Stored};
use atomic_table::Seat;
use packet_owner::Buffer;

impl TableLane {
    /// Tries the word of buffer `i`, once.
    pub(crate) fn try_word(&self, seat: &mut Seat<Stored, SeatView>, i: usize) -> Option<Buffer>
        requires lane { (seat.old.table_id ≡ self.now.table.shared.table_id) × (i < self.now.buffers) }
        requires seat { (0 < length seat.old.me.0.found) × (seat.old.me.0.about ≡ Some self.now.table.shared.key)
            × (0 < times 0 seat.old.me.0.roles) × (length seat.old.me.0.roles ≡ 1) × (seat.old.me.0.out ≡ [])
            × (seat.old.me.1 ≡ []) }
        ensures same { (seat.new.table_id ≡ seat.old.table_id) × (seat.new.id ≡ seat.old.id) }
        ensures won { MatchOption result ((seat.new.me ≡ (missed_by i seat.old.me.0, []))
            × (0 < times i seat.old.me.0.claimed)) (λ b. (b.slot ≡ i) × (b.room ≡ self.now.bytes)
            × (seat.new.me ≡ (settled_by (claimed_by i seat.old.me.0), []))
            × (length seat.old.me.0.held < self.now.buffers) × (times i seat.old.me.0.held ≡ 0)) }
    {
        let words = &self.table.shared;
        if words.swap::<ClaimWord>(seat, i, 0) == 0 {
            return None;
        }
        let found = words.exchange(seat, i, Stored::Empty);
        words.load::<SettleSlot>(seat, i);
        match found {
            Stored::Free(b) => Some(b),
            _ => unreachable!(),
        }
    }

    /// Tries the words from `from` on, before `to`, in order, each once, until one gives its buffer.
    fn try_words(&self, seat: &mut Seat<Stored, SeatView>, from: u32, to: u32) -> Option<Buffer>
        requires lane { (seat.old.table_id ≡ self.now.table.shared.table_id) × (from ≤ to) × (to ≤ self.now.buffers) }
        requires seat { (0 < self.now.buffers) × (length seat.old.me.0.found ≡ self.now.buffers)
            × (seat.old.me.0.about ≡ Some self.now.table.shared.key) × (0 < times 0 seat.old.me.0.roles)
            × (length seat.old.me.0.roles ≡ 1) × (seat.old.me.0.out ≡ []) × (seat.old.me.1 ≡ []) }
        ensures same { (seat.new.table_id ≡ seat.old.table_id) × (seat.new.id ≡ seat.old.id) }
        ensures view { MatchOption result (seat.new.me
            ≡ (looked_at seat.new.me.0.found seat.old.me.0, [])) (λ b. seat.new.me
            ≡ (settled_by (claimed_by b.slot (looked_at seat.new.me.0.found seat.old.me.0)), [])) }
        ensures tried { MatchOption result
            (FoundTaken from to seat.old.me.0.claimed seat.old.me.0.found seat.new.me.0.found) (λ b. (b.slot < to)
            × FoundFree b.slot seat.old.me.0.found seat.new.me.0.found) }
        ensures buffer { IfSome result (λ b. (b.room ≡ self.now.bytes) × (length seat.old.me.0.held < self.now.buffers)
            × (times b.slot seat.old.me.0.held ≡ 0)) }
    {
        for i in from as usize..to as usize {
            if let Some(b) = self.try_word(seat, i) {
                return Some(b);
            }
        }
        None
    }

    /// Tries the words from `first` on to the last, and then those before, each once, until one gives its buffer.
    pub(crate) fn try_all(&self, seat: &mut Seat<Stored, SeatView>, first: u32) -> Option<Buffer>
        requires lane { (seat.old.table_id ≡ self.now.table.shared.table_id) × (first ≤ self.now.buffers) }
        requires seat { (0 < self.now.buffers) × (length seat.old.me.0.found ≡ self.now.buffers)
            × (seat.old.me.0.about ≡ Some self.now.table.shared.key) × (0 < times 0 seat.old.me.0.roles)
            × (length seat.old.me.0.roles ≡ 1) × (seat.old.me.0.out ≡ []) × (seat.old.me.1 ≡ []) }
        ensures same { (seat.new.table_id ≡ seat.old.table_id) × (seat.new.id ≡ seat.old.id) }
        ensures view { MatchOption result (seat.new.me
            ≡ (looked_at seat.new.me.0.found seat.old.me.0, [])) (λ b. seat.new.me
            ≡ (settled_by (claimed_by b.slot (looked_at seat.new.me.0.found seat.old.me.0)), [])) }
        ensures tried { MatchOption result
            (FoundTaken 0 self.now.buffers seat.old.me.0.claimed seat.old.me.0.found seat.new.me.0.found) (λ b. (b.slot
            < self.now.buffers) × FoundFree b.slot seat.old.me.0.found seat.new.me.0.found) }
        ensures buffer { IfSome result (λ b. (b.room ≡ self.now.bytes) × (length seat.old.me.0.held < self.now.buffers)
            × (times b.slot seat.old.me.0.held ≡ 0)) }
    {
        match self.try_words(seat, first, self.buffers) {
            Some(b) => Some(b),
            None => self.try_words(seat, 0, first),
        }
    }

    /// Puts the buffer back into its slot, and then opens its word.
    pub(crate) fn open_word(&self, seat: &mut Seat<Stored, SeatView>, b: Buffer)
        requires lane { (seat.old.table_id ≡ self.now.table.shared.table_id) × (b.slot < self.now.buffers)
            × (b.room ≡ self.now.bytes) }
        requires seat { (0 < length seat.old.me.0.found) × (seat.old.me.0.out ≡ []) × (seat.old.me.1 ≡ [])
            × (0 < times b.slot seat.old.me.0.held) }
        ensures same { (seat.new.table_id ≡ seat.old.table_id) × (seat.new.id ≡ seat.old.id) }
        ensures given { seat.new.me ≡ (released_by b.slot seat.old.me.0, []) }
    {
        let words = &self.table.shared;
        let i = b.slot() as usize;
        words.load::<TakeSlot>(seat, i);
        match words.exchange(seat, i, Stored::Free(b)) {
            Stored::Empty => {}
            _ => unreachable!(),
        }
        words.swap::<OpenWord>(seat, i, 1);
    }
}
