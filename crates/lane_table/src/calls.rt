// The calls of a lane's seats. None of them waits, and none takes memory.
ghost use Rattle.std.specs.Prelude.{◌≡◌, ◌≢◌, ℕ, ◌+◌, ◌^◌, ◌<◌, ◌≤◌, false, true, [], ◌∷◌, ◌++◌, length, slice_index};
ghost use Rattle.std.specs.Prelude.{IsNone, IfSome, IfNone, ◌↔◌, vec_len, vec_capacity, Some};
ghost use Rattle.lane_spec.specs.Counts.{times};
ghost use Rattle.lane_spec.specs.Pairs.{AreBelow};
ghost use Rattle.lane_core.specs.Got.{IfPacket, IfNothing, IfEnd};
ghost use Rattle.lane_core.specs.View.{pairs_in};
ghost use Rattle.lane_core.specs.Seats.{IsRecord, log_of, AreAllBelow, claims_given, IngestBecomes, WorkerBecomes};
ghost use Rattle.lane_core.specs.Seats.{with_claim, with_miss, with_send, with_finish, with_packet, with_nothing};
ghost use Rattle.lane_core.specs.Seats.{with_end, with_release};
ghost use Rattle.lane_table.specs.Rule.{mark_at};
ghost use Rattle.lane_table.specs.Seats.{lane_of, ingest_of, worker_of, IsIngestOf, IsWorkerOf, found_by, empty_finds};
ghost use Rattle.lane_table.specs.Seats.{is_nothing};
ghost use Rattle.lane_table.specs.Steps.{closed_by};

use crate::lane::{IngestSeat, TableLane, WorkerSeat};
use crate::view::{SeatView, Stored};
use crate::words::{add_pair, count_of, place_of};
use atomic_table::Seat;
use brick_base::Raw;
use lane_core::{Got, Log};
use packet_owner::{Buffer, Packet};

impl TableLane {
    /// Claims a buffer, which was in the pool and which the ingest alone then holds. It tries the word behind the one
    /// that gave the last buffer first. `None` comes exactly where the word of each buffer was found taken at a step of
    /// this call, and then at least as many claims as there are buffers gave a buffer.
    pub fn claim(&self, seat: &mut IngestSeat) -> Option<Buffer>
        requires own { IsIngestOf self.now seat.old }
        ensures own { IsIngestOf self.now seat.new }
        ensures buffer { IfSome result (λ b. (b.slot < (lane_of self.now).buffers)
            × (b.room ≡ (lane_of self.now).bytes) × (times b.slot (ingest_of seat.old).held ≡ 0)) }
        ensures given { IfSome result
            (λ b. IngestBecomes (with_claim b.slot (ingest_of seat.old)) (ingest_of seat.new)) }
        ensures missed { IfNone result (IngestBecomes (with_miss (ingest_of seat.old)) (ingest_of seat.new)) }
        ensures all_given { IfNone result ((lane_of self.now).buffers ≤ claims_given (ingest_of seat.old)) }
        ensures exactly { IsNone result
            ↔ ((i : ℕ) → i < (lane_of self.now).buffers → found_by seat.old i < found_by seat.new i) }
    {
        let first = seat.next.min(self.buffers);
        match self.try_all(&mut seat.seat, first) {
            Some(b) => {
                let pushed = seat.held.push(b.slot());
                prove!(pushed.is_ok());
                seat.next = b.slot() + 1;
                Some(b)
            }
            None => {
                seat.missed = seat.missed.saturating_add(1);
                None
            }
        }
    }

    /// Sends the packet to worker `w`, in a buffer that the ingest holds. A ring is never full.
    pub fn send(&self, seat: &mut IngestSeat, w: u32, p: Packet<Raw>)
        requires own { IsIngestOf self.now seat.old }
        requires open_ring { (ingest_of seat.old).finished ≡ false }
        requires held { 0 < times p.slot (ingest_of seat.old).held }
        requires room { p.room ≡ (lane_of self.now).bytes }
        requires of_capture { IsRecord (lane_of self.now).capture p.a p }
        requires rising { AreAllBelow p.a (ingest_of seat.old).sent }
        requires worker { w < length (lane_of self.now).shares }
        requires share { length (log_of (ingest_of seat.old).sent w) < slice_index (lane_of self.now).shares w }
        ensures own { IsIngestOf self.now seat.new }
        ensures sent { IngestBecomes (with_send w p.slot p.a (ingest_of seat.old)) (ingest_of seat.new) }
    {
        let slot = p.slot();
        let (number, _) = p.key();
        let at = place_of(seat.held.as_slice(), slot);
        let count = count_of(seat.sent.as_slice(), w);
        self.take_slot(&mut seat.seat, slot);
        self.put_entry(&mut seat.seat, w, count, p);
        seat.held.remove(at);
        add_pair(&mut seat.sent, w, slot, number as u32);
    }

    /// Puts END behind the last entry of each ring. Nothing is sent after that.
    pub fn finish(&self, seat: &mut IngestSeat)
        requires own { IsIngestOf self.now seat.old }
        requires open_ring { (ingest_of seat.old).finished ≡ false }
        ensures own { IsIngestOf self.now seat.new }
        ensures finished { IngestBecomes (with_finish (ingest_of seat.old)) (ingest_of seat.new) }
    {
        self.put_ends(&mut seat.seat, seat.sent.as_slice());
        seat.finished = true;
    }

    // Puts END into each ring.
    fn put_ends(&self, seat: &mut Seat<Stored, SeatView>, sent: &[Log])
        requires lane { (seat.old.table_id ≡ self.now.table.shared.table_id) × (length sent.now ≡ self.now.workers)
            × (length seat.old.me.0.ends ≡ self.now.workers) }
        requires seat { (0 < length seat.old.me.0.found) × (0 < times 0 seat.old.me.0.roles)
            × (pairs_in sent.now ≡ seat.old.me.0.sent) }
        requires open_rings { (w : ℕ) → w < self.now.workers → mark_at seat.old.me.0.ends w ≡ false }
        ensures same { seat.new.table_id ≡ seat.old.table_id }
        ensures view { seat.new.me ≡ (record seat.old.me.0 { ends = seat.new.me.0.ends }, seat.old.me.1) }
        ensures long { length seat.new.me.0.ends ≡ self.now.workers }
        ensures marks { (w : ℕ) → w < self.now.workers → mark_at seat.new.me.0.ends w ≡ true }
    {
        for w in 0..self.workers {
            let count = count_of(sent, w);
            self.put_end(seat, w, count);
        }
    }

    /// Receives the next packet that was sent to this worker, as it was sent. `Nothing` comes exactly where the next
    /// cell was found empty at the step of this call, and `End` exactly where END was taken.
    pub fn receive(&self, seat: &mut WorkerSeat) -> Got
        requires own { IsWorkerOf self.now seat.old }
        requires not_ended { (worker_of seat.old).ended ≡ false }
        ensures own { IsWorkerOf self.now seat.new }
        ensures packet { IfPacket result (λ p. (p.room ≡ (lane_of self.now).bytes)
            × IsRecord (lane_of self.now).capture p.a p × AreBelow p.a (worker_of seat.old).received) }
        ensures slot { IfPacket result (λ p. (p.slot < (lane_of self.now).buffers)
            × ((lane_of self.now).buffers ≤ 1024)) }
        ensures received { IfPacket result
            (λ p. WorkerBecomes (with_packet p.slot p.a (worker_of seat.old)) (worker_of seat.new)) }
        ensures nothing { IfNothing result (WorkerBecomes (with_nothing (worker_of seat.old)) (worker_of seat.new)) }
        ensures exactly { (is_nothing result ≡ true) ↔ (empty_finds seat.old < empty_finds seat.new) }
        ensures ended { IfEnd result (WorkerBecomes (with_end (worker_of seat.old)) (worker_of seat.new)) }
    {
        let count = seat.received.as_slice().len() as u64;
        let got = self.take_entry(&mut seat.seat, seat.place, count);
        match &got {
            Got::Packet(p) => {
                let (number, _) = p.key();
                seat.received.add(p.slot(), number as u32);
                let pushed = seat.held.push(p.slot());
                prove!(pushed.is_ok());
                seat.idle = false;
            }
            Got::Nothing => seat.idle = true,
            Got::End => {
                seat.ended = true;
                seat.idle = false;
            }
        }
        got
    }

    /// Puts a buffer that the worker holds back into its own slot, and then opens its word.
    pub fn release(&self, seat: &mut WorkerSeat, b: Buffer)
        requires own { IsWorkerOf self.now seat.old }
        requires held { 0 < times b.slot (worker_of seat.old).held }
        requires room { b.room ≡ (lane_of self.now).bytes }
        ensures own { IsWorkerOf self.now seat.new }
        ensures released { WorkerBecomes (with_release b.slot (worker_of seat.old)) (worker_of seat.new) }
    {
        let at = place_of(seat.held.as_slice(), b.slot());
        self.open_word(&mut seat.seat, b);
        seat.held.remove(at);
    }
}
