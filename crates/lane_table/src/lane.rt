//! A lane on a table, and its seats.
ghost use Rattle.std.specs.Prelude.{◌≡◌, ℕ, ◌+◌, ◌*◌, ◌^◌, ◌<◌, ◌≤◌, [], ◌∷◌, length, vec_capacity};
ghost use Rattle.lane_spec.specs.Counts.{times, total};
ghost use Rattle.lane_core.specs.View.{pairs_in};
ghost use Rattle.lane_core.specs.Seats.{log_of};
ghost use Rattle.lane_table.specs.Rule.{mark_at};

use crate::plays::LaneRule;
use crate::view::{LaneKey, SeatView, Stored};
use atomic_table::{Seat, Table};
use lane_core::Log;
use std::alloc::Global;
use std::fmt;

/// A lane: its pool of buffers and its rings, on one table.
#[derive(Drop)]
pub struct TableLane {
    pub(crate) table: Table<Stored, SeatView, LaneKey, LaneRule, Global>,
    pub(crate) buffers: u32,
    pub(crate) bytes: u32,
    pub(crate) workers: u32,
    // what its Book takes over
    pub(crate) home: Vec<u32>,
    pub(crate) received: Vec<Log>,
    ghost small: { (1 ≤ buffers) × (buffers ≤ 1024) × (1 ≤ workers) × (workers ≤ 16) },
    ghost key: { (table.shared.key.buffers ≡ buffers) × (table.shared.key.bytes ≡ bytes)
        × (table.shared.key.workers ≡ workers) },
    ghost sized: { (table.shared.table_id.words ≡ buffers + workers * (buffers + 1))
        × (table.shared.table_id.slots ≡ buffers) },
    ghost shares: { length table.shared.key.shares.value.items ≡ workers },
    ghost entries: { length table.shared.key.capture.value.entries < 2 ^ 32 },
    ghost book: { (home.items ≡ []) × (received.items ≡ []) × (buffers ≤ vec_capacity home)
        × (workers ≤ vec_capacity received) },
}

/// The ingest's seat at a lane.
#[derive(Drop)]
pub struct IngestSeat {
    pub(crate) seat: Seat<Stored, SeatView>,
    pub(crate) sent: Vec<Log>,
    pub(crate) held: Vec<u32>,
    pub(crate) missed: u64,
    pub(crate) finished: bool,
    // the word that the next claim tries first
    pub(crate) next: u32,
    ghost role: { seat.me.0.roles ≡ 0 ∷ [] },
    ghost rest: { (seat.me.1 ≡ []) × (seat.me.0.out ≡ []) },
    ghost counts: { (length seat.me.0.found ≡ seat.table_id.slots) × (0 < seat.table_id.slots) },
    ghost logs: { pairs_in sent.items ≡ seat.me.0.sent },
    ghost long: { (length seat.me.0.ends ≡ length sent.items) × (length seat.me.0.received ≡ length sent.items)
        × (length seat.me.0.ended ≡ length sent.items) },
    ghost marks: { (w : ℕ) → w < length sent.items → mark_at seat.me.0.ends w ≡ finished },
    ghost list: { held.items ≡ seat.me.0.held },
    ghost below: { (i : ℕ) → seat.table_id.slots ≤ i → times i seat.me.0.held ≡ 0 },
    ghost room: { seat.table_id.slots ≤ vec_capacity held },
    ghost claims: { length seat.me.0.claimed ≡ total (λ pairs. length pairs) seat.me.0.sent + length seat.me.0.held },
}

/// A worker's seat at a lane.
#[derive(Drop)]
pub struct WorkerSeat {
    pub(crate) seat: Seat<Stored, SeatView>,
    pub(crate) place: u32,
    pub(crate) received: Log,
    pub(crate) held: Vec<u32>,
    pub(crate) ended: bool,
    pub(crate) idle: bool,
    ghost role: { seat.me.0.roles ≡ (place + 1) ∷ [] },
    ghost rest: { (seat.me.1 ≡ []) × (seat.me.0.out ≡ []) },
    ghost counts: { (length seat.me.0.found ≡ seat.table_id.slots) × (0 < seat.table_id.slots) },
    ghost log: { received.pairs ≡ log_of seat.me.0.received place },
    ghost mark: { mark_at seat.me.0.ended place ≡ ended },
    ghost long: { (place < length seat.me.0.received) × (place < length seat.me.0.ended)
        × (place < length seat.me.0.empty) },
    ghost list: { held.items ≡ seat.me.0.held },
    ghost below: { (i : ℕ) → seat.table_id.slots ≤ i → times i seat.me.0.held ≡ 0 },
    ghost room: { seat.table_id.slots ≤ vec_capacity held },
}

/// Its numbers, and not its table.
impl fmt::Debug for TableLane {
    fn fmt<W: fmt::Write>(&self, f: &mut fmt::Formatter<W>) -> fmt::Result {
        f.debug_struct("TableLane")
            .field("buffers", &self.buffers)
            .field("bytes", &self.bytes)
            .field("workers", &self.workers)
            .finish_non_exhaustive()
    }
}

/// The slots that it holds, and not what it sent.
impl fmt::Debug for IngestSeat {
    fn fmt<W: fmt::Write>(&self, f: &mut fmt::Formatter<W>) -> fmt::Result {
        f.debug_struct("IngestSeat")
            .field("held", &self.held)
            .field("missed", &self.missed)
            .field("finished", &self.finished)
            .field("next", &self.next)
            .finish_non_exhaustive()
    }
}

/// How many records it received, and not which.
impl fmt::Debug for WorkerSeat {
    fn fmt<W: fmt::Write>(&self, f: &mut fmt::Formatter<W>) -> fmt::Result {
        f.debug_struct("WorkerSeat")
            .field("place", &self.place)
            .field("received", &self.received.as_slice().len())
            .field("held", &self.held)
            .field("ended", &self.ended)
            .field("idle", &self.idle)
            .finish_non_exhaustive()
    }
}

impl IngestSeat {
    ghost use Rattle.lane_table.specs.Seats.{ingest_of};

    /// The slots that it holds, in the order in which it claimed them.
    pub fn held(&self) -> &[u32]
        ensures { result.now ≡ (ingest_of self.now).held }
    {
        self.held.as_slice()
    }

    /// How many of its claims answered None, counted up to 2^64 - 1.
    pub fn missed(&self) -> u64
        ensures { result ≡ (ingest_of self.now).missed }
    {
        self.missed
    }
}

impl WorkerSeat {
    ghost use Rattle.lane_table.specs.Seats.{worker_of};

    /// The slots that it holds, in the order in which it received them.
    pub fn held(&self) -> &[u32]
        ensures { result.now ≡ (worker_of self.now).held }
    {
        self.held.as_slice()
    }

    /// The slots and numbers that it received, in order.
    pub fn received(&self) -> &Log
        ensures { result.now.pairs ≡ (worker_of self.now).received }
    {
        &self.received
    }
}
