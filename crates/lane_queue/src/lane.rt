//! A lane on queues, and its seats.
ghost use Rattle.std.specs.Prelude.{◌≡◌, ℕ, ◌+◌, ◌^◌, ◌<◌, ◌≤◌, true, [], All, length, vec_capacity};
ghost use Rattle.crossbeam_queue.specs.Passes.{view, ruled_capacity};
ghost use Rattle.lane_spec.specs.Counts.{times, total};
ghost use Rattle.lane_spec.specs.Pairs.{slots_of};
ghost use Rattle.lane_core.specs.View.{pairs_in};
ghost use Rattle.lane_queue.specs.Lists.{in_logs};

use crate::pool::{Pool, PoolPass};
use crate::ring::{RingPass, RingQueue};
use atomic_table::{Table, TableRule};
use lane_core::Log;
use pcap_io::Capture;
use std::alloc::Global;
use std::fmt;
use std::snapshot::Snapshot;

/// The rule of a table that nobody steps on.
pub struct KeyRule;

impl TableRule<u32, u32, Snapshot<Capture>> for KeyRule {
    ghost holds = { λ key state. Unit {0} };

    ghost first = { λ key. 0 };
}

/// A table of one word that nobody reads. Its key is the capture, of which it takes no copy; threads may share it.
pub type KeyTable = Table<u32, u32, Snapshot<Capture>, KeyRule, Global>;

/// A lane: the queue of its pool, and one for each ring.
#[derive(Drop)]
pub struct QueueLane {
    pub(crate) pool: Pool,
    pub(crate) rings: Vec<RingQueue>,
    pub(crate) key: KeyTable,
    pub(crate) buffers: u32,
    pub(crate) bytes: u32,
    pub(crate) shares: Vec<u32>,
    ghost small: { (1 ≤ buffers) × (buffers ≤ 1024) × (length shares.items ≤ 16) },
    ghost count: { length rings.items ≡ length shares.items },
    // a place for each buffer, and in a ring one more for END
    ghost places: { (ruled_capacity pool ≡ buffers) × All (λ q. ruled_capacity q ≡ buffers + 1) rings.items },
    ghost entries: { length key.shared.key.value.entries < 2 ^ 32 },
}

/// The ingest's seat at a lane.
#[derive(Drop)]
pub struct QueueIngest {
    pub(crate) pass: PoolPass,
    pub(crate) rings: Vec<RingPass>,
    pub(crate) sent: Vec<Log>,
    pub(crate) held: Vec<u32>,
    pub(crate) missed: u64,
    pub(crate) finished: bool,
    // how often it found the pool empty
    pub(crate) finds: u64,
    // what the lane's Book takes over
    pub(crate) home: Vec<u32>,
    pub(crate) received: Vec<Log>,
    ghost may: { (0 < (view pass).parts) × ((view pass).takes ≡ true) },
    // what it claimed are the slots that it sent and those that it holds, each as often
    ghost claimed: { (i : ℕ) → times i (view pass).taken ≡ in_logs i (pairs_in sent.items) + times i held.items },
    ghost claims: { length (view pass).taken
        ≡ total (λ pairs. length pairs) (pairs_in sent.items) + length held.items },
}

/// A worker's seat at a lane.
#[derive(Drop)]
pub struct QueueWorker {
    pub(crate) pass: PoolPass,
    pub(crate) ring: RingPass,
    pub(crate) place: u32,
    pub(crate) received: Log,
    pub(crate) held: Vec<u32>,
    pub(crate) ended: bool,
    pub(crate) idle: bool,
    // how often it found its ring empty
    pub(crate) finds: u64,
    ghost given: { ((view pass).parts ≡ 1) × ((view pass).taken ≡ []) },
    // what it received are the slots that it released and those that it holds, each as often
    ghost slots: { (i : ℕ) → times i (view pass).put + times i held.items ≡ times i (slots_of received.pairs) },
    ghost room: { 32 ≤ vec_capacity held },
}

/// Its numbers, and not its queues.
impl fmt::Debug for QueueLane {
    fn fmt<W: fmt::Write>(&self, f: &mut fmt::Formatter<W>) -> fmt::Result {
        f.debug_struct("QueueLane")
            .field("buffers", &self.buffers)
            .field("bytes", &self.bytes)
            .field("workers", &self.shares.len())
            .finish_non_exhaustive()
    }
}

/// The slots that it holds, and not what it sent.
impl fmt::Debug for QueueIngest {
    fn fmt<W: fmt::Write>(&self, f: &mut fmt::Formatter<W>) -> fmt::Result {
        f.debug_struct("QueueIngest")
            .field("held", &self.held)
            .field("missed", &self.missed)
            .field("finished", &self.finished)
            .field("finds", &self.finds)
            .finish_non_exhaustive()
    }
}

/// How many records it received, and not which.
impl fmt::Debug for QueueWorker {
    fn fmt<W: fmt::Write>(&self, f: &mut fmt::Formatter<W>) -> fmt::Result {
        f.debug_struct("QueueWorker")
            .field("place", &self.place)
            .field("received", &self.received.as_slice().len())
            .field("held", &self.held)
            .field("ended", &self.ended)
            .field("idle", &self.idle)
            .field("finds", &self.finds)
            .finish_non_exhaustive()
    }
}
