// What a slot holds, what the table is told when it is made, and what a seat knows.
use brick_base::Raw;
use packet_owner::{Buffer, Packet};
use pcap_io::Capture;
use std::collections::LinkedList;
use std::fmt;
use std::snapshot::Snapshot;

/// What a slot holds.
#[derive(Debug, Drop)]
pub enum Stored {
    /// Its buffer is with a seat.
    Empty,
    /// Its buffer is in the pool.
    Free(Buffer),
    /// Its buffer was sent, and not received.
    Filled(Packet<Raw>),
}

/// What a lane's table is told when it is made.
#[derive(Drop)]
pub struct LaneKey {
    pub buffers: u32,
    pub bytes: u32,
    pub workers: u32,
    pub capture: Snapshot<Capture>,
    /// Worker by worker, how many records may be sent to it.
    pub shares: Snapshot<Vec<u32>>,
}

/// Its numbers: snapshots are not read.
impl fmt::Debug for LaneKey {
    fn fmt<W: fmt::Write>(&self, f: &mut fmt::Formatter<W>) -> fmt::Result {
        f.debug_struct("LaneKey")
            .field("buffers", &self.buffers)
            .field("bytes", &self.bytes)
            .field("workers", &self.workers)
            .finish_non_exhaustive()
    }
}

/// What a seat knows. No value of it is made. Each list of lists has one list for each ring.
pub struct SeatView {
    /// 0 is the ingest, and w + 1 the worker w.
    pub roles: LinkedList<u32>,
    /// The slots that it holds.
    pub held: LinkedList<u32>,
    /// The slots that are in the seat's own list of slots.
    pub out: LinkedList<u32>,
    /// What the ingest has claimed.
    pub claimed: LinkedList<u32>,
    /// The pairs of a slot and a number, ring by ring.
    pub sent: LinkedList<LinkedList<(u32, u64)>>,
    pub received: LinkedList<LinkedList<(u32, u64)>>,
    /// Whether END was put, and taken, ring by ring.
    pub ends: LinkedList<bool>,
    pub ended: LinkedList<bool>,
    /// How often a word was found taken, word by word, and how often a next cell was found empty, ring by ring.
    pub found: LinkedList<u64>,
    pub empty: LinkedList<u64>,
    /// What the lane was made with, and nothing in a seat that gave its roles away.
    pub about: Option<LaneKey>,
}
