// How a lane starts.
ghost use Rattle.std.specs.Prelude.{◌≡◌, ℕ, ◌+◌, ◌-◌, ◌^◌, ◌<◌, ◌≤◌, false, [], All, length, replicate, slice_get};
ghost use Rattle.std.specs.Prelude.{slice_index, Some, IfOk, OnOk, vec_capacity};
ghost use Rattle.crossbeam_queue.specs.Passes.{view, IsPassOf, ruled_capacity};
ghost use Rattle.lane_core.specs.Seats.{IsNewIngest, IsNewWorker};
ghost use Rattle.lane_core.specs.View.{pairs_in};
ghost use Rattle.lane_queue.specs.PoolRule.{filled_view};
ghost use Rattle.lane_queue.specs.RingRule.{sender_view, getter_view};
ghost use Rattle.lane_queue.specs.Lists.{Each, rooms_in};
ghost use Rattle.lane_queue.specs.Seats.{lane_of, ingest_of, worker_of, about_of, IsIngestOf, IsWorkerOf, IsNewPass};
ghost use Rattle.lane_queue.specs.Seats.{IsSender, IsGetter};
ghost use Rattle.lane_queue.specs.Starts.{AreNewWorkers};

use crate::lane::{KeyTable, QueueIngest, QueueLane, QueueWorker};
use crate::pool::{Pool, PoolPass};
use crate::pool_rule::{Fill, Part};
use crate::ring::{RingPass, RingQueue};
use crate::ring_rule::{Opens, RingKey};
use brick_base::NoMemory;
use lane_core::{Log, Started};
use packet_owner::Buffer;
use pcap_io::Capture;
use std::alloc::Global;
use std::marker::Brand;
use std::snapshot::Snapshot;
use std::sync::Wait;

/// A table whose key is the capture.
fn lane_key(alloc: Global, capture: &Capture) -> Result<KeyTable, NoMemory>
    ensures { IfOk result (λ t. t.shared.key.value ≡ capture.now) }
{
    let (table, _) = KeyTable::of_words(alloc, &[0], &Snapshot::of(capture))?;
    Ok(table)
}

/// A pool with its buffers, and the one pass of it.
fn full_pool<R: Wait>(
    rt: &R,
    alloc: Global,
    buffers: u32,
    bytes: u32,
) -> Result<(Pool, PoolPass), NoMemory>
    requires { 1 ≤ buffers }
    ensures places { IfOk result (λ r. ruled_capacity r.0 ≡ buffers) }
    ensures full { IfOk result (λ r. IsPassOf r.0 r.1 × (view r.1 ≡ filled_view 1024 bytes buffers)) }
{
    let (pool, mut pass) = Pool::ruled(alloc, buffers as usize)?;
    for i in 0..buffers {
        let buffer = Buffer::new(alloc, i, bytes)?;
        match pool.push_as::<Fill, R>(rt, &mut pass, buffer) {
            Ok(()) => {}
            Err(_) => unreachable!(),
        }
    }
    Ok((pool, pass))
}

/// A ring for each worker, and the one pass of each.
fn new_rings(
    alloc: Global,
    buffers: u32,
    workers: usize,
) -> Result<(Vec<RingQueue>, Vec<RingPass>), NoMemory>
    ensures count { IfOk result (λ r. (length r.0.items ≡ workers) × (length r.1.items ≡ workers)) }
    ensures places { IfOk result (λ r. All (λ q. ruled_capacity q ≡ buffers + 1) r.0.items) }
    ensures new { IfOk result (λ r. Each (λ w q p. IsNewPass q p) r.0.items r.1.items) }
{
    let places = buffers as usize + 1;
    let mut rings = Vec::with_capacity(alloc, workers)?;
    let mut passes = Vec::with_capacity(alloc, workers)?;
    for w in 0..workers {
        let (ring, pass) = RingQueue::ruled(alloc, places)?;
        rings.push(ring)?;
        passes.push(pass)?;
    }
    Ok((rings, passes))
}

/// The worker's pass of ring `w`. The ingest keeps the one that sends.
fn split_ring<K: RingKey>(
    lane: &QueueLane,
    w: usize,
    ring: &RingQueue,
    pass: &mut RingPass,
) -> RingPass
    requires key { K.about ≡ Some (about_of lane.now w) }
    requires pass { IsNewPass ring.now pass.old }
    ensures passes { IsPassOf ring.now pass.new × IsPassOf ring.now result }
    ensures views { (view pass.new ≡ sender_view [] false (about_of lane.now w))
        × (view result ≡ getter_view [] false (about_of lane.now w)) }
{
    ring.another::<Opens<K>>(pass)
}

/// The same, of a ring that is made with what the lane says.
fn open_ring(lane: &QueueLane, w: usize, ring: &RingQueue, pass: &mut RingPass) -> RingPass
    requires pass { IsNewPass ring.now pass.old }
    ensures sender { IsSender (lane_of lane.now) w [] false ring.now pass.new }
    ensures getter { IsGetter (lane_of lane.now) w [] false ring.now result }
{
    split_ring::<Brand>(lane, w, ring, pass)
}

/// A log for each worker, with room for its share.
fn empty_logs(alloc: Global, shares: &[u32]) -> Result<Vec<Log>, NoMemory>
    ensures count { IfOk result (λ v. length v.items ≡ length shares.now) }
    ensures empty { IfOk result (λ v. pairs_in v.items ≡ replicate (length shares.now) []) }
    ensures rooms { IfOk result (λ v. (w : ℕ) → slice_index shares.now w ≤ slice_index (rooms_in v.items) w) }
{
    let mut logs = Vec::with_capacity(alloc, shares.len())?;
    for w in 0..shares.len() {
        let log = Log::with_room(alloc, shares[w])?;
        logs.push(log)?;
    }
    Ok(logs)
}

impl QueueLane {
    /// The workers' seats, in order. The ingest keeps the other half of each ring, and the other parts of the pool.
    fn seat_workers(
        &self,
        alloc: Global,
        first: &mut PoolPass,
        passes: &mut Vec<RingPass>,
    ) -> Result<Vec<QueueWorker>, NoMemory>
        requires pool { IsPassOf self.now.pool first.old
            × (view first.old ≡ filled_view 1024 self.now.bytes self.now.buffers) }
        requires count { length passes.old.items ≡ length self.now.shares.items }
        requires rings { Each (λ w q p. IsNewPass q p) self.now.rings.items passes.old.items }
        ensures pool { OnOk result (IsPassOf self.now.pool first.new
            × (view first.new ≡ filled_view (1024 - length self.now.shares.items) self.now.bytes self.now.buffers)) }
        ensures rest { OnOk result (length passes.new.items ≡ length self.now.shares.items) }
        ensures rings { OnOk result
            (Each (λ w q p. IsSender (lane_of self.now) w [] false q p) self.now.rings.items passes.new.items) }
        ensures count { IfOk result (λ v. length v.items ≡ length self.now.shares.items) }
        ensures workers { IfOk result (λ v. AreNewWorkers self.now v.items) }
    {
        let mut workers = Vec::with_capacity(alloc, self.shares.len())?;
        for w in 0..self.shares.len() {
            let received = Log::with_room(alloc, self.shares[w])?;
            let held = Vec::with_capacity(alloc, 32)?;
            let queue = &self.rings[w];
            let whole = &mut passes[w];
            let ring = open_ring(self, w, queue, whole);
            let pass = self.pool.another::<Part>(first);
            let worker = QueueWorker {
                pass,
                ring,
                place: w as u32,
                received,
                held,
                ended: false,
                idle: false,
                finds: 0,
            };
            workers.push(worker)?;
        }
        Ok(workers)
    }

    /// The ingest's seat.
    fn seat_ingest(
        &self,
        alloc: Global,
        pass: PoolPass,
        rings: Vec<RingPass>,
    ) -> Result<QueueIngest, NoMemory>
        requires pool { IsPassOf self.now.pool pass
            × (view pass ≡ filled_view (1024 - length self.now.shares.items) self.now.bytes self.now.buffers) }
        requires count { length rings.items ≡ length self.now.shares.items }
        requires rings { Each (λ w q p. IsSender (lane_of self.now) w [] false q p) self.now.rings.items rings.items }
        ensures { IfOk result (λ i. IsIngestOf self.now i × IsNewIngest (length self.now.shares.items) (ingest_of i)) }
    {
        let sent = empty_logs(alloc, self.shares.as_slice())?;
        let held = Vec::with_capacity(alloc, self.buffers as usize)?;
        let home = Vec::with_capacity(alloc, self.buffers as usize)?;
        let received = Vec::with_capacity(alloc, self.shares.len())?;
        Ok(QueueIngest {
            pass,
            rings,
            sent,
            held,
            missed: 0,
            finished: false,
            finds: 0,
            home,
            received,
        })
    }

    /// A lane with so many buffers of so many bytes each, all in the pool, and its seats. It takes all the memory that
    /// the lane needs.
    pub(crate) fn start<R: Wait>(
        rt: &R,
        alloc: Global,
        capture: &Capture,
        buffers: u32,
        bytes: u32,
        shares: &[u32],
    ) -> Result<Started<QueueLane, QueueIngest, QueueWorker>, NoMemory>
        requires buffers { (1 ≤ buffers) × (buffers ≤ 1024) }
        requires shares { (1 ≤ length shares.now) × (length shares.now ≤ 16) }
        ensures lane { IfOk result (λ s. lane_of s.lane
            ≡ record { capture = capture.now; buffers = buffers; bytes = bytes; shares = shares.now }) }
        ensures ingest { IfOk result (λ s. IsIngestOf s.lane s.ingest
            × IsNewIngest (length shares.now) (ingest_of s.ingest)) }
        ensures count { IfOk result (λ s. length s.workers.items ≡ length shares.now) }
        ensures workers { IfOk result (λ s. (w : ℕ) (x : QueueWorker) → slice_get s.workers.items w ≡ Some x
            → IsWorkerOf s.lane x × IsNewWorker w (worker_of x)) }
    {
        let (pool, mut first) = full_pool(rt, alloc, buffers, bytes)?;
        let (rings, mut passes) = new_rings(alloc, buffers, shares.len())?;
        let count = capture.count();
        let lane = QueueLane {
            pool,
            rings,
            key: lane_key(alloc, capture)?,
            buffers,
            bytes,
            shares: shares.to_vec(alloc)?,
        };
        let workers = lane.seat_workers(alloc, &mut first, &mut passes)?;
        let ingest = lane.seat_ingest(alloc, first, passes)?;
        Ok(Started {
            lane,
            ingest,
            workers,
        })
    }
}
