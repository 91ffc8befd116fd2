// How a lane ends.
ghost use Rattle.std.specs.Prelude.{◌≡◌, ◌≢◌, ℕ, ◌+◌, ◌<◌, ◌≤◌, true, [], ◌∷◌, ◌++◌, map, length, nat_lt, slice_get};
ghost use Rattle.std.specs.Prelude.{Some, vec_capacity};
ghost use Rattle.crossbeam_queue.specs.Passes.{view, IsPassOf};
ghost use Rattle.lane_spec.specs.Counts.{times, one_if, IsEachOnce};
ghost use Rattle.lane_core.specs.Seats.{log_of, IsBookOf};
ghost use Rattle.lane_core.specs.View.{book_view, pairs_in};
ghost use Rattle.lane_queue.specs.PoolRule.{both_parts};
ghost use Rattle.lane_queue.specs.Lists.{Each};
ghost use Rattle.lane_queue.specs.Seats.{lane_of, ingest_of, worker_of, IsIngestOf, IsWorkerOf, IsSender};
ghost use Rattle.lane_queue.specs.Ends.{AreEndedFrom, HasJoined, logs_of};

use crate::lane::{QueueIngest, QueueLane, QueueWorker};
use crate::pool::{Pool, PoolPass, take};
use crate::pool_rule::{All, Part};
use crate::ring_rule::{Both, Done};
use crate::words::{add_log, add_slot};
use brick_base::Numbers;
use lane_core::Book;
use std::sync::Wait;

/// Takes each buffer out of the pool and retires it, and lists the slots.
fn emptied<R: Wait>(
    rt: &R,
    pool: &Pool,
    pass: &mut PoolPass,
    buffers: u32,
    mut home: Vec<u32>,
) -> Vec<u32>
    requires pass { IsPassOf pool.now pass.old × ((view pass.old).parts ≡ 1024) × ((view pass.old).takes ≡ true) }
    requires left { (i : ℕ) → times i (view pass.old).put ≡ one_if (nat_lt i buffers) + times i (view pass.old).taken }
    requires room { (buffers ≤ vec_capacity home) × (home.items ≡ []) }
    ensures { IsEachOnce buffers result.items }
{
    for done in 0..buffers {
        match take(rt, pool, pass) {
            Some(b) => {
                add_slot(&mut home, b.slot());
                b.retire();
            }
            None => unreachable!(),
        }
    }
    pool.learn_as::<All>(pass);
    home
}

impl QueueLane {
    /// Takes the passes of a worker that took END into those of the ingest, and lists what the worker received.
    fn join_worker(&self, seat: &mut QueueIngest, worker: QueueWorker)
        requires pool { IsPassOf self.now.pool seat.old.pass }
        requires passes { length seat.old.rings.items ≡ length self.now.shares.items }
        requires worker { IsWorkerOf self.now worker × (worker.ended ≡ true) }
        requires ring { Each (λ w q p. w ≡ worker.place
            → IsSender (lane_of self.now) w (log_of (pairs_in seat.old.sent.items) w) true q p) self.now.rings.items
            seat.old.rings.items }
        requires room { length seat.old.received.items < vec_capacity seat.old.received }
        ensures same { worker.received.pairs ≡ log_of (pairs_in seat.old.sent.items) worker.place }
        ensures received { (seat.new.received.items ≡ seat.old.received.items ++ worker.received ∷ [])
            × (vec_capacity seat.old.received ≤ vec_capacity seat.new.received) }
        ensures kept { (seat.new.sent ≡ seat.old.sent) × (seat.new.held ≡ seat.old.held)
            × (seat.new.missed ≡ seat.old.missed) × (seat.new.home ≡ seat.old.home) }
        ensures pool { IsPassOf self.now.pool seat.new.pass
            × (view seat.new.pass ≡ both_parts (view seat.old.pass) (view worker.pass)) }
        ensures long { length seat.new.rings.items ≡ length self.now.shares.items }
        ensures others { (w : ℕ) → w ≢ worker.place
            → slice_get seat.new.rings.items w ≡ slice_get seat.old.rings.items w }
    {
        let QueueWorker {
            pass,
            ring,
            place,
            received,
            held: _,
            ended: _,
            idle: _,
            finds: _,
        } = worker;
        self.pool.absorb::<Part>(&mut seat.pass, pass);
        let queue = &self.rings[place as usize];
        let both = &mut seat.rings[place as usize];
        queue.absorb::<Both>(both, ring);
        queue.learn_as::<Done>(both);
        add_log(&mut seat.received, received);
    }

    /// Takes in the seats of all workers.
    fn join_all(&self, seat: &mut QueueIngest, mut workers: Vec<QueueWorker>)
        requires count { length workers.items ≡ length self.now.shares.items }
        requires workers { AreEndedFrom self.now 0 workers.items }
        requires ingest { HasJoined self.now 0 seat.old }
        ensures received { pairs_in seat.new.received.items ≡ logs_of workers.items }
        ensures kept { (seat.new.sent ≡ seat.old.sent) × (seat.new.held ≡ seat.old.held)
            × (seat.new.missed ≡ seat.old.missed) }
        ensures joined { HasJoined self.now (length workers.items) seat.new }
    {
        let count = workers.len();
        for done in 0..count {
            let worker = workers.remove(0);
            self.join_worker(seat, worker);
        }
    }

    /// Ends the lane with all its seats. The buffers are retired, and what it did is its Book. It takes no memory.
    pub(crate) fn shut<R: Wait>(
        self,
        rt: &R,
        mut ingest: QueueIngest,
        workers: Vec<QueueWorker>,
    ) -> Book
        requires ingest { IsIngestOf self ingest × (ingest.finished ≡ true) × (ingest.held.items ≡ []) }
        requires count { length workers.items ≡ length self.shares.items }
        requires workers { (w : ℕ) (x : QueueWorker) → slice_get workers.items w ≡ Some x
            → IsWorkerOf self x × ((worker_of x).place ≡ w) × ((worker_of x).ended ≡ true) × ((worker_of x).held ≡ []) }
        ensures { IsBookOf (lane_of self) (ingest_of ingest) (map (λ x. (worker_of x).received) workers.items)
            (book_view result) }
    {
        self.join_all(&mut ingest, workers);
        let QueueIngest {
            mut pass,
            rings: _,
            sent,
            held: _,
            missed,
            finished: _,
            finds: _,
            home,
            received,
        } = ingest;
        let home = emptied(rt, &self.pool, &mut pass, self.buffers, home);
        Book {
            buffers: self.buffers,
            sent,
            received,
            home: Numbers::of(home),
            missed,
        }
    }
}
