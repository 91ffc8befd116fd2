// How a lane ends.
ghost use Rattle.std.specs.Prelude.{◌≡◌, ℕ, ◌+◌, ◌<◌, ◌≤◌, true, [], ◌∷◌, ◌++◌, map, length, slice_get, Some};
ghost use Rattle.std.specs.Prelude.{vec_capacity};
ghost use mathlib.Core.Option.{some};
ghost use lib.ListN.{get_elem?};
ghost use Rattle.std.specs.Slots.{slots_items, slots_len, IsFull};
ghost use Rattle.packet_owner.specs.declared.buffer.Buffer.{Buffer};
ghost use Rattle.lane_core.specs.Seats.{IsBookOf};
ghost use Rattle.lane_core.specs.View.{book_view, pairs_in};
ghost use Rattle.lane_table.specs.declared.view.Stored.TheVariants.{Free};
ghost use Rattle.lane_table.specs.Rule.{numbers_from};
ghost use Rattle.lane_table.specs.Seats.{lane_of, ingest_of, worker_of, IsIngestOf, IsWorkerOf};
ghost use Rattle.lane_table.specs.Ends.{AreEndedFrom, HasJoined, logs_of};

use crate::lane::{IngestSeat, TableLane, WorkerSeat};
use crate::plays::{LaneRule, RoleOf};
use crate::view::{LaneKey, SeatView, Stored};
use atomic_table::{Closed, Seat, Table};
use brick_base::Numbers;
use lane_core::{Book, Log};
use std::alloc::Global;

/// Puts a log behind the others, where there is room.
fn add_log(logs: &mut Vec<Log>, log: Log)
    requires { length logs.old.items < vec_capacity logs.old }
    ensures items { logs.new.items ≡ logs.old.items ++ log ∷ [] }
    ensures room { vec_capacity logs.old ≤ vec_capacity logs.new }
{
    let done = logs.push(log);
    done.unwrap();
}

/// All seats in one, and what the workers received, worker by worker.
fn join_all(
    table: &Table<Stored, SeatView, LaneKey, LaneRule, Global>,
    all: &mut Seat<Stored, SeatView>,
    mut workers: Vec<WorkerSeat>,
    received: &mut Vec<Log>,
)
    requires table { (0 < table.now.shared.table_id.words) × (all.old.table_id ≡ table.now.shared.table_id) }
    requires none { received.old.items ≡ [] }
    requires room { length workers.items ≤ vec_capacity received.old }
    requires workers { AreEndedFrom table.now.shared.table_id 0 workers.items }
    requires ingest { HasJoined (length workers.items) 0 all.old.me.0.sent [] all.old.me.0 }
    ensures table { all.new.table_id ≡ table.now.shared.table_id }
    ensures received { pairs_in received.new.items ≡ logs_of workers.items }
    ensures joined { HasJoined (length workers.items) (length workers.items) all.old.me.0.sent
        (pairs_in received.new.items) all.new.me.0 }
{
    let count = workers.len();
    for done in 0..count {
        let worker = workers.remove(0);
        let WorkerSeat {
            seat,
            place: _,
            received: log,
            held: _,
            ended: _,
            idle: _,
        } = worker;
        table.shared.join_seat::<RoleOf>(all, seat);
        add_log(received, log);
    }
}

/// Takes each buffer out of its slot and retires it, and lists the slots.
fn emptied(mut closed: Closed<Stored, Global>, buffers: u32, mut home: Vec<u32>) -> Vec<u32>
    requires row { (slots_len closed.slots ≡ buffers) × IsFull closed.slots }
    requires full { (i : ℕ) → i < buffers
        → (b : Buffer) × (get_elem? (slots_items closed.slots) i ≡ some (Free b)) × (b.slot ≡ i) }
    requires room { (buffers ≤ vec_capacity home) × (home.items ≡ []) }
    ensures { result.items ≡ numbers_from 0 buffers }
{
    for i in 0..buffers {
        match closed.take(i as usize) {
            Stored::Free(b) => {
                let pushed = home.push(b.slot());
                prove!(pushed.is_ok());
                b.retire();
            }
            _ => unreachable!(),
        }
    }
    closed.free();
    home
}

impl TableLane {
    /// Ends the lane with all its seats. The buffers are retired, and what it did is its Book. It takes no memory.
    pub(crate) fn shut(self, ingest: IngestSeat, workers: Vec<WorkerSeat>) -> Book
        requires ingest { IsIngestOf self ingest × ((ingest_of ingest).held ≡ []) }
        requires count { length workers.items ≡ length (lane_of self).shares }
        requires workers { (w : ℕ) (x : WorkerSeat) → slice_get workers.items w ≡ Some x
            → IsWorkerOf self x × ((worker_of x).place ≡ w) × ((worker_of x).ended ≡ true) × ((worker_of x).held ≡ []) }
        ensures { IsBookOf (lane_of self) (ingest_of ingest) (map (λ x. (worker_of x).received) workers.items)
            (book_view result) }
    {
        let IngestSeat {
            seat: mut all,
            sent,
            held: _,
            missed,
            finished: _,
            next: _,
        } = ingest;
        let TableLane {
            table,
            buffers,
            bytes: _,
            workers: _,
            home,
            mut received,
        } = self;
        join_all(&table, &mut all, workers, &mut received);
        let home = emptied(table.close_with(all), buffers, home);
        Book {
            buffers,
            sent,
            received,
            home: Numbers::of(home),
            missed,
        }
    }
}
