//! The kit of lanes on queues.
ghost use Rattle.std.specs.Prelude.{◌≡◌, ℕ, ◌+◌, ◌<◌, ◌≤◌, true, List, [], ◌∷◌, ◌++◌, map, length, slice_get, Some};
ghost use Rattle.std.specs.Prelude.{vec_len, vec_capacity};

use crate::lane::{QueueIngest, QueueLane, QueueWorker};
use crate::pool::{put, take};
use crate::ring::{pop, push};
use crate::ring_rule::Item;
use crate::words::{add_pair, add_slot, place_of};
use brick_base::{NoMemory, Raw};
use lane_core::{Book, Got, LaneKit, Started};
use packet_owner::{Buffer, Packet};
use pcap_io::Capture;
use std::alloc::Global;
use std::sync::Wait;

/// Makes lanes on ruled queues. Its calls may wait.
#[derive(Debug, Drop)]
pub struct QueueKit {
    books: Vec<Book>,
    open_lanes: usize,
    ghost room: { vec_len books + open_lanes ≤ vec_capacity books },
}

impl QueueKit {
    ghost use Rattle.lane_queue.specs.Kits.{books_of, open_lanes_of};

    /// A kit with no Books and no open lanes. It takes no memory.
    pub fn new(alloc: Global) -> QueueKit
        ensures { (books_of result ≡ []) × (open_lanes_of result ≡ 0) }
    {
        QueueKit {
            books: Vec::new(alloc),
            open_lanes: 0,
        }
    }
}

/// Puts a Book behind the others, where there is room.
fn add_book(books: &mut Vec<Book>, book: Book)
    requires { vec_len books.old < vec_capacity books.old }
    ensures items { books.new.items ≡ books.old.items ++ book ∷ [] }
    ensures room { vec_capacity books.old ≤ vec_capacity books.new }
{
    let done = books.push(book);
    done.unwrap();
}

impl LaneKit for QueueKit {
    ghost use Rattle.std.specs.Prelude.{◌≡◌, ℕ, ◌+◌, ◌<◌, true, List, [], ◌∷◌, ◌++◌, map, length, slice_get, Some};
    ghost use Rattle.lane_spec.specs.LaneBook.{LaneBook};
    ghost use Rattle.lane_core.specs.Seats.{IsBookOf};
    ghost use Rattle.lane_queue.specs.Kits.{books_of, open_lanes_of};
    ghost use Rattle.lane_queue.specs.Seats.{lane_of, ingest_of, worker_of, IsIngestOf, IsWorkerOf};

    type Lane = QueueLane;

    type Ingest = QueueIngest;

    type Worker = QueueWorker;

    ghost books = { books_of };

    ghost open_lanes = { open_lanes_of };

    ghost lane_facts = { lane_of };

    ghost is_ingest_of = { IsIngestOf };

    ghost is_worker_of = { IsWorkerOf };

    ghost ingest_facts = { ingest_of };

    ghost worker_facts = { worker_of };

    fn start<R: Wait>(
        &mut self,
        rt: &R,
        alloc: Global,
        capture: &Capture,
        buffers: u32,
        bytes: u32,
        shares: &[u32],
    ) -> Result<Started<QueueLane, QueueIngest, QueueWorker>, NoMemory> {
        self.books.reserve(self.open_lanes + 1)?;
        let started = QueueLane::start(rt, alloc, capture, buffers, bytes, shares)?;
        self.open_lanes += 1;
        Ok(started)
    }

    fn claim<R: Wait>(rt: &R, lane: &QueueLane, seat: &mut QueueIngest) -> Option<Buffer> {
        match take(rt, &lane.pool, &mut seat.pass) {
            Some(b) => {
                add_slot(&mut seat.held, b.slot());
                Some(b)
            }
            None => {
                seat.missed = seat.missed.saturating_add(1);
                seat.finds = seat.finds.saturating_add(1);
                None
            }
        }
    }

    fn send<R: Wait>(rt: &R, lane: &QueueLane, seat: &mut QueueIngest, w: u32, p: Packet<Raw>) {
        let slot = p.slot();
        let (number, _) = p.key();
        let at = place_of(seat.held.as_slice(), slot);
        let ring = w as usize;
        push(
            rt,
            &lane.rings[ring],
            &mut seat.rings[ring],
            Item::Packet(p),
        );
        seat.held.remove(at);
        add_pair(&mut seat.sent, w, slot, number as u32);
    }

    fn finish<R: Wait>(rt: &R, lane: &QueueLane, seat: &mut QueueIngest) {
        for w in 0..lane.rings.len() {
            let ring = &lane.rings[w];
            let pass = &mut seat.rings[w];
            push(rt, ring, pass, Item::End);
        }
        seat.finished = true;
    }

    fn receive<R: Wait>(rt: &R, lane: &QueueLane, seat: &mut QueueWorker) -> Got {
        let ring = &lane.rings[seat.place as usize];
        match pop(rt, ring, &mut seat.ring) {
            Some(Item::Packet(p)) => {
                let (number, _) = p.key();
                seat.received.add(p.slot(), number as u32);
                add_slot(&mut seat.held, p.slot());
                seat.idle = false;
                Got::Packet(p)
            }
            Some(Item::End) => {
                seat.ended = true;
                seat.idle = false;
                Got::End
            }
            None => {
                seat.finds = seat.finds.saturating_add(1);
                seat.idle = true;
                Got::Nothing
            }
        }
    }

    fn release<R: Wait>(rt: &R, lane: &QueueLane, seat: &mut QueueWorker, b: Buffer) {
        let at = place_of(seat.held.as_slice(), b.slot());
        put(rt, &lane.pool, &mut seat.pass, b);
        seat.held.remove(at);
    }

    fn shut<R: Wait>(
        &mut self,
        rt: &R,
        lane: QueueLane,
        ingest: QueueIngest,
        workers: Vec<QueueWorker>,
    )
        requires open_lane { 0 < open_lanes_of self.old }
        requires ingest { IsIngestOf lane ingest × ((ingest_of ingest).finished ≡ true)
            × ((ingest_of ingest).held ≡ []) }
        requires count { length workers.items ≡ length (lane_of lane).shares }
        requires workers { (w : ℕ) (x : QueueWorker) → slice_get workers.items w ≡ Some x
            → IsWorkerOf lane x × ((worker_of x).place ≡ w) × ((worker_of x).ended ≡ true) × ((worker_of x).held ≡ []) }
        ensures closed { open_lanes_of self.new + 1 ≡ open_lanes_of self.old }
        ensures books { (b : LaneBook) × (books_of self.new ≡ books_of self.old ++ b ∷ [])
            × IsBookOf (lane_of lane) (ingest_of ingest) (map (λ x. (worker_of x).received) workers.items) b }
    {
        let book = lane.shut(rt, ingest, workers);
        self.open_lanes -= 1;
        add_book(&mut self.books, book);
    }

    fn books(&self) -> &[Book] {
        self.books.as_slice()
    }
}
