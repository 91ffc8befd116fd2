//! The kit of lanes on tables.
ghost use Rattle.std.specs.Prelude.{◌≡◌, ℕ, ◌+◌, ◌<◌, ◌≤◌, true, List, [], ◌∷◌, ◌++◌, map, length, slice_get, Some};
ghost use Rattle.std.specs.Prelude.{vec_len, vec_capacity};

use crate::lane::{IngestSeat, TableLane, WorkerSeat};
use brick_base::{NoMemory, Raw};
use lane_core::{Book, Got, LaneKit, Started};
use packet_owner::{Buffer, Packet};
use pcap_io::Capture;
use std::alloc::Global;
use std::sync::Wait;

/// Makes lanes on atomic tables. Its calls do not wait.
#[derive(Debug, Drop)]
pub struct TableKit {
    books: Vec<Book>,
    open_lanes: usize,
    ghost room: { vec_len books + open_lanes ≤ vec_capacity books },
}

impl TableKit {
    ghost use Rattle.lane_table.specs.Kits.{books_of, open_lanes_of};

    /// A kit with no Books and no open lanes. It takes no memory.
    pub fn new(alloc: Global) -> TableKit
        ensures { (books_of result ≡ []) × (open_lanes_of result ≡ 0) }
    {
        TableKit {
            books: Vec::new(alloc),
            open_lanes: 0,
        }
    }
}

/// Puts a Book behind the others, where there is room.
fn add_book(books: &mut Vec<Book>, book: Book)
    requires { vec_len books.old < vec_capacity books.old }
    ensures items { books.new.items ≡ books.old.items ++ book ∷ [] }
    ensures room { vec_capacity books.old ≤ vec_capacity books.new }
{
    let done = books.push(book);
    done.unwrap();
}

impl LaneKit for TableKit {
    ghost use Rattle.std.specs.Prelude.{◌≡◌, ℕ, ◌+◌, ◌<◌, true, List, [], ◌∷◌, ◌++◌, map, length, slice_get, Some};
    ghost use Rattle.lane_spec.specs.LaneBook.{LaneBook};
    ghost use Rattle.lane_core.specs.Seats.{IsBookOf};
    ghost use Rattle.lane_table.specs.Kits.{books_of, open_lanes_of};
    ghost use Rattle.lane_table.specs.Seats.{lane_of, ingest_of, worker_of, IsIngestOf, IsWorkerOf};

    type Lane = TableLane;

    type Ingest = IngestSeat;

    type Worker = WorkerSeat;

    ghost books = { books_of };

    ghost open_lanes = { open_lanes_of };

    ghost lane_facts = { lane_of };

    ghost is_ingest_of = { IsIngestOf };

    ghost is_worker_of = { IsWorkerOf };

    ghost ingest_facts = { ingest_of };

    ghost worker_facts = { worker_of };

    fn start<R: Wait>(
        &mut self,
        rt: &R,
        alloc: Global,
        capture: &Capture,
        buffers: u32,
        bytes: u32,
        shares: &[u32],
    ) -> Result<Started<TableLane, IngestSeat, WorkerSeat>, NoMemory> {
        self.books.reserve(self.open_lanes + 1)?;
        let started = TableLane::start(alloc, capture, buffers, bytes, shares)?;
        self.open_lanes += 1;
        Ok(started)
    }

    fn claim<R: Wait>(rt: &R, lane: &TableLane, seat: &mut IngestSeat) -> Option<Buffer> {
        lane.claim(seat)
    }

    fn send<R: Wait>(rt: &R, lane: &TableLane, seat: &mut IngestSeat, w: u32, p: Packet<Raw>) {
        lane.send(seat, w, p);
    }

    fn finish<R: Wait>(rt: &R, lane: &TableLane, seat: &mut IngestSeat) {
        lane.finish(seat);
    }

    fn receive<R: Wait>(rt: &R, lane: &TableLane, seat: &mut WorkerSeat) -> Got {
        lane.receive(seat)
    }

    fn release<R: Wait>(rt: &R, lane: &TableLane, seat: &mut WorkerSeat, b: Buffer) {
        lane.release(seat, b);
    }

    fn shut<R: Wait>(
        &mut self,
        rt: &R,
        lane: TableLane,
        ingest: IngestSeat,
        workers: Vec<WorkerSeat>,
    )
        requires open_lane { 0 < open_lanes_of self.old }
        requires ingest { IsIngestOf lane ingest × ((ingest_of ingest).finished ≡ true)
            × ((ingest_of ingest).held ≡ []) }
        requires count { length workers.items ≡ length (lane_of lane).shares }
        requires workers { (w : ℕ) (x : WorkerSeat) → slice_get workers.items w ≡ Some x
            → IsWorkerOf lane x × ((worker_of x).place ≡ w) × ((worker_of x).ended ≡ true) × ((worker_of x).held ≡ []) }
        ensures closed { open_lanes_of self.new + 1 ≡ open_lanes_of self.old }
        ensures books { (b : LaneBook) × (books_of self.new ≡ books_of self.old ++ b ∷ [])
            × IsBookOf (lane_of lane) (ingest_of ingest) (map (λ x. (worker_of x).received) workers.items) b }
    {
        let book = lane.shut(ingest, workers);
        self.open_lanes -= 1;
        add_book(&mut self.books, book);
    }

    fn books(&self) -> &[Book] {
        self.books.as_slice()
    }
}
