//! A kit that refuses to start.
ghost use Rattle.std.specs.Prelude.{◌≡◌, ℕ, ◌+◌, ◌<◌, true, List, [], ◌∷◌, ◌++◌, map, length, slice_get, Some};
ghost use Rattle.lane_spec.specs.LaneBook.{LaneBook};
ghost use Rattle.lane_core.specs.Seats.{IsBookOf};

use brick_base::{NoMemory, Raw};
use lane_core::{Book, Got, LaneKit, Started};
use packet_owner::{Buffer, Packet};
use pcap_io::Capture;
use std::alloc::Global;
use std::sync::Wait;

/// A kit that starts so many lanes more, and then answers as if memory had run out.
#[derive(Drop)]
pub struct RefusingKit<K> {
    pub kit: K,
    pub left: u32,
}

impl<K: LaneKit> LaneKit for RefusingKit<K> {
    ghost use Rattle.std.specs.Prelude.{◌≡◌, ℕ, ◌+◌, ◌<◌, true, List, [], ◌∷◌, ◌++◌, map, length, slice_get, Some};
    ghost use Rattle.lane_spec.specs.LaneBook.{LaneBook};
    ghost use Rattle.lane_core.specs.Seats.{IsBookOf};

    type Lane = K::Lane;

    type Ingest = K::Ingest;

    type Worker = K::Worker;

    ghost books = { λ k. K.books k.kit };

    ghost open_lanes = { λ k. K.open_lanes k.kit };

    ghost lane_facts = { K.lane_facts };

    ghost is_ingest_of = { K.is_ingest_of };

    ghost is_worker_of = { K.is_worker_of };

    ghost ingest_facts = { K.ingest_facts };

    ghost worker_facts = { K.worker_facts };

    fn start<R: Wait>(
        &mut self,
        rt: &R,
        alloc: Global,
        capture: &Capture,
        buffers: u32,
        bytes: u32,
        shares: &[u32],
    ) -> Result<Started<K::Lane, K::Ingest, K::Worker>, NoMemory> {
        if self.left == 0 {
            return Err(NoMemory);
        }
        self.left -= 1;
        self.kit.start(rt, alloc, capture, buffers, bytes, shares)
    }

    fn claim<R: Wait>(rt: &R, lane: &K::Lane, seat: &mut K::Ingest) -> Option<Buffer> {
        K::claim(rt, lane, seat)
    }

    fn send<R: Wait>(rt: &R, lane: &K::Lane, seat: &mut K::Ingest, w: u32, p: Packet<Raw>) {
        K::send(rt, lane, seat, w, p);
    }

    fn finish<R: Wait>(rt: &R, lane: &K::Lane, seat: &mut K::Ingest) {
        K::finish(rt, lane, seat);
    }

    fn receive<R: Wait>(rt: &R, lane: &K::Lane, seat: &mut K::Worker) -> Got {
        K::receive(rt, lane, seat)
    }

    fn release<R: Wait>(rt: &R, lane: &K::Lane, seat: &mut K::Worker, b: Buffer) {
        K::release(rt, lane, seat, b);
    }

    fn shut<R: Wait>(&mut self, rt: &R, lane: K::Lane, ingest: K::Ingest, workers: Vec<K::Worker>)
        requires open_lane { 0 < K.open_lanes self.old.kit }
        requires ingest { K.is_ingest_of lane ingest × ((K.ingest_facts ingest).finished ≡ true) × ((K.ingest_facts ingest).held ≡ []) }
        requires count { length workers.items ≡ length (K.lane_facts lane).shares }
        requires workers { (w : ℕ) (x : K.Worker) → slice_get workers.items w ≡ Some x → K.is_worker_of lane x × ((K.worker_facts x).place ≡ w) × ((K.worker_facts x).ended ≡ true) × ((K.worker_facts x).held ≡ []) }
        ensures closed { K.open_lanes self.new.kit + 1 ≡ K.open_lanes self.old.kit }
        ensures books { (b : LaneBook) × (K.books self.new.kit ≡ K.books self.old.kit ++ b ∷ []) × IsBookOf (K.lane_facts lane) (K.ingest_facts ingest) (map (λ x. (K.worker_facts x).received) workers.items) b }
    {
        self.kit.shut(rt, lane, ingest, workers);
    }

    fn books(&self) -> &[Book] {
        self.kit.books()
    }
}
