//! A kit round a kit, by which a test sees that an ingest and a worker really overlap.
ghost use Rattle.std.specs.Prelude.{◌≡◌, ℕ, ◌+◌, ◌<◌, true, [], ◌∷◌, ◌++◌, map, length, slice_get, Some};

use brick_base::{NoMemory, Raw};
use lane_core::{Book, Got, LaneKit, Started};
use packet_owner::{Buffer, Packet};
use pcap_io::Capture;
use std::alloc::Global;
use std::sync::Wait;
use std::sync::atomic::AtomicU64;
use std::sync::atomic::Ordering::SeqCst;
use std::thread;

/// How often the send of a lane's second record looks whether the first was received.
const MOST_TURNS: u32 = 50_000_000;

/// A kit round a kit. The send of a lane's second record waits until the first was received, for at most 50,000,000
/// turns, and then goes on and counts a miss. Else its lanes are those of the kit.
#[derive(Debug, Drop)]
pub struct GateKit<K: LaneKit> {
    pub kit: K,
    /// How many lanes that were shut had a miss, up to 4,294,967,295.
    pub missed: u32,
}

/// A lane of the kit, with what its calls tell one another: how many records were sent, and whether one was received.
#[derive(Debug, Drop)]
pub struct GateLane<L> {
    pub lane: L,
    sent: AtomicU64,
    received: AtomicU64,
    missed: AtomicU64,
}

impl<K: LaneKit> GateKit<K> {
    /// A kit round this one, without a miss.
    pub fn new(kit: K) -> GateKit<K>
        ensures kit { result.kit ≡ kit }
        ensures missed { result.missed ≡ 0 }
    {
        GateKit { kit, missed: 0 }
    }

    /// How many lanes had a miss.
    pub fn misses(&self) -> u32
        ensures { result ≡ self.now.missed }
    {
        self.missed
    }
}

/// Waits until a record of the lane was received. Where none was after the most turns, the lane has a miss.
fn await_first<L>(lane: &GateLane<L>) {
    for _ in 0..MOST_TURNS {
        if lane.received.load(SeqCst) > 0 {
            return;
        }
        thread::yield_now();
    }
    lane.missed.store(1, SeqCst);
}

impl<K: LaneKit> LaneKit for GateKit<K> {
    ghost use Rattle.lane_spec.specs.LaneBook.{LaneBook};
    ghost use Rattle.lane_core.specs.Seats.{IsBookOf};

    type Lane = GateLane<K::Lane>;

    type Ingest = K::Ingest;

    type Worker = K::Worker;

    ghost books = { λ k. K.books k.kit };

    ghost open_lanes = { λ k. K.open_lanes k.kit };

    ghost lane_facts = { λ l. K.lane_facts l.lane };

    ghost is_ingest_of = { λ l i. K.is_ingest_of l.lane i };

    ghost is_worker_of = { λ l w. K.is_worker_of l.lane w };

    ghost ingest_facts = { K.ingest_facts };

    ghost worker_facts = { K.worker_facts };

    fn start<R: Wait>(
        &mut self,
        rt: &R,
        alloc: Global,
        capture: &Capture,
        buffers: u32,
        bytes: u32,
        shares: &[u32],
    ) -> Result<Started<GateLane<K::Lane>, K::Ingest, K::Worker>, NoMemory> {
        let Started {
            lane,
            ingest,
            workers,
        } = self.kit.start(rt, alloc, capture, buffers, bytes, shares)?;
        let lane = GateLane {
            lane,
            sent: AtomicU64::new(0),
            received: AtomicU64::new(0),
            missed: AtomicU64::new(0),
        };
        Ok(Started {
            lane,
            ingest,
            workers,
        })
    }

    fn claim<R: Wait>(rt: &R, lane: &GateLane<K::Lane>, seat: &mut K::Ingest) -> Option<Buffer> {
        K::claim(rt, &lane.lane, seat)
    }

    fn send<R: Wait>(
        rt: &R,
        lane: &GateLane<K::Lane>,
        seat: &mut K::Ingest,
        w: u32,
        p: Packet<Raw>,
    ) {
        if lane.sent.fetch_add(1, SeqCst) == 1 {
            await_first(lane);
        }
        K::send(rt, &lane.lane, seat, w, p);
    }

    fn finish<R: Wait>(rt: &R, lane: &GateLane<K::Lane>, seat: &mut K::Ingest) {
        K::finish(rt, &lane.lane, seat);
    }

    fn receive<R: Wait>(rt: &R, lane: &GateLane<K::Lane>, seat: &mut K::Worker) -> Got {
        let got = K::receive(rt, &lane.lane, seat);
        if let Got::Packet(_) = &got {
            lane.received.store(1, SeqCst);
        }
        got
    }

    fn release<R: Wait>(rt: &R, lane: &GateLane<K::Lane>, seat: &mut K::Worker, b: Buffer) {
        K::release(rt, &lane.lane, seat, b);
    }

    fn shut<R: Wait>(
        &mut self,
        rt: &R,
        lane: GateLane<K::Lane>,
        ingest: K::Ingest,
        workers: Vec<K::Worker>,
    )
        requires open_lane { 0 < K.open_lanes self.old.kit }
        requires ingest { K.is_ingest_of lane.lane ingest × ((K.ingest_facts ingest).finished ≡ true)
            × ((K.ingest_facts ingest).held ≡ []) }
        requires count { length workers.items ≡ length (K.lane_facts lane.lane).shares }
        requires workers { (w : ℕ) (x : K.Worker) → slice_get workers.items w ≡ Some x
            → K.is_worker_of lane.lane x × ((K.worker_facts x).place ≡ w) × ((K.worker_facts x).ended ≡ true)
            × ((K.worker_facts x).held ≡ []) }
        ensures closed { K.open_lanes self.new.kit + 1 ≡ K.open_lanes self.old.kit }
        ensures books { (b : LaneBook) × (K.books self.new.kit ≡ K.books self.old.kit ++ b ∷ [])
            × IsBookOf (K.lane_facts lane.lane) (K.ingest_facts ingest)
            (map (λ x. (K.worker_facts x).received) workers.items) b }
    {
        let GateLane {
            lane,
            sent: _,
            received: _,
            missed,
        } = lane;
        if missed.load(SeqCst) > 0 {
            self.missed = self.missed.saturating_add(1);
        }
        self.kit.shut(rt, lane, ingest, workers);
    }

    fn books(&self) -> &[Book] {
        self.kit.books()
    }
}
