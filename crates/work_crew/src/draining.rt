//! Lanes of which nothing is done: the ingest finishes, and each worker receives until END.
ghost use Rattle.std.specs.Prelude.{◌≡◌, ℕ, true, false, [], length, Some, All, slice_get};
ghost use Rattle.lane_core.specs.Seats.{IngestBecomes, with_finish};

use lane_core::{Got, LaneKit};
use std::sync::Wait;
use std::thread;
use std::thread::{Threads, join_mut};

/// Receives and releases until END was taken.
pub fn drain_one<K: LaneKit, R: Wait>(rt: &R, lane: &K::Lane, seat: &mut K::Worker)
    requires own { K.is_worker_of lane.now seat.old }
    requires rests { ((K.worker_facts seat.old).held ≡ []) × ((K.worker_facts seat.old).ended ≡ false) }
    ensures own { K.is_worker_of lane.now seat.new }
    ensures ended { ((K.worker_facts seat.new).held ≡ []) × ((K.worker_facts seat.new).ended ≡ true) }
    ensures place { (K.worker_facts seat.new).place ≡ (K.worker_facts seat.old).place }
{
    for _ in rt.forever() {
        match K::receive(rt, lane, seat) {
            Got::Packet(packet) => K::release(rt, lane, seat, packet.into_buffer()),
            Got::Nothing => thread::yield_now(),
            Got::End => return,
        }
    }
    unreachable!()
}

/// Each worker receives and releases in a thread of its own until it took END.
fn drain_all<K: LaneKit, R: Threads + Wait + Sync>(
    rt: &R,
    lane: &K::Lane,
    workers: &mut [K::Worker],
)
    requires { All (λ x. K.is_worker_of lane.now x × ((K.worker_facts x).held ≡ [])
        × ((K.worker_facts x).ended ≡ false)) workers.old }
    ensures count { length workers.new ≡ length workers.old }
    ensures over { All (λ x. K.is_worker_of lane.now x × ((K.worker_facts x).held ≡ [])
        × ((K.worker_facts x).ended ≡ true)) workers.new }
    ensures places { (w : ℕ) (x y : K.Worker) → slice_get workers.old w ≡ Some x → slice_get workers.new w ≡ Some y
        → (K.worker_facts y).place ≡ (K.worker_facts x).place }
{
    thread::for_each_mut(
        rt,
        workers,
        16,
        &|_, seat: &mut K::Worker|
            requires { K.is_worker_of lane.now seat.old × ((K.worker_facts seat.old).held ≡ [])
                × ((K.worker_facts seat.old).ended ≡ false) }
            ensures { K.is_worker_of lane.entry.now seat.new × ((K.worker_facts seat.new).held ≡ [])
                × ((K.worker_facts seat.new).ended ≡ true)
                × ((K.worker_facts seat.new).place ≡ (K.worker_facts seat.old).place) }
        { drain_one::<K, R>(rt, lane, seat) },
    );
}

/// Ends a lane of which nothing was done: its ingest finishes beside its workers.
pub fn end_unused<K: LaneKit, R: Threads + Wait + Sync>(
    rt: &R,
    lane: &K::Lane,
    ingest: &mut K::Ingest,
    workers: &mut [K::Worker],
)
    requires own { K.is_ingest_of lane.now ingest.old }
    requires new { ((K.ingest_facts ingest.old).held ≡ []) × ((K.ingest_facts ingest.old).finished ≡ false) }
    requires seats { All (λ x. K.is_worker_of lane.now x × ((K.worker_facts x).held ≡ [])
        × ((K.worker_facts x).ended ≡ false)) workers.old }
    ensures own { K.is_ingest_of lane.now ingest.new }
    ensures done { IngestBecomes (with_finish (K.ingest_facts ingest.old)) (K.ingest_facts ingest.new) }
    ensures count { length workers.new ≡ length workers.old }
    ensures over { All (λ x. K.is_worker_of lane.now x × ((K.worker_facts x).held ≡ [])
        × ((K.worker_facts x).ended ≡ true)) workers.new }
    ensures places { (w : ℕ) (x y : K.Worker) → slice_get workers.old w ≡ Some x → slice_get workers.new w ≡ Some y
        → (K.worker_facts y).place ≡ (K.worker_facts x).place }
{
    join_mut(
        rt,
        &mut ||
            requires { K.is_ingest_of lane.now ingest.now × ((K.ingest_facts ingest.now).held ≡ [])
                × ((K.ingest_facts ingest.now).finished ≡ false) }
            ensures { K.is_ingest_of lane.entry.now ingest.exit.now
                × IngestBecomes (with_finish (K.ingest_facts ingest.entry.now)) (K.ingest_facts ingest.exit.now) }
        { K::finish(rt, lane, ingest) },
        &mut ||
            requires { All (λ x. K.is_worker_of lane.now x × ((K.worker_facts x).held ≡ [])
                × ((K.worker_facts x).ended ≡ false)) workers.now }
            ensures { (length workers.exit.now ≡ length workers.entry.now)
                × All (λ x. K.is_worker_of lane.entry.now x × ((K.worker_facts x).held ≡ [])
                × ((K.worker_facts x).ended ≡ true)) workers.exit.now
                × ((w : ℕ) (x y : K.Worker) → slice_get workers.entry.now w ≡ Some x
                → slice_get workers.exit.now w ≡ Some y → (K.worker_facts y).place ≡ (K.worker_facts x).place) }
        { drain_all::<K, R>(rt, lane, workers) },
    );
}
