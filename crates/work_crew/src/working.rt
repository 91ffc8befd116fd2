//! A worker.
ghost use Rattle.std.specs.Prelude.{◌≡◌, ℕ, ◌<◌, ◌≤◌, true, false, [], length, Some, None, All, slice_get};
ghost use Rattle.flow_spec.specs.Plan.{Plan};
ghost use Rattle.lane_core.specs.Seats.{IsNewWorker};
ghost use Rattle.work_crew.specs.JobView.{job_view};
ghost use Rattle.work_crew.specs.Worked.{IsNewWork, HasWorked};
ghost use Rattle.work_core.specs.declared.job.TenantJob.{TenantJob};

use crate::pausing::{FIRST, pause};
use crate::serving::serve;
use lane_core::LaneKit;
use std::alloc::Global;
use std::sync::Wait;
use work_core::{ChainWork, TenantJob};

/// Receives the packets that were sent to this worker, lane after lane in turns, has the lane's work run them, and
/// releases their buffers, until END was taken in each. Where no lane had a full batch, others may go on before the
/// next round, for longer the more rounds in a row brought no packet.
pub fn worker<K: LaneKit, W: ChainWork, R: Wait>(
    rt: &R,
    alloc: Global,
    lanes: &[K::Lane],
    seats: &mut [K::Worker],
    works: &mut [W],
    jobs: &[TenantJob],
)
    requires few { length lanes.now ≤ 16 }
    requires seats { length seats.old ≡ length lanes.now }
    requires works { length works.old ≡ length lanes.now }
    requires jobs { length jobs.now ≡ length lanes.now }
    requires own { (t : ℕ) (lane : K.Lane) (seat : K.Worker) → slice_get lanes.now t ≡ Some lane
        → slice_get seats.old t ≡ Some seat → K.is_worker_of lane seat }
    requires lane_of { (t : ℕ) (lane : K.Lane) (job : TenantJob) → slice_get lanes.now t ≡ Some lane
        → slice_get jobs.now t ≡ Some job → (K.lane_facts lane).capture ≡ job.capture }
    requires new_seats { All (λ seat. IsNewWorker (K.worker_facts seat).place (K.worker_facts seat)) seats.old }
    requires new_works { All (IsNewWork W.ready W.stands W.ended W.broken) works.old }
    ensures seats { length seats.new ≡ length lanes.now }
    ensures works { length works.new ≡ length lanes.now }
    ensures own { (t : ℕ) (lane : K.Lane) (seat : K.Worker) → slice_get lanes.now t ≡ Some lane
        → slice_get seats.new t ≡ Some seat → K.is_worker_of lane seat }
    ensures ended { All (λ seat. ((K.worker_facts seat).ended ≡ true) × ((K.worker_facts seat).held ≡ [])) seats.new }
    ensures places { (t : ℕ) (old new : K.Worker) → slice_get seats.old t ≡ Some old → slice_get seats.new t ≡ Some new
        → (K.worker_facts new).place ≡ (K.worker_facts old).place }
    ensures worked { (t : ℕ) (seat : K.Worker) (work : W) (job : TenantJob) → slice_get seats.new t ≡ Some seat
        → slice_get works.new t ≡ Some work → slice_get jobs.now t ≡ Some job
        → HasWorked W.ready W.stands W.ended W.broken (job_view job) (K.worker_facts seat) work }
    ensures follows { (t : ℕ) (old new : W) → slice_get works.old t ≡ Some old → slice_get works.new t ≡ Some new
        → (p : Plan) → W.follows old p → W.follows new p }
{
    let mut ended = [false; 16];
    let mut misses = FIRST;
    'rounds: for _ in rt.forever() {
        let mut all = true;
        let mut most = 0;
        'turns: for t in 0..lanes.len() {
            if !ended[t] {
                all = false;
                let turn = serve::<K, W, R>(
                    rt,
                    alloc,
                    &lanes[t],
                    &mut seats[t],
                    &mut works[t],
                    &jobs[t],
                );
                ended[t] = turn.ended;
                most = most.max(turn.packets);
            }
        }
        if all {
            return;
        }
        if most > 0 {
            misses = FIRST;
        }
        if most < 32 {
            misses = pause(rt, misses);
        }
    }
    unreachable!()
}
