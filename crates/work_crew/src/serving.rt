//! One lane's turn at a worker.
ghost use Rattle.std.specs.Prelude.{◌≡◌, ℕ, ◌<◌, ◌≤◌, true, false, [], map, length, Some, None, All};
ghost use Rattle.brick_base.specs.Flow.{class_view};
ghost use Rattle.packet_owner.specs.Buffer.{BufferModel};
ghost use Rattle.flow_spec.specs.Plan.{Plan};
ghost use Rattle.lane_spec.specs.Counts.{times};
ghost use Rattle.work_crew.specs.Records.{class_in};
ghost use Rattle.work_crew.specs.JobView.{job_view};
ghost use Rattle.work_crew.specs.Worked.{HasWorked, HasGathered, HasGivenBack};

use batch_ops::{Batch, Work};
use brick_base::{Class, Raw};
use lane_core::{Got, LaneKit};
use packet_owner::Packet;
use std::alloc::Global;
use std::sync::Wait;
use work_core::{ChainWork, Returned, TenantJob};

/// The class of a record.
fn class_for(job: &TenantJob, number: u64) -> Class
    requires there { number < length job.now.capture.entries }
    ensures { class_view result ≡ class_in (job_view job.now) number }
{
    job.classes[number as usize]
}

/// Receives packets until the batch has 32, none is there, or END was taken. Answers whether END was taken.
fn gather<K: LaneKit, R: Wait>(
    rt: &R,
    lane: &K::Lane,
    seat: &mut K::Worker,
    job: &TenantJob,
    batch: &mut Batch,
) -> bool
    requires own { K.is_worker_of lane.now seat.old }
    requires capture { (K.lane_facts lane.now).capture ≡ job.now.capture }
    requires rests { ((K.worker_facts seat.old).held ≡ []) × ((K.worker_facts seat.old).ended ≡ false) }
    requires empty { batch.old ≡ [] }
    ensures own { K.is_worker_of lane.now seat.new }
    ensures gathered { HasGathered (job_view job.now) (K.lane_facts lane.now).bytes (K.worker_facts seat.old)
        (K.worker_facts seat.new) batch.new result }
{
    'each: for done in 0..32u32 {
        match K::receive(rt, lane, seat) {
            Got::Packet(packet) => {
                let (number, _) = packet.key();
                let class = class_for(job, number);
                batch.push(Work { class, packet });
            }
            Got::Nothing => return false,
            Got::End => return true,
        }
    }
    false
}

/// Releases all buffers that the seat holds.
fn give_back<K: LaneKit, R: Wait>(
    rt: &R,
    lane: &K::Lane,
    seat: &mut K::Worker,
    returned: &mut Returned,
)
    requires own { K.is_worker_of lane.now seat.old }
    requires slots { (i : ℕ)
        → times i (map (λ (b : BufferModel). b.slot) returned.old) ≡ times i (K.worker_facts seat.old).held }
    requires rooms { All (λ (b : BufferModel). b.room ≡ (K.lane_facts lane.now).bytes) returned.old }
    ensures own { K.is_worker_of lane.now seat.new }
    ensures given { HasGivenBack (K.worker_facts seat.old) (K.worker_facts seat.new) }
{
    'each: while let Some(buffer) = returned.pop() {
        K::release(rt, lane, seat, buffer);
    }
}

/// What came of a lane's turn at a worker.
#[derive(Clone, Copy, Debug, PartialEq, Eq)]
pub struct Turn {
    /// How many packets came. Where there are 32 more may be there.
    pub packets: usize,
    /// Whether END was taken.
    pub ended: bool,
}

/// Receives a batch, has the work run it, and releases its buffers. Where no packet came the work has no turn.
pub fn serve<K: LaneKit, W: ChainWork, R: Wait>(
    rt: &R,
    alloc: Global,
    lane: &K::Lane,
    seat: &mut K::Worker,
    work: &mut W,
    job: &TenantJob,
) -> Turn
    requires own { K.is_worker_of lane.now seat.old }
    requires capture { (K.lane_facts lane.now).capture ≡ job.now.capture }
    requires going { (K.worker_facts seat.old).ended ≡ false }
    requires worked { HasWorked W.ready W.stands W.ended W.broken (job_view job.now)
        (K.worker_facts seat.old) work.old }
    ensures own { K.is_worker_of lane.now seat.new }
    ensures ended { (K.worker_facts seat.new).ended ≡ result.ended }
    ensures place { (K.worker_facts seat.new).place ≡ (K.worker_facts seat.old).place }
    ensures worked { HasWorked W.ready W.stands W.ended W.broken (job_view job.now) (K.worker_facts seat.new) work.new }
    ensures follows { (p : Plan) → W.follows work.old p → W.follows work.new p }
{
    let mut batch = Batch::new();
    let ended = gather::<K, R>(rt, lane, seat, job, &mut batch);
    let packets = batch.len();
    if packets == 0 {
        return Turn { packets, ended };
    }
    let mut returned = Returned::new();
    work.turn(alloc, &mut batch, &mut returned);
    give_back::<K, R>(rt, lane, seat, &mut returned);
    Turn { packets, ended }
}
