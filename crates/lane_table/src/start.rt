// How a lane starts.
ghost use Rattle.std.specs.Prelude.{◌≡◌, ℕ, ◌+◌, ◌*◌, ◌^◌, ◌<◌, ◌≤◌, [], ◌∷◌, length, replicate, slice_get};
ghost use Rattle.std.specs.Prelude.{slice_index, Some, IfOk, OnOk, vec_capacity};
ghost use Rattle.lane_core.specs.Seats.{IsNewIngest, IsNewWorker};
ghost use Rattle.lane_core.specs.View.{pairs_in};
ghost use Rattle.lane_table.specs.Hands.{with_roles};
ghost use Rattle.lane_table.specs.Logs.{rooms_in};
ghost use Rattle.lane_table.specs.Rule.{first_view};
ghost use Rattle.lane_table.specs.Seats.{lane_of, ingest_of, worker_of, IsIngestOf, IsWorkerOf};
ghost use Rattle.lane_table.specs.Starts.{IsFullFrom, AreOnes, AreNewFrom};

use crate::lane::{IngestSeat, TableLane, WorkerSeat};
use crate::plays::{LaneRule, RoleOf};
use crate::view::{LaneKey, SeatView, Stored};
use atomic_table::{Seat, Table};
use brick_base::NoMemory;
use lane_core::{Log, Started};
use packet_owner::Buffer;
use pcap_io::Capture;
use std::alloc::Global;
use std::snapshot::Snapshot;

/// The buffers, each in its own slot.
fn full_slots(alloc: Global, buffers: u32, bytes: u32) -> Result<Vec<Stored>, NoMemory>
    ensures { IfOk result (λ v. (length v.items ≡ buffers) × IsFullFrom bytes 0 v.items) }
{
    let mut slots = Vec::with_capacity(alloc, buffers as usize)?;
    for i in 0..buffers {
        let buffer = Buffer::new(alloc, i, bytes)?;
        slots.push(Stored::Free(buffer))?;
    }
    Ok(slots)
}

/// The words at the start: 1 for each buffer, and 0 for each cell.
fn first_words(alloc: Global, buffers: u32, workers: u32) -> Result<Vec<u64>, NoMemory>
    requires { (buffers ≤ 1024) × (workers ≤ 16) }
    ensures { IfOk result (λ v. (length v.items ≡ buffers + workers * (buffers + 1)) × AreOnes buffers v.items) }
{
    let count = buffers + workers * (buffers + 1);
    let mut words = Vec::from_elem(alloc, 0u64, count as usize)?;
    for i in 0..buffers as usize {
        words[i] = 1;
    }
    Ok(words)
}

/// The table, and a seat with all roles.
fn opened(
    alloc: Global,
    key: &LaneKey,
) -> Result<
    (
        Table<Stored, SeatView, LaneKey, LaneRule, Global>,
        Seat<Stored, SeatView>,
    ),
    NoMemory,
>
    requires { (key.now.buffers ≤ 1024) × (key.now.workers ≤ 16) }
    ensures table { IfOk result (λ r. (r.0.shared.key ≡ key.now)
        × (r.0.shared.table_id.words ≡ key.now.buffers + key.now.workers * (key.now.buffers + 1))
        × (r.0.shared.table_id.slots ≡ key.now.buffers)) }
    ensures seat { IfOk result (λ r. (r.1.table_id ≡ r.0.shared.table_id) × (r.1.me ≡ (first_view key.now, []))) }
{
    let words = first_words(alloc, key.buffers, key.workers)?;
    let slots = full_slots(alloc, key.buffers, key.bytes)?;
    match Table::new(alloc, words.as_slice(), slots, key) {
        Ok(pair) => Ok(pair),
        Err(_) => Err(NoMemory),
    }
}

/// A log for each worker, with room for its share.
fn empty_logs(alloc: Global, shares: &[u32]) -> Result<Vec<Log>, NoMemory>
    ensures count { IfOk result (λ v. length v.items ≡ length shares.now) }
    ensures empty { IfOk result (λ v. pairs_in v.items ≡ replicate (length shares.now) []) }
    ensures rooms { IfOk result (λ v. (w : ℕ) → slice_index shares.now w ≤ slice_index (rooms_in v.items) w) }
{
    let mut logs = Vec::with_capacity(alloc, shares.len())?;
    for w in 0..shares.len() {
        let log = Log::with_room(alloc, shares[w])?;
        logs.push(log)?;
    }
    Ok(logs)
}

impl TableLane {
    /// A lane whose buffers are all in the pool, and a seat with all roles.
    fn open(
        alloc: Global,
        capture: &Capture,
        buffers: u32,
        bytes: u32,
        shares: &[u32],
    ) -> Result<(TableLane, Seat<Stored, SeatView>), NoMemory>
        requires buffers { (1 ≤ buffers) × (buffers ≤ 1024) }
        requires shares { (1 ≤ length shares.now) × (length shares.now ≤ 16) }
        ensures lane { IfOk result (λ r. lane_of r.0
            ≡ record { capture = capture.now; buffers = buffers; bytes = bytes; shares = shares.now }) }
        ensures seat { IfOk result (λ r. (r.1.table_id ≡ r.0.table.shared.table_id)
            × (r.1.me ≡ (first_view r.0.table.shared.key, []))) }
    {
        let workers = shares.len() as u32;
        let count = capture.count();
        let copy = shares.to_vec(alloc)?;
        let key = LaneKey {
            buffers,
            bytes,
            workers,
            capture: Snapshot::of(capture),
            shares: Snapshot::of(&copy),
        };
        let home = Vec::with_capacity(alloc, buffers as usize)?;
        let received = Vec::with_capacity(alloc, workers as usize)?;
        let (table, seat) = opened(alloc, &key)?;
        let lane = TableLane {
            table,
            buffers,
            bytes,
            workers,
            home,
            received,
        };
        Ok((lane, seat))
    }

    /// The workers' seats, in order. The ingest's role is left.
    fn seat_workers(
        &self,
        alloc: Global,
        first: &mut Seat<Stored, SeatView>,
        shares: &[u32],
    ) -> Result<Vec<WorkerSeat>, NoMemory>
        requires shares { shares.now ≡ self.now.table.shared.key.shares.value.items }
        requires seat { (first.old.table_id ≡ self.now.table.shared.table_id)
            × (first.old.me ≡ (first_view self.now.table.shared.key, [])) }
        ensures seat { OnOk result ((first.new.table_id ≡ self.now.table.shared.table_id)
            × (first.new.me ≡ (with_roles (0 ∷ []) (first_view self.now.table.shared.key), []))) }
        ensures count { IfOk result (λ v. length v.items ≡ self.now.workers) }
        ensures workers { IfOk result (λ v. AreNewFrom self.now 0 v.items) }
    {
        let mut seats = Vec::with_capacity(alloc, self.workers as usize)?;
        for place in 0..self.workers {
            let received = Log::with_room(alloc, shares[place as usize])?;
            let held = Vec::with_capacity(alloc, self.buffers as usize)?;
            let seat = self.table.shared.split_seat::<RoleOf>(first);
            let worker = WorkerSeat {
                seat,
                place,
                received,
                held,
                ended: false,
                idle: false,
            };
            seats.push(worker)?;
        }
        Ok(seats)
    }

    /// The ingest's seat.
    fn seat_ingest(
        &self,
        alloc: Global,
        seat: Seat<Stored, SeatView>,
        shares: &[u32],
    ) -> Result<IngestSeat, NoMemory>
        requires shares { shares.now ≡ self.now.table.shared.key.shares.value.items }
        requires seat { (seat.table_id ≡ self.now.table.shared.table_id)
            × (seat.me ≡ (with_roles (0 ∷ []) (first_view self.now.table.shared.key), [])) }
        ensures { IfOk result (λ i. IsIngestOf self.now i × IsNewIngest self.now.workers (ingest_of i)) }
    {
        let sent = empty_logs(alloc, shares)?;
        let held = Vec::with_capacity(alloc, self.buffers as usize)?;
        Ok(IngestSeat {
            seat,
            sent,
            held,
            missed: 0,
            finished: false,
            next: 0,
        })
    }

    /// A lane with so many buffers of so many bytes each, all in the pool, and its seats. It takes all the memory that
    /// the lane needs.
    pub(crate) fn start(
        alloc: Global,
        capture: &Capture,
        buffers: u32,
        bytes: u32,
        shares: &[u32],
    ) -> Result<Started<TableLane, IngestSeat, WorkerSeat>, NoMemory>
        requires buffers { (1 ≤ buffers) × (buffers ≤ 1024) }
        requires shares { (1 ≤ length shares.now) × (length shares.now ≤ 16) }
        ensures lane { IfOk result (λ s. lane_of s.lane
            ≡ record { capture = capture.now; buffers = buffers; bytes = bytes; shares = shares.now }) }
        ensures ingest { IfOk result (λ s. IsIngestOf s.lane s.ingest
            × IsNewIngest (length shares.now) (ingest_of s.ingest)) }
        ensures count { IfOk result (λ s. length s.workers.items ≡ length shares.now) }
        ensures workers { IfOk result (λ s. (w : ℕ) (x : WorkerSeat) → slice_get s.workers.items w ≡ Some x
            → IsWorkerOf s.lane x × IsNewWorker w (worker_of x)) }
    {
        let (lane, mut first) = TableLane::open(alloc, capture, buffers, bytes, shares)?;
        let workers = lane.seat_workers(alloc, &mut first, shares)?;
        let ingest = lane.seat_ingest(alloc, first, shares)?;
        Ok(Started {
            lane,
            ingest,
            workers,
        })
    }
}
