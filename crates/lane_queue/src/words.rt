// The lists of a seat.
ghost use Rattle.std.specs.Prelude.{◌≡◌, ◌≢◌, ℕ, ◌<◌, ◌≤◌, ◌++◌, ◌∷◌, [], length, slice_index, slice_set, vec_capacity};
ghost use Rattle.lane_spec.specs.Counts.{times};
ghost use Rattle.lane_core.specs.View.{pairs_in};
ghost use Rattle.lane_core.specs.Seats.{log_of};
ghost use Rattle.lane_queue.specs.Lists.{rooms_in};

use lane_core::Log;

/// Puts a slot behind the others, where there is room.
pub fn add_slot(list: &mut Vec<u32>, slot: u32)
    requires { length list.old.items < vec_capacity list.old }
    ensures items { list.new.items ≡ list.old.items ++ slot ∷ [] }
    ensures room { vec_capacity list.old ≤ vec_capacity list.new }
{
    let done = list.push(slot);
    done.unwrap();
}

/// Puts a log behind the others, where there is room.
pub fn add_log(logs: &mut Vec<Log>, log: Log)
    requires { length logs.old.items < vec_capacity logs.old }
    ensures items { logs.new.items ≡ logs.old.items ++ log ∷ [] }
    ensures room { vec_capacity logs.old ≤ vec_capacity logs.new }
{
    let done = logs.push(log);
    done.unwrap();
}

/// Puts a pair behind the others in the log of ring `w`, which has room.
pub fn add_pair(logs: &mut Vec<Log>, w: u32, slot: u32, number: u32)
    requires there { w < length logs.old.items }
    requires room { length (log_of (pairs_in logs.old.items) w) < slice_index (rooms_in logs.old.items) w }
    ensures pairs { pairs_in logs.new.items
        ≡ slice_set (pairs_in logs.old.items) w (log_of (pairs_in logs.old.items) w ++ (slot, number) ∷ []) }
    ensures long { length logs.new.items ≡ length logs.old.items }
    ensures rooms { (x : ℕ) → slice_index (rooms_in logs.old.items) x ≤ slice_index (rooms_in logs.new.items) x }
{
    logs[w as usize].add(slot, number);
}

/// The first place of the slot.
pub fn place_of(items: &[u32], slot: u32) -> usize
    requires { 0 < times slot items.now }
    ensures there { (result < length items.now) × (slice_index items.now result ≡ slot) }
    ensures first { (k : ℕ) → k < result → slice_index items.now k ≢ slot }
{
    for (i, x) in items.iter().enumerate() {
        if *x == slot {
            return i;
        }
    }
    unreachable!()
}
