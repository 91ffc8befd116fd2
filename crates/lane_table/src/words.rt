// The words of a lane's table, as numbers, and the places of a seat's lists.
ghost use Rattle.std.specs.Prelude.{◌≡◌, ◌≢◌, ℕ, ◌+◌, ◌*◌, ◌%◌, ◌^◌, ◌<◌, ◌≤◌, ◌++◌, ◌∷◌, [], length, slice_index};
ghost use Rattle.std.specs.Prelude.{slice_set};
ghost use Rattle.lane_spec.specs.Counts.{times};
ghost use Rattle.lane_core.specs.View.{pairs_in};
ghost use Rattle.lane_core.specs.Seats.{log_of};
ghost use Rattle.lane_table.specs.Cells.{entry_word};
ghost use Rattle.lane_table.specs.Rule.{base_of};
ghost use Rattle.lane_table.specs.Steps.{slot_in};
ghost use Rattle.lane_table.specs.Logs.{rooms_in};

use lane_core::Log;

/// The word of END.
pub const END: u64 = 2047;

/// The cell of ring `w` where its entry number `count` goes.
pub fn cell_of(buffers: u32, w: u32, count: u64) -> usize
    requires { (buffers ≤ 1024) × (w < 16) }
    ensures { result ≡ base_of buffers w + count % (buffers + 1) }
{
    let cells = u64::from(buffers) + 1;
    (u64::from(buffers) + u64::from(w) * cells + count % cells) as usize
}

/// The word of an entry.
pub fn entry_of(slot: u32, number: u64) -> u64
    requires { (slot < 1024) × (number < 2 ^ 32) }
    ensures { result ≡ entry_word (slot, number) }
{
    2048 * number + u64::from(slot) + 1
}

/// The slot that an entry's word names.
pub fn slot_of(word: u64) -> usize
    requires { 0 < word }
    ensures { result ≡ slot_in word }
{
    ((word - 1) % 2048) as usize
}

/// How many pairs the log of ring `w` has.
pub fn count_of(logs: &[Log], w: u32) -> u64
    requires { w < length logs.now }
    ensures { result ≡ length (log_of (pairs_in logs.now) w) }
{
    logs[w as usize].as_slice().len() as u64
}

/// Puts a pair behind the others in the log of ring `w`, which has room.
pub fn add_pair(logs: &mut Vec<Log>, w: u32, slot: u32, number: u32)
    requires there { w < length logs.old.items }
    requires room { length (log_of (pairs_in logs.old.items) w) < slice_index (rooms_in logs.old.items) w }
    ensures pairs { pairs_in logs.new.items
        ≡ slice_set (pairs_in logs.old.items) w (log_of (pairs_in logs.old.items) w ++ (slot, number) ∷ []) }
    ensures long { length logs.new.items ≡ length logs.old.items }
    ensures rooms { (x : ℕ) → slice_index (rooms_in logs.old.items) x ≤ slice_index (rooms_in logs.new.items) x }
{
    logs[w as usize].add(slot, number);
}

/// The first place of the slot.
pub fn place_of(items: &[u32], slot: u32) -> usize
    requires { 0 < times slot items.now }
    ensures there { (result < length items.now) × (slice_index items.now result ≡ slot) }
    ensures first { (k : ℕ) → k < result → slice_index items.now k ≢ slot }
{
    for (i, x) in items.iter().enumerate() {
        if *x == slot {
            return i;
        }
    }
    unreachable!()
}
