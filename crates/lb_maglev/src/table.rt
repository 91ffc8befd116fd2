//! The table.

ghost use Rattle.std.specs.Prelude.{◌≡◌, ℕ, ◌+◌, ◌<◌, ◌≤◌, Some, map, length, sum, IfOk};
ghost use Rattle.std.specs.List.{range_with_len};
ghost use Rattle.brick_spec.specs.Balance.{turns, balance_table, backend_in, share_in};

use crate::turns::{free_places, new_walks, take_turns, taken_places};
use brick_base::{Name, NoMemory};
use std::alloc::Global;
use std::marker::Model;

/// How many places there are.
pub const PLACES: usize = 251;

/// A balance table. Contracts see the backend of each place, by its number in the list of names.
#[derive(Debug, Drop)]
pub struct Maglev {
    backends: Vec<u8>,
}

impl Model for Maglev {
    ghost use Rattle.std.specs.Prelude.{◌≡◌, ℕ, List, vec_len};

    ghost Value = { List ℕ };

    ghost view = { λ table. table.backends.items };

    ghost invariant = { λ table. vec_len table.backends ≡ 251 };
}

impl Maglev {
    /// The table of the backends with these names, 1 to 64.
    pub fn build(alloc: Global, names: &[Name]) -> Result<Maglev, NoMemory>
        requires some { 0 < length names.now }
        requires few { length names.now ≤ 64 }
        ensures table { IfOk result (λ table. table ≡ balance_table names.now) }

        // After 251 turns all places are taken, and no further turn would change anything.
        ensures taken { IfOk result (λ table. (k : ℕ) → 251 ≤ k → turns names.now k ≡ map Some table) }

        // Each hash leads to a backend of the list.
        ensures backends { IfOk result (λ table. (hash : ℕ) → backend_in table hash < length names.now) }

        // The shares add up to all places, differ by at most one, and go to backends of the list alone.
        ensures whole { IfOk result (λ table. sum (map (share_in table) (range_with_len 0 (length names.now))) ≡ 251) }
        ensures even { IfOk result (λ table. (a b : ℕ) → a < length names.now → b < length names.now
            → share_in table a ≤ share_in table b + 1) }
        ensures others { IfOk result (λ table. (b : ℕ) → length names.now ≤ b → share_in table b ≡ 0) }
    {
        let mut walks = new_walks(alloc, names)?;
        let mut places = free_places(alloc, PLACES)?;
        take_turns(&mut places, &mut walks, names);
        let backends = taken_places(alloc, &places)?;
        Ok(Maglev { backends })
    }

    /// The number of the backend to which a flow goes, by the hash of the flow's key.
    pub fn backend(&self, hash: u64) -> u8
        ensures { result ≡ backend_in self.now hash }
    {
        self.backends[(hash % 251) as usize]
    }

    /// How many of the 251 places backend `b` has, 0 where the list has no such backend.
    pub fn share(&self, b: u8) -> u32
        ensures { result ≡ share_in self.now b }
    {
        count_of(&self.backends, b)
    }
}

/// How many of the places backend `b` has.
fn count_of(backends: &[u8], b: u8) -> u32
    requires { length backends.now ≡ 251 }
    ensures { result ≡ share_in backends.now b }
{
    backends.iter().filter(|backend| **backend == b).count() as u32
}
