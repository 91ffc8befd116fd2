//! The rows inside the parts of a range.

ghost use Rattle.std.specs.Prelude.{◌≡◌, ◌≢◌, ℕ, ◌<◌, ◌≤◌, ◌+◌, [], ◌∷◌, ◌++◌, List, length, Some, IfOk, OnOk};
ghost use Rattle.lpm_fw.specs.Parts.{list_at, rows_in};

use brick_base::NoMemory;
use std::alloc::Global;
use std::marker::Model;

/// Of each of the 256 parts of a range, the rows inside it, in the order in which they came.
#[derive(Drop)]
pub(crate) struct Parts {
    // where the list of a part stands
    places: [Option<usize>; 256],
    lists: Vec<Vec<u16>>,
}

impl Model for Parts {
    ghost use Rattle.std.specs.Prelude.{ℕ, List, map};
    ghost use Rattle.lpm_fw.specs.Parts.{list_at, ArePlaces};

    ghost Value = { List (List ℕ) };

    ghost view = { λ p. map (list_at p.lists.items) p.places };

    ghost invariant = { λ p. ArePlaces p.places p.lists.items };
}

impl Parts {
    /// No row.
    pub(crate) fn new(alloc: Global) -> Parts
        ensures { (part : ℕ) → rows_in result part ≡ [] }
    {
        Parts {
            places: [None; 256],
            lists: Vec::new(alloc),
        }
    }

    /// Puts a row behind those of a part.
    pub(crate) fn push(&mut self, alloc: Global, part: usize, k: u16) -> Result<(), NoMemory>
        requires { part < 256 }
        ensures here { OnOk result (rows_in self.new part ≡ rows_in self.old part ++ k ∷ []) }
        ensures others { OnOk result ((other : ℕ) → other ≢ part → rows_in self.new other ≡ rows_in self.old other) }
    {
        match self.places[part] {
            Some(n) => push_at(&mut self.lists, n, k)?,
            None => {
                self.places[part] = Some(push_list(alloc, &mut self.lists, k)?);
            }
        }
        Ok(())
    }

    /// The rows of a part.
    pub(crate) fn get(&self, part: usize) -> &[u16]
        requires { part < 256 }
        ensures { result.now ≡ rows_in self.now part }
    {
        match self.places[part] {
            Some(n) => &self.lists[n],
            None => &[],
        }
    }
}

/// Puts a row behind those of a list.
fn push_at(lists: &mut Vec<Vec<u16>>, n: usize, k: u16) -> Result<(), NoMemory>
    requires { n < length lists.old.items }
    ensures long { length lists.new.items ≡ length lists.old.items }
    ensures here { OnOk result (list_at lists.new.items (Some n) ≡ list_at lists.old.items (Some n) ++ k ∷ []) }
    ensures others { (m : ℕ) → m ≢ n → list_at lists.new.items (Some m) ≡ list_at lists.old.items (Some m) }
{
    lists[n].push(k)?;
    Ok(())
}

/// Puts a list of one row behind the others, and gives its place.
fn push_list(alloc: Global, lists: &mut Vec<Vec<u16>>, k: u16) -> Result<usize, NoMemory>
    ensures place { IfOk result (λ n. (n ≡ length lists.old.items) × (length lists.new.items ≡ n + 1)) }
    ensures here { IfOk result (λ n. list_at lists.new.items (Some n) ≡ k ∷ []) }
    ensures others { (m : ℕ) → m < length lists.old.items
        → list_at lists.new.items (Some m) ≡ list_at lists.old.items (Some m) }
    ensures kept { length lists.old.items ≤ length lists.new.items }
{
    let mut list = Vec::new(alloc);
    list.push(k)?;
    let n = lists.len();
    lists.push(list)?;
    Ok(n)
}
