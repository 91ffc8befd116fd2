//! The turns, in which the backends take places.

ghost use Rattle.std.specs.Prelude.{◌≡◌, ℕ, ◌<◌, ◌≤◌, map, length, replicate, Option, None, unwrap_or, IfOk};
ghost use Rattle.brick_spec.specs.Balance.{Places, turns};
ghost use Rattle.lb_maglev.specs.Walks.{AreWalks};

use crate::table::PLACES;
use crate::walk::Walk;
use brick_base::{Name, NoMemory};
use std::alloc::Global;

/// The walks of the backends, none of which has passed a place.
pub fn new_walks(alloc: Global, names: &[Name]) -> Result<Vec<Walk>, NoMemory>
    ensures long { IfOk result (λ walks. length walks.items ≡ length names.now) }
    ensures walks { IfOk result (λ walks. (places : Places) → AreWalks places names.now walks.items) }
{
    let mut walks = Vec::new(alloc);
    for name in names {
        walks.push(Walk::new(alloc, name)?)?;
    }
    Ok(walks)
}

/// As many free places.
pub fn free_places(alloc: Global, count: usize) -> Result<Vec<Option<u8>>, NoMemory>
    ensures { IfOk result (λ places. places.items ≡ replicate count None) }
{
    let places = vec![in alloc; None; count]?;
    Ok(places)
}

/// The backends take turns until all places are taken.
pub fn take_turns(places: &mut [Option<u8>], walks: &mut [Walk], names: &[Name])
    requires some { 0 < length names.now }
    requires few { length names.now ≤ 64 }
    requires free { places.old ≡ turns names.now 0 }
    requires long { length walks.old ≡ length names.now }
    requires walks { AreWalks places.old names.now walks.old }
    ensures { places.new ≡ turns names.now 251 }
{
    for k in 0..PLACES {
        let backend = k % names.len();
        walks[backend].take_turn(places, backend as u8);
    }
}

/// The backend of each place, where all are taken.
pub fn taken_places(alloc: Global, places: &[Option<u8>]) -> Result<Vec<u8>, NoMemory>
    ensures { IfOk result (λ table. table.items ≡ map (λ backend. unwrap_or backend 0) places.now) }
{
    let table = places
        .iter()
        .map(|backend| backend.unwrap_or(0))
        .collect(alloc)?;
    Ok(table)
}
