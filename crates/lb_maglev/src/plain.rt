//! The balance table straight from its definition, slowly: in each turn all preferred places are looked at again.
//! It is there to compare other ways with.

ghost use Rattle.std.specs.Prelude.{◌≡◌, ◌<◌, ◌≤◌, length, IfSome, OnOk, IfOk};
ghost use Rattle.brick_spec.specs.Balance.{first_free, turn, turns, balance_table};

use crate::hashes::{offset_of, skip_of};
use crate::table::PLACES;
use crate::turns::{free_places, taken_places};
use brick_base::{Name, NoMemory};
use std::alloc::Global;

/// The number of each place's backend, for 1 to 64 names.
pub fn balance_table(alloc: Global, names: &[Name]) -> Result<Vec<u8>, NoMemory>
    requires some { 0 < length names.now }
    requires few { length names.now ≤ 64 }
    ensures { IfOk result (λ table. table.items ≡ balance_table names.now) }
{
    let mut places = free_places(alloc, PLACES)?;
    take_turns(alloc, &mut places, names)?;
    taken_places(alloc, &places)
}

/// The backends take 251 turns.
fn take_turns(alloc: Global, places: &mut [Option<u8>], names: &[Name]) -> Result<(), NoMemory>
    requires some { 0 < length names.now }
    requires few { length names.now ≤ 64 }
    requires free { places.old ≡ turns names.now 0 }
    ensures { OnOk result (places.new ≡ turns names.now 251) }
{
    for k in 0..PLACES {
        let backend = k % names.len();
        take_turn(alloc, places, &names[backend], backend as u8)?;
    }
    Ok(())
}

/// The backend takes its first preferred place that is still free, where there is one.
fn take_turn(
    alloc: Global,
    places: &mut [Option<u8>],
    name: &Name,
    backend: u8,
) -> Result<(), NoMemory>
    requires { length places.old ≡ 251 }
    ensures { OnOk result (places.new ≡ turn places.old name.now backend) }
{
    let offset = offset_of(alloc, name)?;
    let skip = skip_of(alloc, name)?;
    if let Some(place) = first_free(places, offset, skip) {
        places[place] = Some(backend);
    }
    Ok(())
}

/// The first place that is still free, of those that go on by `skip` from `offset`.
fn first_free(places: &[Option<u8>], offset: usize, skip: usize) -> Option<usize>
    requires long { length places.now ≡ 251 }
    requires offset { offset < 251 }
    requires skip { skip ≤ 250 }
    ensures first { result ≡ first_free places.now offset skip }
    ensures within { IfSome result (λ place. place < 251) }
{
    for j in 0..PLACES {
        let place = (offset + j * skip) % PLACES;
        if places[place].is_none() {
            return Some(place);
        }
    }
    None
}
