//! The epochs of a stage `balance`.

ghost use Rattle.std.specs.Prelude.{◌≡◌, ◌≤◌, ◌<◌, IfOk, IsTrue, codes, length, vec_len, map, option_map};
ghost use Rattle.std.specs.List.{list_all};
ghost use Rattle.toml.specs.View.{view, array_view, table_view};
ghost use Rattle.chain_spec.specs.ChainSet.{are_backends_right, are_rising};
ghost use Rattle.chain_spec.specs.Fields.{each};
ghost use Rattle.chain_spec.specs.StageWalk as spec;
ghost use Rattle.chain_types.specs.StageView.{backends_view, change_view};
ghost use Rattle.chain_text.specs.Gives.{Gives};

use crate::backends::backends_in;
use chain_text::{ChainFault, array_in, known, number_in, required, table_in};
use chain_types::{Backend, Change};
use std::alloc::Global;
use toml::value::Array;
use toml::{Table, Value};

/// Where the last epoch begins.
fn last_begin(before: &[Change]) -> u32
    ensures { result ≡ spec.last_begin (map change_view before.now) }
{
    match before.last() {
        Some(change) => change.from,
        None => 0,
    }
}

/// 1 to 64 backends with distinct names.
fn right_backends(alloc: Global, place: u32, value: &Value) -> Result<Vec<Backend>, ChainFault>
    ensures value { Gives (λ v. backends_view v.items) result (spec.backends_in place (view value.now)) }
    ensures right { IfOk result (λ v. IsTrue (are_backends_right (backends_view v.items))) }
{
    backends_in(alloc, place, value)
}

#[tactic(auto, unfolding(chain_spec::specs::StageWalk::epoch_values))]
fn epoch_values(
    alloc: Global,
    place: u32,
    before: &[Change],
    table: &Table,
) -> Result<Change, ChainFault>
    ensures value { Gives change_view result
        (spec.epoch_values place (map change_view before.now) (table_view table.now)) }
    ensures rises { IfOk result (λ c. spec.last_begin (map change_view before.now) < c.from) }
    ensures right { IfOk result (λ c. IsTrue (are_backends_right (backends_view c.backends.items))) }
{
    let row = ["from", "backend"];
    known(alloc, place, row.as_slice(), table)?;
    let from = required(alloc, place, "from", table)?;
    let first = last_begin(before) as u64 + 1;
    let from = number_in(alloc, place, "from", first, u32::MAX, from)?;
    let backends = required(alloc, place, "backend", table)?;
    let backends = right_backends(alloc, place, backends)?;
    Ok(Change { from, backends })
}

/// The epoch of one member of the list.
#[tactic(auto, unfolding(chain_spec::specs::StageWalk::epoch_at))]
fn epoch_at(
    alloc: Global,
    place: u32,
    before: &[Change],
    value: &Value,
) -> Result<Change, ChainFault>
    ensures value { Gives change_view result (spec.epoch_at place (map change_view before.now) (view value.now)) }
    ensures rises { IfOk result (λ c. spec.last_begin (map change_view before.now) < c.from) }
    ensures right { IfOk result (λ c. IsTrue (are_backends_right (backends_view c.backends.items))) }
{
    let table = table_in(alloc, place, "epoch", value)?;
    epoch_values(alloc, place, before, table)
}

fn epochs(alloc: Global, place: u32, array: &Array) -> Result<Vec<Change>, ChainFault>
    ensures value { Gives (λ v. map change_view v.items) result (each (spec.epoch_at place) (array_view array.now)) }
    ensures len { IfOk result (λ v. vec_len v ≡ vec_len array.now) }
    ensures rising { IfOk result (λ v. IsTrue (are_rising 0 (map change_view v.items))) }
    ensures right { IfOk result
        (λ v. IsTrue (list_all (λ c. are_backends_right c.backends) (map change_view v.items))) }
{
    let mut epochs = Vec::new(alloc);
    for value in array {
        let epoch = epoch_at(alloc, place, epochs.as_slice(), value)?;
        epochs.push(epoch)?;
    }
    Ok(epochs)
}

/// 0 to 15 epochs, which begin at rising record numbers. No value is no epoch.
#[tactic(auto, unfolding(chain_spec::specs::StageWalk::epochs_at))]
pub(crate) fn epochs_at(
    alloc: Global,
    place: u32,
    value: Option<&Value>,
) -> Result<Vec<Change>, ChainFault>
    ensures value { Gives (λ v. map change_view v.items) result
        (spec.epochs_at place (option_map (λ v. view v.now) value.entry)) }
    ensures few { IfOk result (λ v. length v.items ≤ 15) }
    ensures rising { IfOk result (λ v. IsTrue (are_rising 0 (map change_view v.items))) }
    ensures right { IfOk result
        (λ v. IsTrue (list_all (λ c. are_backends_right c.backends) (map change_view v.items))) }
{
    let Some(value) = value else {
        return Ok(Vec::new(alloc));
    };
    let array = array_in(alloc, place, "epoch", 0, 15, value)?;
    epochs(alloc, place, array)
}
