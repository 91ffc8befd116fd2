//! The backends of a stage `balance`.

ghost use Rattle.std.specs.Prelude.{◌≡◌, ◌≤◌, false, IfOk, IsTrue, codes, length, vec_len, map};
ghost use Rattle.toml.specs.View.{view, array_view, table_view};
ghost use Rattle.chain_spec.specs.ChainSet.{is_among, are_distinct, are_backends_right};
ghost use Rattle.chain_spec.specs.Fields.{each, name_in};
ghost use Rattle.chain_spec.specs.StageWalk as spec;
ghost use Rattle.chain_types.specs.StageView.{backend_view, backends_view};
ghost use Rattle.chain_text.specs.Gives.{Gives};
ghost use Rattle.stage_text.specs.Names.{backend_names};

use brick_base::Name;
use chain_text::{ChainFault, array_in, is_name, known, mac_in, required, table_in, text_in};
use chain_types::Backend;
use std::alloc::Global;
use toml::value::Array;
use toml::{Table, Value};

fn has_backend(backends: &[Backend], name: &str) -> bool
    ensures { result ≡ is_among name.now (backend_names backends.now) }
{
    for backend in backends {
        if backend.name.as_str() == name {
            return true;
        }
    }
    false
}

/// A name that no earlier backend has.
#[tactic(auto, unfolding(chain_spec::specs::Fields::name_in))]
fn backend_name(
    alloc: Global,
    place: u32,
    earlier: &[Backend],
    value: &Value,
) -> Result<Name, ChainFault>
    ensures value { Gives (λ n. n) result (name_in place (codes "name") (backend_names earlier.now) (view value.now)) }
    ensures fresh { IfOk result (λ n. is_among n (backend_names earlier.now) ≡ false) }
{
    let text = text_in(alloc, place, "name", value)?;
    if !is_name(text) || has_backend(earlier, text) {
        return Err(ChainFault::Name { place });
    }
    let name = Name::new(alloc, text)?;
    Ok(name)
}

#[tactic(auto, unfolding(chain_spec::specs::StageWalk::backend_values))]
fn backend_values(
    alloc: Global,
    place: u32,
    before: &[Backend],
    table: &Table,
) -> Result<Backend, ChainFault>
    ensures value { Gives backend_view result
        (spec.backend_values place (backends_view before.now) (table_view table.now)) }
    ensures fresh { IfOk result (λ b. is_among b.name (backend_names before.now) ≡ false) }
{
    let row = ["name", "mac"];
    known(alloc, place, row.as_slice(), table)?;
    let name = required(alloc, place, "name", table)?;
    let name = backend_name(alloc, place, before, name)?;
    let mac = required(alloc, place, "mac", table)?;
    let mac = mac_in(alloc, place, "mac", mac)?;
    Ok(Backend { name, mac })
}

/// The backend of one member of the list.
#[tactic(auto, unfolding(chain_spec::specs::StageWalk::backend_at))]
fn backend_at(
    alloc: Global,
    place: u32,
    before: &[Backend],
    value: &Value,
) -> Result<Backend, ChainFault>
    ensures value { Gives backend_view result (spec.backend_at place (backends_view before.now) (view value.now)) }
    ensures fresh { IfOk result (λ b. is_among b.name (backend_names before.now) ≡ false) }
{
    let table = table_in(alloc, place, "backend", value)?;
    backend_values(alloc, place, before, table)
}

fn backends(alloc: Global, place: u32, array: &Array) -> Result<Vec<Backend>, ChainFault>
    ensures value { Gives (λ v. backends_view v.items) result (each (spec.backend_at place) (array_view array.now)) }
    ensures len { IfOk result (λ v. vec_len v ≡ vec_len array.now) }
    ensures distinct { IfOk result (λ v. IsTrue (are_distinct (backend_names v.items))) }
{
    let mut backends = Vec::new(alloc);
    for value in array {
        let backend = backend_at(alloc, place, backends.as_slice(), value)?;
        backends.push(backend)?;
    }
    Ok(backends)
}

/// 1 to 64 backends with distinct names.
#[tactic(auto, unfolding(chain_spec::specs::StageWalk::backends_in))]
pub(crate) fn backends_in(
    alloc: Global,
    place: u32,
    value: &Value,
) -> Result<Vec<Backend>, ChainFault>
    ensures value { Gives (λ v. backends_view v.items) result (spec.backends_in place (view value.now)) }
    ensures count { IfOk result (λ v. (1 ≤ length v.items) × (length v.items ≤ 64)) }
    ensures distinct { IfOk result (λ v. IsTrue (are_distinct (backend_names v.items))) }
{
    let array = array_in(alloc, place, "backend", 1, 64, value)?;
    backends(alloc, place, array)
}
