//! The rows of a stage `route`.

ghost use Rattle.std.specs.Prelude.{◌≡◌, ◌≤◌, IfOk, None, codes, length, vec_len, map};
ghost use Rattle.toml.specs.View.{view, array_view, table_view};
ghost use Rattle.brick_spec.specs.Route.{first_fault};
ghost use Rattle.chain_spec.specs.Fields.{each};
ghost use Rattle.chain_spec.specs.StageWalk as spec;
ghost use Rattle.lpm_fw.specs.RouteView.{route_view};
ghost use Rattle.lpm_fw.specs.Scan.{AreShort};
ghost use Rattle.chain_text.specs.Gives.{Gives};

use chain_text::{ChainFault, any_prefix_in, array_in, known, mac_in, required, table_in};
use lpm_fw::{Route, RouteFault, Routes};
use std::alloc::Global;
use toml::value::Array;
use toml::{Table, Value};

#[tactic(auto, unfolding(chain_spec::specs::StageWalk::route_values))]
fn route_values(alloc: Global, place: u32, table: &Table) -> Result<Route, ChainFault>
    ensures value { Gives route_view result (spec.route_values place (table_view table.now)) }
    ensures short { IfOk result (λ r. r.bits ≤ 32) }
{
    let row = ["to", "via"];
    known(alloc, place, row.as_slice(), table)?;
    let to = required(alloc, place, "to", table)?;
    let to = any_prefix_in(alloc, place, "to", to)?;
    let via = required(alloc, place, "via", table)?;
    let via = mac_in(alloc, place, "via", via)?;
    Ok(Route {
        to: to.addr,
        bits: to.bits,
        via,
    })
}

/// The row of one member of the list.
#[tactic(auto, unfolding(chain_spec::specs::StageWalk::route_at))]
fn route_at(alloc: Global, place: u32, before: &[Route], value: &Value) -> Result<Route, ChainFault>
    ensures value { Gives route_view result (spec.route_at place (map route_view before.now) (view value.now)) }
    ensures short { IfOk result (λ r. r.bits ≤ 32) }
{
    let table = table_in(alloc, place, "route", value)?;
    route_values(alloc, place, table)
}

fn rows(alloc: Global, place: u32, array: &Array) -> Result<Vec<Route>, ChainFault>
    ensures value { Gives (λ v. map route_view v.items) result (each (spec.route_at place) (array_view array.now)) }
    ensures len { IfOk result (λ v. vec_len v ≡ vec_len array.now) }
    ensures short { IfOk result (λ v. AreShort v.items) }
{
    let mut rows = Vec::new(alloc);
    for value in array {
        let row = route_at(alloc, place, rows.as_slice(), value)?;
        rows.push(row)?;
    }
    Ok(rows)
}

/// The table of these rows: else its first fault.
fn table_of(alloc: Global, place: u32, rows: Vec<Route>) -> Result<Routes, ChainFault>
    requires few { length rows.items ≤ 4096 }
    requires short { AreShort rows.items }
    ensures value { Gives (map route_view) result
        (spec.sound_rows place (map route_view rows.items) (first_fault (map route_view rows.items))) }
    ensures right { IfOk result (λ routes. first_fault (map route_view routes) ≡ None) }
    ensures same { IfOk result (λ routes. routes ≡ rows.items) }
{
    match Routes::build(alloc, rows) {
        Ok(routes) => Ok(routes),
        Err(RouteFault::NoMemory) => Err(ChainFault::NoMemory),
        Err(fault) => Err(ChainFault::Route { place, fault }),
    }
}

/// The table of 1 to 4,096 rows, which have no fault.
#[tactic(auto, unfolding(chain_spec::specs::StageWalk::routes_in))]
pub(crate) fn routes_in(alloc: Global, place: u32, value: &Value) -> Result<Routes, ChainFault>
    ensures value { Gives (map route_view) result (spec.routes_in place (view value.now)) }
    ensures count { IfOk result (λ routes. (1 ≤ length routes) × (length routes ≤ 4096)) }
    ensures right { IfOk result (λ routes. first_fault (map route_view routes) ≡ None) }
{
    let array = array_in(alloc, place, "route", 1, 4096, value)?;
    let rows = rows(alloc, place, array)?;
    table_of(alloc, place, rows)
}
