//! The stages of a list.

ghost use Rattle.std.specs.Prelude.{◌≡◌, ◌≤◌, IfOk, IsTrue, codes, length, vec_len, map, option_map};
ghost use Rattle.std.specs.List.{list_all};
ghost use Rattle.toml.specs.View.{view, array_view, table_view};
ghost use Rattle.chain_spec.specs.ChainSet.{is_stage_right, are_stages_right};
ghost use Rattle.chain_spec.specs.Fields.{each};
ghost use Rattle.chain_spec.specs.StageWalk as spec;
ghost use Rattle.chain_types.specs.StageView.{stage_view, stages_view};
ghost use Rattle.chain_text.specs.Gives.{Gives};
ghost use Rattle.stage_text.specs.Kinds.{kind_view};

use crate::backends::backends_in;
use crate::epochs::epochs_at;
use crate::kinds::{Kind, kind_in, known_in};
use crate::matches::match_in;
use crate::routes::routes_in;
use crate::rules::{rules_at, verdict_in};
use chain_text::{
    ChainFault, array_in, bytes_in, mac_in, number_in, number_or, required, table_in,
    truth_or_false, value_at,
};
use chain_types::Stage;
use std::alloc::Global;
use std::sync::Arc;
use toml::value::Array;
use toml::{Table, Value};

#[tactic(auto, unfolding(chain_spec::specs::StageWalk::set_tos_values))]
fn set_tos(alloc: Global, place: u32, table: &Table) -> Result<Stage, ChainFault>
    ensures value { Gives stage_view result (spec.set_tos_values place (table_view table.now)) }
    ensures right { IfOk result (λ s. IsTrue (is_stage_right (stage_view s))) }
{
    let value = required(alloc, place, "value", table)?;
    let value = number_in(alloc, place, "value", 0, 255, value)?;
    Ok(Stage::SetTos { value: value as u8 })
}

#[tactic(auto, unfolding(chain_spec::specs::StageWalk::only_values))]
fn only(alloc: Global, place: u32, table: &Table) -> Result<Stage, ChainFault>
    ensures value { Gives stage_view result (spec.only_values place (table_view table.now)) }
    ensures right { IfOk result (λ s. IsTrue (is_stage_right (stage_view s))) }
{
    let wanted = required(alloc, place, "match", table)?;
    let wanted = match_in(alloc, place, wanted)?;
    Ok(Stage::Only { wanted })
}

#[tactic(auto, unfolding(chain_spec::specs::StageWalk::firewall_values))]
fn firewall(alloc: Global, place: u32, table: &Table) -> Result<Stage, ChainFault>
    ensures value { Gives stage_view result (spec.firewall_values place (table_view table.now)) }
    ensures right { IfOk result (λ s. IsTrue (is_stage_right (stage_view s))) }
{
    let default = required(alloc, place, "default", table)?;
    let default = verdict_in(alloc, place, "default", default)?;
    let established = value_at(table, "established");
    let established = truth_or_false(alloc, place, "established", established)?;
    let rules = rules_at(alloc, place, value_at(table, "rule"))?;
    Ok(Stage::Firewall {
        default,
        established,
        rules,
    })
}

#[tactic(auto, unfolding(chain_spec::specs::StageWalk::route_stage_values))]
fn route(alloc: Global, place: u32, table: &Table) -> Result<Stage, ChainFault>
    ensures value { Gives stage_view result (spec.route_stage_values place (table_view table.now)) }
    ensures right { IfOk result (λ s. IsTrue (is_stage_right (stage_view s))) }
{
    let mac = required(alloc, place, "mac", table)?;
    let mac = mac_in(alloc, place, "mac", mac)?;
    let routes = required(alloc, place, "route", table)?;
    let routes = routes_in(alloc, place, routes)?;
    let routes = Arc::new(alloc, routes)?;
    Ok(Stage::Route { mac, routes })
}

#[tactic(auto, unfolding(chain_spec::specs::StageWalk::balance_values))]
fn balance(alloc: Global, place: u32, table: &Table) -> Result<Stage, ChainFault>
    ensures value { Gives stage_view result (spec.balance_values place (table_view table.now)) }
    ensures right { IfOk result (λ s. IsTrue (is_stage_right (stage_view s))) }
{
    let backends = required(alloc, place, "backend", table)?;
    let backends = backends_in(alloc, place, backends)?;
    let changes = epochs_at(alloc, place, value_at(table, "epoch"))?;
    Ok(Stage::Balance { backends, changes })
}

/// How far behind the first gap of a stream data may end.
fn reach_at(alloc: Global, place: u32, table: &Table) -> Result<u32, ChainFault>
    ensures value { Gives (λ n. n) result (spec.reach_at place (table_view table.now)) }
    ensures bounds { IfOk result (λ n. (1460 ≤ n) × (n ≤ 1048576)) }
{
    let reach = value_at(table, "reach");
    number_or(alloc, place, "reach", 1460, 1_048_576, 65_536, reach)
}

#[tactic(auto, unfolding(chain_spec::specs::StageWalk::window_values))]
fn window(alloc: Global, place: u32, table: &Table) -> Result<Stage, ChainFault>
    ensures value { Gives stage_view result (spec.window_values place (table_view table.now)) }
    ensures right { IfOk result (λ s. IsTrue (is_stage_right (stage_view s))) }
{
    let size = required(alloc, place, "size", table)?;
    let size = number_in(alloc, place, "size", 64, 1460, size)?;
    let reach = reach_at(alloc, place, table)?;
    Ok(Stage::Window { size, reach })
}

#[tactic(auto, unfolding(chain_spec::specs::StageWalk::scan_values))]
fn scan(alloc: Global, place: u32, table: &Table) -> Result<Stage, ChainFault>
    ensures value { Gives stage_view result (spec.scan_values place (table_view table.now)) }
    ensures right { IfOk result (λ s. IsTrue (is_stage_right (stage_view s))) }
{
    let find = required(alloc, place, "find", table)?;
    let find = bytes_in(alloc, 1, 64, place, "find", find)?;
    let reach = reach_at(alloc, place, table)?;
    let text = find.as_bytes().to_vec(alloc)?;
    Ok(Stage::Scan { text, reach })
}

/// The stage of this kind with the values of its keys.
#[tactic(auto, unfolding(chain_spec::specs::StageWalk::stage_values))]
fn stage_values(alloc: Global, place: u32, kind: Kind, table: &Table) -> Result<Stage, ChainFault>
    ensures value { Gives stage_view result (spec.stage_values place (kind_view kind) (table_view table.now)) }
    ensures right { IfOk result (λ s. IsTrue (is_stage_right (stage_view s))) }
{
    match kind {
        Kind::Ttl => Ok(Stage::Ttl),
        Kind::SetTos => set_tos(alloc, place, table),
        Kind::Only => only(alloc, place, table),
        Kind::Firewall => firewall(alloc, place, table),
        Kind::Route => route(alloc, place, table),
        Kind::Nat => Ok(Stage::Nat),
        Kind::Balance => balance(alloc, place, table),
        Kind::Window => window(alloc, place, table),
        Kind::Scan => scan(alloc, place, table),
    }
}

/// The stage of one member of the list.
#[tactic(auto, unfolding(chain_spec::specs::StageWalk::stage_at))]
fn stage_at(alloc: Global, place: u32, before: &[Stage], value: &Value) -> Result<Stage, ChainFault>
    ensures value { Gives stage_view result (spec.stage_at place (stages_view before.now) (view value.now)) }
    ensures right { IfOk result (λ s. IsTrue (is_stage_right (stage_view s))) }
{
    let table = table_in(alloc, place, "stages", value)?;
    let kind = kind_in(alloc, place, required(alloc, place, "stage", table)?)?;
    known_in(alloc, place, kind, table)?;
    stage_values(alloc, place, kind, table)
}

fn stages(alloc: Global, place: u32, array: &Array) -> Result<Vec<Stage>, ChainFault>
    ensures value { Gives (λ v. stages_view v.items) result (each (spec.stage_at place) (array_view array.now)) }
    ensures len { IfOk result (λ v. vec_len v ≡ vec_len array.now) }
    ensures right { IfOk result (λ v. IsTrue (list_all is_stage_right (stages_view v.items))) }
{
    let mut stages = Vec::new(alloc);
    for value in array {
        let stage = stage_at(alloc, place, stages.as_slice(), value)?;
        stages.push(stage)?;
    }
    Ok(stages)
}

/// 0 to 32 stages. No value is no stage.
#[tactic(auto, unfolding(chain_spec::specs::StageWalk::stages_at))]
pub fn stages_at(alloc: Global, place: u32, value: Option<&Value>) -> Result<Vec<Stage>, ChainFault>
    ensures value { Gives (λ v. stages_view v.items) result
        (spec.stages_at place (option_map (λ v. view v.now) value.entry)) }
    ensures right { IfOk result (λ v. IsTrue (are_stages_right (stages_view v.items))) }
{
    let Some(value) = value else {
        return Ok(Vec::new(alloc));
    };
    let array = array_in(alloc, place, "stages", 0, 32, value)?;
    stages(alloc, place, array)
}
