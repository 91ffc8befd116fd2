//! The tenants of a chain file.

ghost use Rattle.std.specs.Prelude.{◌≡◌, ◌≤◌, ◌<◌, ◌^◌, false, IfOk, IsTrue, codes, length, vec_len, map, option_map};
ghost use Rattle.toml.specs.View.{view, array_view, table_view};
ghost use Rattle.brick_spec.specs.Name.{is_name};
ghost use Rattle.chain_spec.specs.ChainSet.{is_among, are_distinct, are_stages_right, chain_of};
ghost use Rattle.chain_spec.specs.ChainWalk as spec;
ghost use Rattle.chain_spec.specs.Fields as fields;
ghost use Rattle.flow_key.specs.View.{plan_view};
ghost use Rattle.chain_types.specs.StageView.{stages_view};
ghost use Rattle.chain_types.specs.View.{chain_view};
ghost use Rattle.chain_text.specs.Gives.{Gives};
ghost use Rattle.chain_file.specs.View.{chain_names, group_names, named_view, settings_view};

use crate::fits::{has_one_window, lacks_plan};
use crate::groups::groups_in;
use crate::named::{NamedGroup, Settings};
use crate::outputs::{groups_with, outputs_of};
use crate::settings::settings_in;
use brick_base::Name;
use chain_text::{
    ChainFault, bytes_in, count_of, is_name, known, missing, number_in, range, required, table_in,
    text_in, value_at,
};
use chain_types::{Chain, Stage};
use flow_key::NatPlan;
use stage_text::{nat_at, stages_at};
use std::alloc::Global;
use toml::value::Array;
use toml::{Table, Value};

/// The last version of chain files.
const LAST_VERSION: u32 = 2;

/// How many tenants a chain file may have.
const MOST_TENANTS: usize = 16;

fn has_tenant(chains: &[Chain], name: &str) -> bool
    ensures { result ≡ is_among name.now (chain_names chains.now) }
{
    for chain in chains {
        if chain.name.as_str() == name {
            return true;
        }
    }
    false
}

/// A name that no earlier tenant has.
#[tactic(auto, unfolding(chain_spec::specs::Fields::name_in))]
fn name_in(alloc: Global, place: u32, earlier: &[Chain], value: &Value) -> Result<Name, ChainFault>
    ensures value { Gives (λ n. n) result
        (fields.name_in place (codes "name") (chain_names earlier.now) (view value.now)) }
    ensures named { IfOk result (λ n. IsTrue (is_name n)) }
    ensures fresh { IfOk result (λ n. is_among n (chain_names earlier.now) ≡ false) }
{
    let text = text_in(alloc, place, "name", value)?;
    if !is_name(text) || has_tenant(earlier, text) {
        return Err(ChainFault::Name { place });
    }
    let name = Name::new(alloc, text)?;
    Ok(name)
}

#[tactic(auto, unfolding(chain_spec::specs::ChainWalk::tenant_name))]
fn tenant_name(
    alloc: Global,
    place: u32,
    earlier: &[Chain],
    table: &Table,
) -> Result<Name, ChainFault>
    ensures value { Gives (λ n. n) result (spec.tenant_name place (chain_names earlier.now) (table_view table.now)) }
    ensures named { IfOk result (λ n. IsTrue (is_name n)) }
    ensures fresh { IfOk result (λ n. is_among n (chain_names earlier.now) ≡ false) }
{
    let value = required(alloc, place, "name", table)?;
    name_in(alloc, place, earlier, value)
}

/// The name of a capture, 1 to 255 bytes.
#[tactic(auto, unfolding(chain_spec::specs::ChainWalk::capture_in))]
fn capture_in(alloc: Global, place: u32, value: &Value) -> Result<Name, ChainFault>
    ensures value { Gives (λ n. n) result (spec.capture_in place (view value.now)) }
    ensures len { IfOk result (λ n. (1 ≤ length n) × (length n ≤ 255)) }
{
    let text = bytes_in(alloc, 1, 255, place, "capture", value)?;
    let name = Name::new(alloc, text)?;
    Ok(name)
}

#[tactic(auto, unfolding(chain_spec::specs::ChainWalk::tenant_capture))]
fn tenant_capture(alloc: Global, place: u32, table: &Table) -> Result<Name, ChainFault>
    ensures value { Gives (λ n. n) result (spec.tenant_capture place (table_view table.now)) }
    ensures len { IfOk result (λ n. (1 ≤ length n) × (length n ≤ 255)) }
{
    let value = required(alloc, place, "capture", table)?;
    capture_in(alloc, place, value)
}

#[tactic(auto, unfolding(chain_spec::specs::ChainWalk::tenant_stages))]
fn tenant_stages(alloc: Global, place: u32, table: &Table) -> Result<Vec<Stage>, ChainFault>
    ensures value { Gives (λ v. stages_view v.items) result (spec.tenant_stages place (table_view table.now)) }
    ensures right { IfOk result (λ v. IsTrue (are_stages_right (stages_view v.items))) }
{
    stages_at(alloc, place, value_at(table, "stages"))
}

#[tactic(auto, unfolding(chain_spec::specs::ChainWalk::tenant_groups))]
fn tenant_groups(
    alloc: Global,
    version: u32,
    place: u32,
    table: &Table,
) -> Result<Vec<NamedGroup>, ChainFault>
    ensures value { Gives (λ v. map named_view v.items) result
        (spec.tenant_groups version place (table_view table.now)) }
    ensures count { IfOk result (λ v. (1 ≤ length v.items) × (length v.items ≤ 16)) }
    ensures distinct { IfOk result (λ v. IsTrue (are_distinct (group_names v.items))) }
{
    let value = required(alloc, place, "group", table)?;
    groups_in(alloc, version, place, value)
}

/// No key but those of a tenant's table.
#[tactic(auto, unfolding(chain_spec::specs::ChainWalk::tenant_row))]
fn tenant_keys(alloc: Global, place: u32, table: &Table) -> Result<(), ChainFault>
    ensures { Gives (λ _. tt) result (fields.known place spec.tenant_row (table_view table.now)) }
{
    let row = [
        "name", "capture", "buffers", "bytes", "dry", "unparsed", "nat", "stages", "group",
    ];
    known(alloc, place, row.as_slice(), table)
}

/// The chain of these parts: Missing where a stage `nat` has no plan, and then SecondWindow where a path has more than
/// one `window`.
#[tactic(auto, unfolding(chain_spec::specs::ChainWalk::fits, chain_spec::specs::ChainSet::chain_of))]
fn fits(
    alloc: Global,
    place: u32,
    name: Name,
    capture: Name,
    settings: Settings,
    nat: Option<NatPlan>,
    stages: Vec<Stage>,
    named: Vec<NamedGroup>,
) -> Result<Chain, ChainFault>
    requires named { IsTrue (is_name name) }
    requires capture { (1 ≤ length capture) × (length capture ≤ 255) }
    requires stages { IsTrue (are_stages_right (stages_view stages.items)) }
    requires count { (1 ≤ length named.items) × (length named.items ≤ 16) }
    requires distinct { IsTrue (are_distinct (group_names named.items)) }
    ensures name { IfOk result (λ c. c.name ≡ name) }
    ensures value { Gives chain_view result
        (spec.fits place (chain_of name capture (settings_view settings) (option_map plan_view nat)
        (stages_view stages.items) (map named_view named.items))) }
{
    let outputs = outputs_of(alloc, &named)?;
    let groups = groups_with(alloc, &outputs, named)?;
    if lacks_plan(&nat, &stages, &groups) {
        return Err(missing(alloc, place, "nat"));
    }
    if has_one_window(&stages, &groups) {
        Ok(Chain {
            name,
            capture,
            buffers: settings.buffers,
            bytes: settings.bytes,
            dry: settings.dry,
            unparsed: settings.unparsed,
            nat,
            stages,
            groups,
            outputs,
        })
    } else {
        Err(ChainFault::SecondWindow { place })
    }
}

/// The chain of a tenant's table.
#[tactic(auto, unfolding(chain_spec::specs::ChainWalk::tenant_values))]
fn tenant_values(
    alloc: Global,
    version: u32,
    place: u32,
    earlier: &[Chain],
    table: &Table,
) -> Result<Chain, ChainFault>
    ensures value { Gives chain_view result
        (spec.tenant_values version place (chain_names earlier.now) (table_view table.now)) }
    ensures fresh { IfOk result (λ c. is_among c.name (chain_names earlier.now) ≡ false) }
{
    tenant_keys(alloc, place, table)?;
    let name = tenant_name(alloc, place, earlier, table)?;
    let capture = tenant_capture(alloc, place, table)?;
    let settings = settings_in(alloc, place, table)?;
    let nat = nat_at(alloc, place, value_at(table, "nat"))?;
    let stages = tenant_stages(alloc, place, table)?;
    let groups = tenant_groups(alloc, version, place, table)?;
    fits(alloc, place, name, capture, settings, nat, stages, groups)
}

#[tactic(auto, unfolding(chain_spec::specs::ChainWalk::tenant_at))]
fn tenant_at(
    alloc: Global,
    version: u32,
    before: &[Chain],
    value: &Value,
) -> Result<Chain, ChainFault>
    requires { length before.now < 2 ^ 31 }
    ensures value { Gives chain_view result (spec.tenant_at version (map chain_view before.now) (view value.now)) }
    ensures fresh { IfOk result (λ c. is_among c.name (chain_names before.now) ≡ false) }
{
    let table = table_in(alloc, 0, "tenant", value)?;
    tenant_values(alloc, version, before.len() as u32 + 1, before, table)
}

fn tenants(alloc: Global, version: u32, array: &Array) -> Result<Vec<Chain>, ChainFault>
    requires { vec_len array.now < 2 ^ 31 }
    ensures value { Gives (λ v. map chain_view v.items) result
        (fields.each (spec.tenant_at version) (array_view array.now)) }
    ensures len { IfOk result (λ v. vec_len v ≡ vec_len array.now) }
    ensures distinct { IfOk result (λ v. IsTrue (are_distinct (chain_names v.items))) }
{
    let mut chains = Vec::new(alloc);
    for value in array {
        let chain = tenant_at(alloc, version, chains.as_slice(), value)?;
        chains.push(chain)?;
    }
    Ok(chains)
}

#[tactic(auto, unfolding(chain_spec::specs::ChainWalk::tenants_in))]
fn tenants_in(alloc: Global, version: u32, value: &Value) -> Result<Vec<Chain>, ChainFault>
    ensures value { Gives (λ v. map chain_view v.items) result (spec.tenants_in version (view value.now)) }
    ensures count { IfOk result (λ v. (1 ≤ length v.items) × (length v.items ≤ spec.most_tenants)) }
    ensures distinct { IfOk result (λ v. IsTrue (are_distinct (chain_names v.items))) }
{
    let Some(array) = value.as_array() else {
        return Err(range(alloc, 0, "tenant"));
    };
    let count = count_of(array);
    if count == 0 {
        return Err(range(alloc, 0, "tenant"));
    }
    if count > MOST_TENANTS {
        return Err(ChainFault::TooManyTenants {
            count: count.min(4_294_967_295) as u32,
        });
    }
    tenants(alloc, version, array)
}

/// The chains of the top table.
#[tactic(auto, unfolding(chain_spec::specs::ChainWalk::top))]
pub(crate) fn top(alloc: Global, table: &Table) -> Result<Vec<Chain>, ChainFault>
    ensures value { Gives (λ v. map chain_view v.items) result (spec.top (table_view table.now)) }
    ensures count { IfOk result (λ v. (1 ≤ length v.items) × (length v.items ≤ spec.most_tenants)) }
    ensures distinct { IfOk result (λ v. IsTrue (are_distinct (chain_names v.items))) }
{
    let row = ["version", "tenant"];
    known(alloc, 0, row.as_slice(), table)?;
    let version = required(alloc, 0, "version", table)?;
    let version = number_in(alloc, 0, "version", 1, LAST_VERSION, version)?;
    tenants_in(alloc, version, required(alloc, 0, "tenant", table)?)
}
