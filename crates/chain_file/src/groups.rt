//! The groups of a tenant.

ghost use Rattle.std.specs.Prelude.{◌≡◌, ◌≤◌, false, IfOk, IsTrue, codes, length, vec_len, map};
ghost use Rattle.toml.specs.View.{view, array_view, table_view};
ghost use Rattle.chain_spec.specs.ChainSet.{is_among, are_distinct};
ghost use Rattle.chain_spec.specs.ChainWalk as spec;
ghost use Rattle.chain_spec.specs.Fields as fields;
ghost use Rattle.chain_text.specs.Gives.{Gives};
ghost use Rattle.chain_file.specs.View.{named_view, group_names};

use crate::below::below_at;
use crate::leaves::leaf_values;
use crate::named::NamedGroup;
use crate::named_leaf::NamedLeaf;
use brick_base::NoMemory;
use chain_text::{ChainFault, array_in, known, table_in, value_at};
use std::alloc::Global;
use toml::value::Array;
use toml::{Table, Value};

/// How many groups a tenant may have.
const MOST_GROUPS: usize = 16;

/// No key but those of a group's table; from version 2 on it may have groups in it.
fn known_in_group(alloc: Global, version: u32, place: u32, table: &Table) -> Result<(), ChainFault>
    ensures { Gives (λ _. tt) result (fields.known place (spec.group_row version) (table_view table.now)) }
{
    if version < 2 {
        let row = ["name", "match", "stages", "into"];
        known(alloc, place, row.as_slice(), table)
    } else {
        let row = ["name", "match", "stages", "into", "group"];
        known(alloc, place, row.as_slice(), table)
    }
}

fn names_of<'a>(alloc: Global, groups: &'a [NamedGroup]) -> Result<Vec<&'a str>, NoMemory>
    ensures { IfOk result (λ v. map (λ x. x.now) v.items ≡ group_names groups.now) }
{
    let mut names = Vec::new(alloc);
    for group in groups {
        names.push(group.name.as_str())?;
    }
    Ok(names)
}

#[tactic(auto, unfolding(chain_spec::specs::ChainWalk::group_values))]
fn group_values(
    alloc: Global,
    version: u32,
    place: u32,
    before: &[NamedGroup],
    table: &Table,
) -> Result<NamedGroup, ChainFault>
    ensures value { Gives named_view result
        (spec.group_values version place (map named_view before.now) (table_view table.now)) }
    ensures fresh { IfOk result (λ g. is_among g.name (group_names before.now) ≡ false) }
{
    known_in_group(alloc, version, place, table)?;
    let earlier = names_of(alloc, before)?;
    let NamedLeaf {
        name,
        wanted,
        stages,
        into,
    } = leaf_values(alloc, place, &earlier, table)?;
    let has_into = value_at(table, "into").is_some();
    let below = below_at(alloc, place, has_into, into, value_at(table, "group"))?;
    Ok(NamedGroup {
        name,
        wanted,
        stages,
        below,
    })
}

#[tactic(auto, unfolding(chain_spec::specs::ChainWalk::group_at))]
fn group_at(
    alloc: Global,
    version: u32,
    place: u32,
    before: &[NamedGroup],
    value: &Value,
) -> Result<NamedGroup, ChainFault>
    ensures value { Gives named_view result (spec.group_at version place (map named_view before.now) (view value.now)) }
    ensures fresh { IfOk result (λ g. is_among g.name (group_names before.now) ≡ false) }
{
    let table = table_in(alloc, place, "group", value)?;
    group_values(alloc, version, place, before, table)
}

fn groups(
    alloc: Global,
    version: u32,
    place: u32,
    array: &Array,
) -> Result<Vec<NamedGroup>, ChainFault>
    ensures value { Gives (λ v. map named_view v.items) result
        (fields.each (spec.group_at version place) (array_view array.now)) }
    ensures len { IfOk result (λ v. vec_len v ≡ vec_len array.now) }
    ensures distinct { IfOk result (λ v. IsTrue (are_distinct (group_names v.items))) }
{
    let mut groups = Vec::new(alloc);
    for value in array {
        let group = group_at(alloc, version, place, groups.as_slice(), value)?;
        groups.push(group)?;
    }
    Ok(groups)
}

/// The groups of a tenant, which are distinct.
#[tactic(auto, unfolding(chain_spec::specs::ChainWalk::groups_in))]
pub(crate) fn groups_in(
    alloc: Global,
    version: u32,
    place: u32,
    value: &Value,
) -> Result<Vec<NamedGroup>, ChainFault>
    ensures value { Gives (λ v. map named_view v.items) result (spec.groups_in version place (view value.now)) }
    ensures count { IfOk result (λ v. (1 ≤ length v.items) × (length v.items ≤ 16)) }
    ensures distinct { IfOk result (λ v. IsTrue (are_distinct (group_names v.items))) }
{
    let array = array_in(alloc, place, "group", 1, MOST_GROUPS, value)?;
    groups(alloc, version, place, array)
}
