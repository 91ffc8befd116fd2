//! The groups in a group.

ghost use Rattle.std.specs.Prelude.{◌≡◌, ◌≤◌, false, IfOk, IsTrue, codes, length, vec_len, map, option_map};
ghost use Rattle.toml.specs.View.{view, array_view, table_view};
ghost use Rattle.brick_spec.specs.Name.{is_name};
ghost use Rattle.chain_spec.specs.ChainSet.{is_among, are_distinct};
ghost use Rattle.chain_spec.specs.ChainWalk as spec;
ghost use Rattle.chain_spec.specs.Fields.{each};
ghost use Rattle.chain_text.specs.Gives.{Gives};
ghost use Rattle.chain_file.specs.NamedView.{named_leaf_view, named_leaves_view, leaf_names};

use crate::named_leaf::NamedLeaf;
use brick_base::{Name, NoMemory};
use chain_text::{
    ChainFault, array_in, is_name, known, name_in, required, table_in, text_in, value_at,
};
use stage_text::{match_at, stages_at};
use std::alloc::Global;
use toml::value::Array;
use toml::{Table, Value};

/// A text that is a name.
#[tactic(auto, unfolding(chain_spec::specs::ChainWalk::any_name_in))]
fn any_name_in(alloc: Global, place: u32, key: &str, value: &Value) -> Result<Name, ChainFault>
    ensures value { Gives (λ n. n) result (spec.any_name_in place key.now (view value.now)) }
    ensures named { IfOk result (λ n. IsTrue (is_name n)) }
{
    let text = text_in(alloc, place, key, value)?;
    if !is_name(text) {
        return Err(ChainFault::Name { place });
    }
    let name = Name::new(alloc, text)?;
    Ok(name)
}

/// The name of an output, which is the group's own where there is no value.
fn into_or(
    alloc: Global,
    place: u32,
    name: &Name,
    value: Option<&Value>,
) -> Result<Name, ChainFault>
    requires { IsTrue (is_name name.now) }
    ensures value { Gives (λ n. n) result (spec.into_or place name.now (option_map (λ v. view v.now) value.entry)) }
    ensures named { IfOk result (λ n. IsTrue (is_name n)) }
{
    match value {
        None => {
            let own = Name::new(alloc, name.as_str())?;
            Ok(own)
        }
        Some(value) => any_name_in(alloc, place, "into", value),
    }
}

/// A group's name, match, stages and the name of its output.
#[tactic(auto, unfolding(chain_spec::specs::ChainWalk::leaf_values))]
pub(crate) fn leaf_values(
    alloc: Global,
    place: u32,
    earlier: &[&str],
    table: &Table,
) -> Result<NamedLeaf, ChainFault>
    ensures value { Gives named_leaf_view result
        (spec.leaf_values place (map (λ x. x.now) earlier.now) (table_view table.now)) }
    ensures fresh { IfOk result (λ l. is_among l.name (map (λ x. x.now) earlier.now) ≡ false) }
{
    let name = required(alloc, place, "name", table)?;
    let name = name_in(alloc, place, "name", earlier, name)?;
    let wanted = match_at(alloc, place, value_at(table, "match"))?;
    let stages = stages_at(alloc, place, value_at(table, "stages"))?;
    let into = into_or(alloc, place, &name, value_at(table, "into"))?;
    Ok(NamedLeaf {
        name,
        wanted,
        stages,
        into,
    })
}

fn names_of<'a>(alloc: Global, leaves: &'a [NamedLeaf]) -> Result<Vec<&'a str>, NoMemory>
    ensures { IfOk result (λ v. map (λ x. x.now) v.items ≡ leaf_names leaves.now) }
{
    let mut names = Vec::new(alloc);
    for leaf in leaves {
        names.push(leaf.name.as_str())?;
    }
    Ok(names)
}

/// The group of one member of the list.
#[tactic(auto, unfolding(chain_spec::specs::ChainWalk::leaf_at))]
fn leaf_at(
    alloc: Global,
    place: u32,
    before: &[NamedLeaf],
    value: &Value,
) -> Result<NamedLeaf, ChainFault>
    ensures value { Gives named_leaf_view result (spec.leaf_at place (named_leaves_view before.now) (view value.now)) }
    ensures fresh { IfOk result (λ l. is_among l.name (leaf_names before.now) ≡ false) }
{
    let table = table_in(alloc, place, "group", value)?;
    let row = ["name", "match", "stages", "into"];
    known(alloc, place, row.as_slice(), table)?;
    let earlier = names_of(alloc, before)?;
    leaf_values(alloc, place, &earlier, table)
}

fn leaves(alloc: Global, place: u32, array: &Array) -> Result<Vec<NamedLeaf>, ChainFault>
    ensures value { Gives (λ v. named_leaves_view v.items) result (each (spec.leaf_at place) (array_view array.now)) }
    ensures len { IfOk result (λ v. vec_len v ≡ vec_len array.now) }
    ensures distinct { IfOk result (λ v. IsTrue (are_distinct (leaf_names v.items))) }
{
    let mut leaves = Vec::new(alloc);
    for value in array {
        let leaf = leaf_at(alloc, place, leaves.as_slice(), value)?;
        leaves.push(leaf)?;
    }
    Ok(leaves)
}

/// 1 to 4 groups with distinct names.
#[tactic(auto, unfolding(chain_spec::specs::ChainWalk::leaves_in))]
pub(crate) fn leaves_in(
    alloc: Global,
    place: u32,
    value: &Value,
) -> Result<Vec<NamedLeaf>, ChainFault>
    ensures value { Gives (λ v. named_leaves_view v.items) result (spec.leaves_in place (view value.now)) }
    ensures count { IfOk result (λ v. (1 ≤ length v.items) × (length v.items ≤ 4)) }
    ensures distinct { IfOk result (λ v. IsTrue (are_distinct (leaf_names v.items))) }
{
    let array = array_in(alloc, place, "group", 1, 4, value)?;
    leaves(alloc, place, array)
}
