//! The outputs of a tenant's groups.

ghost use Rattle.std.specs.Prelude.{◌≡◌, ◌<◌, ◌≤◌, IfOk, IfSome, OnOk, length, map, option_map};
ghost use Rattle.std.specs.List.{position};
ghost use Rattle.std.specs.Str.{bytes_eq};
ghost use Rattle.tcp_udp.specs.MatchView.{match_view};
ghost use Rattle.chain_spec.specs.ChainSet as spec;
ghost use Rattle.chain_types.specs.StageView.{stages_view};
ghost use Rattle.chain_types.specs.BelowView.{leaf_view, below_view};
ghost use Rattle.chain_types.specs.GroupView.{group_view};
ghost use Rattle.chain_file.specs.NamedView.{named_below_view, named_leaves_view};
ghost use Rattle.chain_file.specs.View.{named_view};

use crate::named::NamedGroup;
use crate::named_leaf::{NamedBelow, NamedLeaf};
use brick_base::{Name, NoMemory};
use chain_types::{Below, Group, Leaf};
use std::alloc::Global;

fn is_among(name: &str, names: &[Name]) -> bool
    ensures { result ≡ spec.is_among name.now names.now }
{
    for n in names {
        if n.as_str() == name {
            return true;
        }
    }
    false
}

/// Puts the name behind the names where it is not among them.
fn add_name(alloc: Global, names: &mut Vec<Name>, name: &str) -> Result<(), NoMemory>
    ensures { OnOk result (names.new.items ≡ spec.with_name names.old.items name.now) }
{
    if !is_among(name, names) {
        names.push(Name::new(alloc, name)?)?;
    }
    Ok(())
}

fn add_leaves(alloc: Global, names: &mut Vec<Name>, leaves: &[NamedLeaf]) -> Result<(), NoMemory>
    ensures { OnOk result (names.new.items
        ≡ spec.distinct_after names.old.items (map (λ l. l.into) (named_leaves_view leaves.now))) }
{
    for leaf in leaves {
        add_name(alloc, names, leaf.into.as_str())?;
    }
    Ok(())
}

/// Puts the outputs of a group behind the names, each where it is not among them.
fn add_below(alloc: Global, names: &mut Vec<Name>, below: &NamedBelow) -> Result<(), NoMemory>
    ensures { OnOk result (names.new.items
        ≡ spec.distinct_after names.old.items (spec.outputs_below (named_below_view below.now))) }
{
    match below {
        NamedBelow::Into(name) => add_name(alloc, names, name.as_str()),
        NamedBelow::Within(leaves) => add_leaves(alloc, names, leaves),
    }
}

/// The distinct outputs of the groups, in the order of first mention.
pub(crate) fn outputs_of(alloc: Global, groups: &[NamedGroup]) -> Result<Vec<Name>, NoMemory>
    ensures { IfOk result (λ v. v.items ≡ spec.outputs_of (map named_view groups.now)) }
{
    let mut outputs: Vec<Name> = Vec::new(alloc);
    for group in groups {
        add_below(alloc, &mut outputs, &group.below)?;
    }
    Ok(outputs)
}

fn position_of(names: &[Name], name: &str) -> Option<usize>
    ensures place { result ≡ position (λ n. bytes_eq n name.now) names.now }
    ensures within { IfSome result (λ k. k < length names.now) }
{
    names.iter().position(|n| n.as_str() == name)
}

/// The place of a name among the names, and 0 where it is not among them.
fn place_of(names: &[Name], name: &str) -> u32
    requires some { 0 < length names.now }
    requires few { length names.now ≤ 64 }
    ensures { result ≡ spec.place_of names.now name.now }
{
    match position_of(names, name) {
        Some(place) => place as u32,
        None => 0,
    }
}

/// The group with the place of its output.
fn with_place(leaf: NamedLeaf, output: u32) -> Leaf
    ensures { leaf_view result
        ≡ record {
          name = leaf.name;
          wanted = option_map match_view leaf.wanted;
          stages = stages_view leaf.stages.items;
          output = output;
        } }
{
    let NamedLeaf {
        name,
        wanted,
        stages,
        into: _into,
    } = leaf;
    Leaf {
        name,
        wanted,
        stages,
        output,
    }
}

/// The groups in a group, each with the place of its output among the outputs.
fn leaves_with(
    alloc: Global,
    outputs: &[Name],
    named: Vec<NamedLeaf>,
) -> Result<Vec<Leaf>, NoMemory>
    requires some { 0 < length outputs.now }
    requires few { length outputs.now ≤ 64 }
    ensures { IfOk result (λ v. map leaf_view v.items
        ≡ map (spec.leaf_with outputs.now) (named_leaves_view named.items)) }
{
    let mut leaves = Vec::new(alloc);
    for leaf in named {
        let output = place_of(outputs, leaf.into.as_str());
        leaves.push(with_place(leaf, output))?;
    }
    Ok(leaves)
}

fn below_with(alloc: Global, outputs: &[Name], below: NamedBelow) -> Result<Below, NoMemory>
    requires some { 0 < length outputs.now }
    requires few { length outputs.now ≤ 64 }
    ensures { IfOk result (λ b. below_view b ≡ spec.below_with outputs.now (named_below_view below)) }
{
    match below {
        NamedBelow::Into(name) => Ok(Below::Output(place_of(outputs, name.as_str()))),
        NamedBelow::Within(leaves) => {
            let leaves = leaves_with(alloc, outputs, leaves)?;
            Ok(Below::Inner(leaves))
        }
    }
}

/// The group with the places of its outputs among the outputs.
fn group_with(alloc: Global, outputs: &[Name], group: NamedGroup) -> Result<Group, NoMemory>
    requires some { 0 < length outputs.now }
    requires few { length outputs.now ≤ 64 }
    ensures { IfOk result (λ g. group_view g ≡ spec.group_with outputs.now (named_view group)) }
{
    let NamedGroup {
        name,
        wanted,
        stages,
        below,
    } = group;
    let below = below_with(alloc, outputs, below)?;
    Ok(Group {
        name,
        wanted,
        stages,
        below,
    })
}

/// The groups, each with the places of its outputs among the outputs.
pub(crate) fn groups_with(
    alloc: Global,
    outputs: &[Name],
    named: Vec<NamedGroup>,
) -> Result<Vec<Group>, NoMemory>
    requires some { 0 < length outputs.now }
    requires few { length outputs.now ≤ 64 }
    ensures value { IfOk result (λ v. map group_view v.items
        ≡ map (spec.group_with outputs.now) (map named_view named.items)) }
    ensures len { IfOk result (λ v. length v.items ≡ length named.items) }
{
    let mut groups = Vec::new(alloc);
    for group in named {
        let group = group_with(alloc, outputs, group)?;
        groups.push(group)?;
    }
    Ok(groups)
}
