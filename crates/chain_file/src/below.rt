//! What stands behind a group's stages.

ghost use Rattle.std.specs.Prelude.{◌≡◌, ◌≤◌, IfOk, IsTrue, length, option_map};
ghost use Rattle.toml.specs.View.{view};
ghost use Rattle.brick_spec.specs.Name.{is_name};
ghost use Rattle.chain_spec.specs.ChainSet.{Within, are_distinct, is_named_below_right};
ghost use Rattle.chain_spec.specs.ChainWalk as spec;
ghost use Rattle.chain_text.specs.Gives.{Gives};
ghost use Rattle.chain_file.specs.NamedView.{named_below_view, named_leaves_view, leaf_names};

use crate::leaves::leaves_in;
use crate::named_leaf::{NamedBelow, NamedLeaf};
use brick_base::Name;
use chain_text::{ChainFault, range};
use std::alloc::Global;
use toml::Value;

/// These groups.
fn within(leaves: Vec<NamedLeaf>) -> NamedBelow
    requires count { (1 ≤ length leaves.items) × (length leaves.items ≤ 4) }
    requires distinct { IsTrue (are_distinct (leaf_names leaves.items)) }
    ensures value { named_below_view result ≡ Within (named_leaves_view leaves.items) }
    ensures right { IsTrue (is_named_below_right (named_below_view result)) }
{
    NamedBelow::Within(leaves)
}

/// Groups in the group where it has no `into`, and else its output.
pub(crate) fn below_at(
    alloc: Global,
    place: u32,
    has_into: bool,
    into: Name,
    value: Option<&Value>,
) -> Result<NamedBelow, ChainFault>
    requires { IsTrue (is_name into) }
    ensures value { Gives named_below_view result
        (spec.below_at place has_into into (option_map (λ v. view v.now) value.entry)) }
    ensures right { IfOk result (λ b. IsTrue (is_named_below_right (named_below_view b))) }
{
    let Some(value) = value else {
        return Ok(NamedBelow::Into(into));
    };
    if has_into {
        return Err(range(alloc, place, "group"));
    }
    let leaves = leaves_in(alloc, place, value)?;
    Ok(within(leaves))
}
