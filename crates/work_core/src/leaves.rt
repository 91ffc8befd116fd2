//! The outputs of the leaf groups of a chain.

ghost use Rattle.std.specs.Prelude.{◌≡◌, ◌++◌, map, IfOk, OnOk};
ghost use Rattle.chain_spec.specs.ChainSet as spec;
ghost use Rattle.chain_types.specs.BelowView.{leaf_view};
ghost use Rattle.chain_types.specs.GroupView.{group_view};
ghost use Rattle.chain_types.specs.View.{chain_view};
ghost use Rattle.work_core.specs.Outputs.{places_of, group_outputs};

use brick_base::NoMemory;
use chain_types::{Below, Chain, Group, Leaf};
use std::alloc::Global;

/// Adds the outputs of groups in a group.
fn add_leaves(leaves: &[Leaf], outputs: &mut Vec<u32>) -> Result<(), NoMemory>
    ensures { OnOk result (outputs.new.items ≡ outputs.old.items ++ places_of (map leaf_view leaves.now)) }
{
    for leaf in leaves {
        outputs.push(leaf.output)?;
    }
    Ok(())
}

/// Adds the outputs of a group.
fn add_group(group: &Group, outputs: &mut Vec<u32>) -> Result<(), NoMemory>
    ensures { OnOk result (outputs.new.items ≡ outputs.old.items ++ group_outputs (group_view group.now)) }
{
    match &group.below {
        Below::Output(output) => {
            outputs.push(*output)?;
            Ok(())
        }
        Below::Inner(leaves) => add_leaves(leaves.as_slice(), outputs),
    }
}

/// The place of the output of each leaf group, in the order of the chain file.
pub fn leaf_outputs(alloc: Global, chain: &Chain) -> Result<Vec<u32>, NoMemory>
    ensures { IfOk result (λ outputs. outputs.items ≡ spec.leaf_outputs (chain_view chain.now)) }
{
    let mut outputs = Vec::new(alloc);
    for group in &chain.groups {
        add_group(group, &mut outputs)?;
    }
    Ok(outputs)
}
