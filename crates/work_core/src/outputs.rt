//! The lists of leaf groups joined to those of outputs.
ghost use Rattle.std.specs.Prelude.{◌≡◌, ◌<◌, ◌≤◌, ℕ, [], ◌∷◌, ◌++◌, List, length, map, IfOk, OnOk};
ghost use Rattle.std.specs.List.{AllByRecursion};
ghost use Rattle.brick_spec.specs.GroupOutput.{in_key_order};
ghost use Rattle.flow_spec.specs.Answer.{output_lists};
ghost use Rattle.chain_spec.specs.ChainSet.{leaves_of};
ghost use Rattle.chain_types.specs.View.{chain_view};
ghost use Rattle.tenant_spec.specs.Tenant as tenant;
ghost use Rattle.std.specs.List.{range_with_len};
ghost use Rattle.pcap_io.specs.declared.item.Item.{Item as ItemInCode};
ghost use Rattle.work_core.specs.Result.{items_view};
ghost use Rattle.work_core.specs.Outputs.{item_lists, grown, shared_out};

use crate::leaves::leaf_outputs;
use crate::sort_items;
use brick_base::NoMemory;
use chain_types::Chain;
use pcap_io::{Item, Items};
use std::alloc::Global;
use std::mem::swap;

/// So many empty lists.
fn empty_lists(alloc: Global, many: usize) -> Result<Vec<Vec<Item>>, NoMemory>
    ensures { IfOk result (λ lists. item_lists lists.items
        ≡ map (λ o. let none : List ItemInCode = [] in none) (range_with_len 0 many)) }
{
    let mut lists = Vec::new(alloc);
    'each: for done in 0..many {
        lists.push(Vec::new(alloc))?;
    }
    Ok(lists)
}

/// Puts items behind those of a list. Where the list has none, no item is moved.
fn append_items(list: &mut Vec<Item>, items: Vec<Item>) -> Result<(), NoMemory>
    ensures { OnOk result (list.new.items ≡ list.old.items ++ items.items) }
{
    let mut items = items;
    if list.is_empty() {
        swap(list, &mut items);
        return Ok(());
    }
    list.append(&mut items)?;
    Ok(())
}

/// Puts the items of a group behind those of an output.
fn add_to(lists: &mut Vec<Vec<Item>>, output: usize, items: Items) -> Result<(), NoMemory>
    requires { output < length lists.old.items }
    ensures grown { OnOk result (item_lists lists.new.items ≡ grown output items (item_lists lists.old.items)) }
    ensures long { length lists.new.items ≡ length lists.old.items }
{
    append_items(&mut lists[output], items.into_vec())?;
    Ok(())
}

/// Puts the items of each group behind those of its output.
fn share_out(
    outputs: &[u32],
    groups: Vec<Items>,
    lists: Vec<Vec<Item>>,
) -> Result<Vec<Vec<Item>>, NoMemory>
    requires many { length groups.items ≡ length outputs.now }
    requires within { AllByRecursion (λ o. o < length lists.items) outputs.now }
    ensures { IfOk result (λ all. item_lists all.items ≡ shared_out outputs.now groups.items (item_lists lists.items)) }
{
    let mut lists = lists;
    let mut at = 0;
    for group in groups {
        let output = outputs[at] as usize;
        add_to(&mut lists, output, group)?;
        at += 1;
    }
    Ok(lists)
}

/// Puts each list in the order of keys.
fn sort_each(alloc: Global, lists: Vec<Vec<Item>>) -> Result<Vec<Items>, NoMemory>
    ensures { IfOk result (λ all. map items_view all.items
        ≡ map (λ items. in_key_order (items_view items)) (item_lists lists.items)) }
{
    let mut all = Vec::new(alloc);
    for list in lists {
        let mut items = list;
        sort_items(&mut items)?;
        all.push(Items::of(items))?;
    }
    Ok(all)
}

/// The items of each of so many outputs, where each list has the number of its output.
fn join_lists(
    alloc: Global,
    many: usize,
    outputs: &[u32],
    groups: Vec<Items>,
) -> Result<Vec<Items>, NoMemory>
    requires many { length groups.items ≡ length outputs.now }
    requires within { AllByRecursion (λ o. o < many) outputs.now }
    ensures { IfOk result (λ all. map items_view all.items
        ≡ output_lists many outputs.now (map items_view groups.items)) }
{
    let lists = empty_lists(alloc, many)?;
    let lists = share_out(outputs, groups, lists)?;
    sort_each(alloc, lists)
}

/// The items of each output of a chain: those of all its leaf groups in the order of keys, and of one key those of the
/// earlier group first. The lists are those of the leaf groups, in the order of the chain file. Without memory they are
/// given up.
pub fn join_outputs(
    alloc: Global,
    chain: &Chain,
    groups: Vec<Items>,
) -> Result<Vec<Items>, NoMemory>
    requires { length groups.items ≡ length (leaves_of (chain_view chain.now)) }
    ensures { IfOk result (λ all. map items_view all.items
        ≡ tenant.output_lists (chain_view chain.now) (map items_view groups.items)) }
{
    let outputs = leaf_outputs(alloc, chain)?;
    join_lists(alloc, chain.outputs.len(), outputs.as_slice(), groups)
}
