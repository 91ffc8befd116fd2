//! Results, one behind another, and as one.
ghost use Rattle.std.specs.Prelude.{◌≡◌, ◌≤◌, length, map, IfOk, OnOk};
ghost use Rattle.brick_spec.specs.GroupOutput.{in_key_order};
ghost use Rattle.work_core.specs.Outputs.{item_lists};
ghost use Rattle.work_core.specs.Result.{items_view};
ghost use Rattle.work_parts.specs.Wholes.{side_by_side, behind_at, AreSums, IsWholeOf, IsMergedOf};

use brick_base::NoMemory;
use pcap_io::{Item, Items};
use std::alloc::Global;
use work_core::{WorkResult, sort_items};

/// Results, one behind another: the items of each leaf group, not yet in order, and the counts.
#[derive(Debug, Drop)]
pub struct Whole {
    pub groups: Vec<Vec<Item>>,
    /// Each up to 4,294,967,295.
    pub drops: [u32; 9],
}

/// Puts the items behind those of the list at this place, or behind all lists as one more.
fn append_at(lists: &mut Vec<Vec<Item>>, place: usize, items: Items) -> Result<(), NoMemory>
    ensures { OnOk result (item_lists lists.new.items ≡ behind_at place items (item_lists lists.old.items)) }
{
    let mut items = items.into_vec();
    if place < lists.len() {
        lists[place].append(&mut items)?;
    } else {
        lists.push(items)?;
    }
    Ok(())
}

/// Puts the items of each leaf group behind those that are there.
fn append_groups(lists: &mut Vec<Vec<Item>>, groups: Vec<Items>) -> Result<(), NoMemory>
    ensures { OnOk result (item_lists lists.new.items ≡ side_by_side (item_lists lists.old.items) groups.items) }
{
    let mut place = 0;
    for group in groups {
        append_at(lists, place, group)?;
        place += 1;
    }
    Ok(())
}

/// Adds the counts of drops.
fn add_counts(counts: &mut [u32; 9], more: &[u32; 9])
    ensures { AreSums counts.old more.now counts.new }
{
    for k in 0..9 {
        counts[k] = counts[k].saturating_add(more[k]);
    }
}

/// Puts one result behind the others: its items behind those of each leaf group, and its counts to the counts.
fn append_part(whole: &mut Whole, part: WorkResult) -> Result<(), NoMemory>
    ensures groups { OnOk result (item_lists whole.new.groups.items
        ≡ side_by_side (item_lists whole.old.groups.items) part.groups.items) }
    ensures drops { OnOk result (AreSums whole.old.drops part.drops whole.new.drops) }
{
    add_counts(&mut whole.drops, &part.drops);
    append_groups(&mut whole.groups, part.groups)
}

/// All results, one behind another.
fn append_parts(alloc: Global, parts: Vec<WorkResult>) -> Result<Whole, NoMemory>
    ensures { IfOk result (IsWholeOf parts.items) }
{
    let mut whole = Whole {
        groups: Vec::new(alloc),
        drops: [0; 9],
    };
    for part in parts {
        append_part(&mut whole, part)?;
    }
    Ok(whole)
}

/// Nine counts.
fn nine_counts(counts: &[u32; 9]) -> [u32; 9]
    ensures same { result ≡ counts.now }
    ensures long { length result ≡ 9 }
{
    *counts
}

/// Puts each list in the order of keys.
fn sort_groups(alloc: Global, lists: Vec<Vec<Item>>) -> Result<Vec<Items>, NoMemory>
    ensures { IfOk result (λ all. map items_view all.items
        ≡ map (λ items. in_key_order (items_view items)) (item_lists lists.items)) }
{
    let mut all = Vec::new(alloc);
    for list in lists {
        let mut items = list;
        sort_items(&mut items)?;
        all.push(Items::of(items))?;
    }
    Ok(all)
}

/// The results as one: the items of each leaf group in the order of keys, those of one key in the order of the results,
/// and the counts added up, each up to 4,294,967,295. Without memory the results are given up.
pub fn merge_parts(alloc: Global, parts: Vec<WorkResult>) -> Result<WorkResult, NoMemory>
    ensures { IfOk result (IsMergedOf parts.items) }
{
    let whole = append_parts(alloc, parts)?;
    let drops = nine_counts(&whole.drops);
    let groups = sort_groups(alloc, whole.groups)?;
    Ok(WorkResult { groups, drops })
}
