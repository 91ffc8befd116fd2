ghost use Rattle.std.specs.Prelude.{◌≡◌, ◌≤◌, length, true, IfOk, IsErr};
ghost use Rattle.std.specs.List.{AllByRecursion, list_any};
ghost use Rattle.work_core.specs.ChainWork.{HasLists};
ghost use Rattle.work_parts.specs.Works.{IsOpen, GivesMerged};

use crate::part::take_parts;
use crate::whole::merge_parts;
use brick_base::NoMemory;
use std::alloc::Global;
use work_core::{ChainWork, WorkResult};

/// A law of each work: its answers have a list for each leaf group.
fn answers_have_lists<W: ChainWork>()
    ensures { HasLists W.answer }
{}

/// Ends the works of one tenant, in a capture of so many records, and joins their results: the items of each leaf group
/// in the order of keys, and the counts added up, each up to 4,294,967,295. Where one of them ran out of memory there
/// is no result. The works are given up.
pub fn join_parts<W: ChainWork>(
    alloc: Global,
    works: Vec<W>,
    records: u32,
) -> Result<WorkResult, NoMemory>
    requires some { 1 ≤ length works.items }
    requires ready { AllByRecursion (IsOpen W.ready W.ended) works.items }
    ensures merged { IfOk result (GivesMerged W.follows W.stands W.answer records works.items) }
    ensures failed { list_any W.broken works.items ≡ true → IsErr result }
{
    answers_have_lists::<W>();
    let parts = take_parts(alloc, works, records)?;
    merge_parts(alloc, parts)
}
