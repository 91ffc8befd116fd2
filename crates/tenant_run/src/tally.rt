ghost use Rattle.std.specs.Prelude.{◌≡◌, ℕ, List, ◌++◌, length, map, min, IfOk};
ghost use Rattle.brick_spec.specs.Item.{Item};
ghost use Rattle.brick_spec.specs.Stage.{Reason, Big};
ghost use Rattle.flow_spec.specs.Answer.{counts_of};

use brick_base::NoMemory;

/// The counts of a work, which stand still at 4,294,967,295, with so many Big records more. A count that stands there
/// may be too small: then it is as if memory had run out.
pub fn with_big(drops: [u32; 9], big: u32) -> Result<[u32; 9], NoMemory>
    ensures { IfOk result (λ counts. (rs : List Reason) (bigs : List Item)
        → drops ≡ map (min 4294967295) (counts_of rs) → big ≡ length bigs
        → counts ≡ counts_of (map (λ i. Big) bigs ++ rs)) }
{
    let mut counts = drops;
    if counts.contains(&u32::MAX) {
        return Err(NoMemory);
    }
    match counts[0].checked_add(big) {
        Some(all) => counts[0] = all,
        None => return Err(NoMemory),
    }
    Ok(counts)
}
