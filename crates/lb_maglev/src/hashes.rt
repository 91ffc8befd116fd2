//! Which places a name prefers.

ghost use Rattle.std.specs.Prelude.{◌≡◌, ℕ, ◌∷◌, IfOk};
ghost use Rattle.brick_spec.specs.Hash.{hash_of};
ghost use Rattle.brick_spec.specs.Balance.{offset_of, skip_of};

use brick_base::{Name, NoMemory, fnv1a};
use std::alloc::Global;

/// The hash of a byte and a name behind it.
fn tagged_hash(alloc: Global, tag: u8, name: &Name) -> Result<u64, NoMemory>
    ensures { IfOk result (λ hash. hash ≡ hash_of (tag ∷ name.now)) }
{
    let mut bytes = Vec::new(alloc);
    bytes.push(tag)?;
    bytes.extend_from_slice(name.as_str().as_bytes())?;
    Ok(fnv1a(&bytes))
}

/// The place that the name prefers to all others.
pub fn offset_of(alloc: Global, name: &Name) -> Result<usize, NoMemory>
    ensures { IfOk result (λ offset. offset ≡ offset_of name.now) }
{
    let hash = tagged_hash(alloc, 1, name)?;
    Ok((hash % 251) as usize)
}

/// How far on the next preferred place is, 1 to 250.
pub fn skip_of(alloc: Global, name: &Name) -> Result<usize, NoMemory>
    ensures { IfOk result (λ skip. skip ≡ skip_of name.now) }
{
    let hash = tagged_hash(alloc, 2, name)?;
    Ok((hash % 250 + 1) as usize)
}
