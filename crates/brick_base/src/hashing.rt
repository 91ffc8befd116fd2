//! The hash of flow keys.

ghost use Rattle.std.specs.Prelude.{◌≡◌};
ghost use Rattle.brick_spec.specs.Hash.{hash_of};

/// FNV-1a with 64 bits (Fowler, Noll and Vo).
pub fn fnv1a(bytes: &[u8]) -> u64
    ensures { result ≡ hash_of bytes.now }
{
    let mut hash = 0xcbf2_9ce4_8422_2325_u64;
    for byte in bytes {
        hash = (hash ^ *byte as u64).wrapping_mul(0x100_0000_01b3);
    }
    hash
}
