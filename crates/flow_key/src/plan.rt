//! The plan of a translation.

ghost use Rattle.std.specs.Prelude.{◌≡◌, ◌+◌, ◌≤◌, ◌↔◌, IsSome, IfSome};

use brick_base::Prefix;

/// How a tenant's addresses are translated: flows from inside go out by the address outside, each by a port of its own.
#[derive(Clone, Copy, Debug, PartialEq, Eq)]
pub struct NatPlan {
    /// The addresses inside.
    pub inside: Prefix,
    /// The address outside, in network order as a number.
    pub outside: u32,
    /// The port of the flow with rank 0.
    pub base: u16,
    /// How many ports there are, at least 1 and at most 65,536 less `base`.
    pub ports: u32,
    ghost some: { 1 ≤ ports },
    ghost within: { base + ports ≤ 65536 },
}

impl NatPlan {
    /// The plan, where there are so many ports from `base` on.
    pub fn new(inside: Prefix, outside: u32, base: u16, ports: u32) -> Option<NatPlan>
        ensures valid { IsSome result ↔ ((1 ≤ ports) × (base + ports ≤ 65536)) }
        ensures value { IfSome result (λ p. (p.inside ≡ inside) × (p.outside ≡ outside) × (p.base ≡ base)
            × (p.ports ≡ ports)) }
    {
        if ports == 0 || base as u64 + ports as u64 > 65536 {
            return None;
        }
        Some(NatPlan {
            inside,
            outside,
            base,
            ports,
        })
    }
}
