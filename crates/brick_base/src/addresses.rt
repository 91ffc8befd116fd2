//! Ranges of addresses.

ghost use Rattle.std.specs.Prelude.{◌≡◌, ◌-◌, ◌/◌, ◌%◌, ◌^◌, ◌≤◌, ◌↔◌, IsTrue, IsSome, IfSome};
ghost use Rattle.brick_base.specs.Prefix.{IsAddressPrefix};

/// The IPv4 addresses whose first `bits` bits are those of `addr`. The other bits of `addr` are 0.
#[derive(Clone, Copy, Debug, PartialEq, Eq)]
pub struct Prefix {
    /// The lowest address, in network order as a number.
    pub addr: u32,
    /// How many bits are fixed, 0 to 32.
    pub bits: u8,
    ghost short: { bits ≤ 32 },
    ghost lowest: { addr % 2 ^ (32 - bits) ≡ 0 },
}

impl Prefix {
    /// The prefix of these bits, where `bits` is at most 32 and the bits of `addr` past them are 0.
    pub fn new(addr: u32, bits: u8) -> Option<Prefix>
        ensures valid { IsSome result ↔ IsAddressPrefix addr bits }
        ensures value { IfSome result (λ p. (p.addr ≡ addr) × (p.bits ≡ bits)) }
    {
        if bits > 32 {
            return None;
        }
        let size = 1u64 << (32 - bits);
        if addr as u64 % size == 0 {
            Some(Prefix { addr, bits })
        } else {
            None
        }
    }

    /// Whether the address begins with these bits.
    pub fn contains(&self, addr: u32) -> bool
        ensures { IsTrue result ↔ (addr / 2 ^ (32 - self.now.bits) ≡ self.now.addr / 2 ^ (32 - self.now.bits)) }
    {
        let free = 32 - self.bits;
        addr as u64 >> free == self.addr as u64 >> free
    }
}
