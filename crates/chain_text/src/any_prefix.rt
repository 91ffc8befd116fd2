//! Prefixes of routes.

ghost use Rattle.std.specs.Prelude.{◌≤◌};

/// An address and a number of bits, whatever the bits of the address past them are.
#[derive(Clone, Copy, Debug, PartialEq, Eq)]
pub struct AnyPrefix {
    /// In network order as a number.
    pub addr: u32,
    /// 0 to 32.
    pub bits: u8,
    pub ghost short: { bits ≤ 32 },
}
