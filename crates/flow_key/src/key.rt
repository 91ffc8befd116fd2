//! Keys of flows, and the slots over which flows are spread.

use tcp_udp::Tuple;

/// An address and a port.
#[derive(Clone, Copy, Debug, PartialEq, Eq, PartialOrd, Ord)]
pub(crate) struct End {
    pub(crate) address: u32,
    pub(crate) port: u16,
}

/// A protocol and two ends, the smaller one first.
#[derive(Clone, Copy, Debug, PartialEq, Eq, PartialOrd, Ord)]
pub(crate) struct Key {
    pub(crate) proto: u8,
    pub(crate) low: End,
    pub(crate) high: End,
}

/// How many slots flows are spread over.
pub(crate) const SLOTS: usize = 65536;

/// The slot of a five-tuple, below `SLOTS`, which is also that of its reply: the products of the addresses and of the
/// ports are the same in both directions. Fibonacci hashing takes the top bits.
#[inline]
pub(crate) fn slot_of(tuple: &Tuple) -> usize {
    let (sport, dport) = tuple.ports.unwrap_or((0, 0));
    let addresses = (tuple.src as u64).wrapping_mul(tuple.dst as u64);
    let ports = (sport as u64).wrapping_mul(dport as u64);
    let mixed = (addresses ^ ports).wrapping_mul(0x9e37_79b9_7f4a_7c15);
    (mixed >> 48) as usize
}
