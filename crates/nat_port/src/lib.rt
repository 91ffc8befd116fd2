//! Address translation: a packet of a flow with a rank gets another end, by edits of its headers in place.
//!
//! The crate stands on `packet_owner`, on `eth_ip` and `tcp_udp` for the edits, and on `flow_key` for the plan. What
//! an item becomes is defined in `brick_spec`, module `AddressTranslation`; `specs/` joins it to the edits of the
//! code. The contract of `translate` is that definition, in the packet's own buffer, and answers `NatFull` exactly
//! where the flow's rank has no port.
#![tactic(auto)]

mod ends;
mod packets;
#[cfg(test)]
mod tests;

pub use packets::{translate, translate_bytes};
