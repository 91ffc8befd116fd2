//! Stages that edit a packet where it lies, and rows of them: the Ethernet and the IPv4 header of a packet are read
//! once for the whole row.
//!
//! A stage is told of a packet whose layers are read, or of one that has no IPv4 layer. The crate stands on
//! `batch_ops` for operators, and on `eth_ip` and `tcp_udp` for layers and five-tuples, whose definitions are those
//! of `brick_spec`. What it means that a packet is read, and what a stage makes of it, is defined in `specs/`. The
//! trait `TreatRead` has the contract of such a stage; `treat_packet` and `ReadRow` carry the promise: a row means,
//! over the whole flow, what its stages mean one after another.
#![tactic(auto)]

mod datagram;
mod packet;
mod row;
mod stage;

pub use datagram::{close_ip4, read_ip4};
pub use packet::ReadPacket;
pub use row::ReadRow;
pub use stage::{TreatRead, treat_packet};
