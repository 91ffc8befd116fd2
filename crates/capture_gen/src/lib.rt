//! The generated capture, which a number and a count of records determine, and the chain file that is written beside
//! it.
//!
//! Nothing is read and nothing is left to chance: the same number gives the same bytes. A newcomer needs no capture
//! of their own. The crate stands on `packetize`, `tcp_udp` and `eth_ip` for frames. The bytes are defined in
//! `run_spec`, module `Generated`; how the records follow one another, in `specs/`. The contract of `generate` is
//! that definition, and `generated_chains_are_accepted` says that the chain file is accepted.
#![tactic(auto)]

mod capture;
mod chains;
mod frames;
mod laws;
mod sequence;
#[cfg(test)]
mod tests;

pub use capture::generate;
pub use chains::{capture_name, chains_name, generated_chain_file};
pub use laws::generated_chains_are_accepted;
