//! Flow classes: of which flow each record of a capture is, its direction there, and its rank for the translation of
//! addresses.
//!
//! The crate stands on `tcp_udp` for five-tuples and on `pcap_io` for captures. What a flow and a class are is
//! defined in `brick_spec`, modules `Flow` and `FlowClass`; what a classifier keeps, and what the numbers of flows
//! tell, in `specs/`. The contract of `Classifier::classify` gives each record the class of the definition, whatever
//! came before, and that of `classify_all` gives all records of a capture theirs.
#![tactic(auto)]

mod classes;
mod classifier;
mod ends;
mod key;
mod laws;
mod opened;
mod plan;
mod search;
mod sent;
#[cfg(test)]
mod tests;

pub use classes::classify_all;
pub use classifier::Classifier;
pub use laws::{flows_are_counted, numbers_tell_flows};
pub use plan::NatPlan;
