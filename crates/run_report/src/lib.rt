//! How a run ends, the text that tells it, and its exit status.
//!
//! The crate stands on `chain_text` and `pcap_io` for faults. Texts and statuses are defined in `run_spec`, module
//! `Report`; `specs/` says which value of the definitions a value of the code is. The contracts of `outcome_text` and
//! `status_of` are these definitions.
#![tactic(auto)]

mod refusal;
mod report;
#[cfg(test)]
mod tests;

pub use refusal::{Refusal, refusal_of, refusal_text};
pub use report::{Line, Outcome, Output, Tally, TenantEnd, outcome_text, status_of};
