//! The two files of mode `gen`: they are made, written through a store, and taken as read.
//!
//! The crate stands on `capture_gen` for their content and on `store_files` for writing. The files are defined in
//! `run_spec`, module `Generated`; what was written of the two, in `specs/`. The contract of `write_generated`
//! carries the promise: both files have their texts, and what it gives is what they say.
#![tactic(auto)]

mod files;
#[cfg(test)]
mod tests;
mod writing;

pub use writing::{Generated, write_generated};
