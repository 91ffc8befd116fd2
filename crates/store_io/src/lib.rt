//! Where files are read and written, and where the report goes.
//!
//! `Store` has files by name, and `Sink` takes the bytes of the report. Code above is generic over both: `MemStore`
//! and `MemSink` keep everything in memory and fail at chosen calls, and `FileStore` and `OutSink` stand for the
//! files and the standard output of the system. The crate stands on `brick_base`. What a store holds and what a call
//! does to it is defined in `brick_spec`, modules `Files` and `Cause`; how faults are counted, and what each of the
//! four keeps, in `specs/`. The contracts of the traits' calls carry the promise: a call fails only where the count
//! of its account and name rose in it, and touches no other name.
#![tactic(auto)]

mod host;
mod memory;
mod sink;
#[cfg(test)]
mod tests;
mod traits;

pub use host::{FileStore, OutSink};
pub use memory::MemStore;
pub use sink::MemSink;
pub use traits::{IoFault, Sink, Store};
