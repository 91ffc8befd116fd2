//! Whole files, read and written through a store: a file's bytes, a text, and the capture that is written of items.
//!
//! The crate stands on `store_io` for stores and on `pcap_io` for captures. What a store holds is defined in
//! `brick_spec`, modules `Files` and `Texts`, and what these calls leave in it in `specs/`. The contracts of
//! `read_whole`, `write_whole`, `write_capture` and `write_texts` carry the promise: a file has its text, or after a
//! fault what it had or a prefix of the text, and the fault has its cause.
#![tactic(auto)]

mod reading;
#[cfg(test)]
mod tests;
mod writing;

pub use reading::{ReadFault, read_whole};
pub use writing::{Content, Text, write_capture, write_texts, write_whole};
