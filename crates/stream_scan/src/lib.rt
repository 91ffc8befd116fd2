//! A search for a text in one direction of a TCP flow, of segments that come in any order, overlap and repeat (RFC
//! 793, 3.3).
//!
//! A `Scan` answers after each segment at which position the text first stands in the bytes in order. It searches
//! each byte once, however the bytes are cut into segments, and keeps of those that were searched no more than an
//! occurrence needs that ends behind them. The crate stands on `window_stream` for the bytes in order. The first
//! occurrence is defined in `flow_spec`, module `Scan`, and what a scan keeps in `specs/`. The contract of
//! `Scan::take` carries the promise, and `plain` has the slow function that tests compare with.
#![tactic(auto)]

pub mod plain;
mod scan;
mod search;
mod sent;
#[cfg(test)]
mod tests;

pub use scan::Scan;
