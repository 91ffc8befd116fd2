//! The stage `scan`: a flow is stopped once the bytes in order of one of its two TCP streams contain a text (RFC 793,
//! section 3.3).
//!
//! It keeps a scan of each direction of each flow of which a TCP segment came. It treats a packet where it lies,
//! makes at most one packet of it, and needs no spare buffers. The crate stands on `read_row` and `stream_scan`. The
//! stage is defined in `flow_spec`, module `Scan`, and what it keeps of a flow in `specs/`. The contracts of the
//! traits `Operator` and `TreatRead` carry the promise, whose meaning is `scan_kind`.
#![tactic(auto)]

mod flow_scans;
mod segment;
mod sent;
mod stage;
#[cfg(test)]
mod tests;

pub use stage::ScanStage;
