//! Stage `window`, as an operator: of each direction of a flow the bytes of its TCP stream in order, in windows of
//! one size.
//!
//! The crate stands on `batch_ops`, on `window_stream` for the bytes in order, and on `packetize` for the frames. The
//! stage is defined in `flow_spec`, module `Window`, and what it keeps of a flow in `specs/`. The contract of
//! `Operator` carries the promise, whose meaning is `window_meaning`; `window_keys` and `tells_stream` say what the
//! keys of the windows are, and that their data are the stream's bytes, each once.
#![tactic(auto)]

mod emission;
mod fields;
mod flow_halves;
mod flows;
mod half_flow;
mod laws;
mod own;
mod sent;
mod stage;
#[cfg(test)]
mod tests;

pub use laws::{tells_stream, window_keys};
pub use stage::WindowStage;
