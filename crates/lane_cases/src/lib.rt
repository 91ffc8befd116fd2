//! Scripts of what a lane with two workers must do, which run over any kit of lanes.
//!
//! The crate stands on `lane_core`; its tests run each script over `lane_table` and over `lane_queue`. What is known
//! between two steps is defined in `specs/`, module `Steps`. The contract of `run_script` says that it keeps to
//! `LaneKit` over any kit, and what Book is there where it answers true.
#![tactic(auto)]

mod script;
mod steps;
#[cfg(test)]
mod tests;

pub use script::{Progress, Step, Worker};
pub use steps::run_script;
