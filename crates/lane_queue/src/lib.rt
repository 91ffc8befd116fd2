//! Lanes on ruled queues: a lane's pool is one queue with a place for each of its buffers, and the ring of each
//! worker one with a place more.
//!
//! A rule of each queue tells its passes what was put and taken. `QueueKit` makes such lanes. Its calls may wait. The
//! crate stands on `lane_core`, and on `crossbeam_queue` for the queues. The rules are defined in `specs/`,
//! modules `PoolRule` and `RingRule`; `QueueKit` keeps the contract of `LaneKit`.
#![tactic(auto)]

mod kit;
mod lane;
mod pool;
mod pool_rule;
mod ring;
mod ring_rule;
mod sent;
mod shut;
mod start;
#[cfg(test)]
mod tests;
mod words;

pub use kit::QueueKit;
pub use lane::{QueueIngest, QueueLane, QueueWorker};
