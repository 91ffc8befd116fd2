//! Lanes on the atomic table: one table a lane, whose words are the free words of the buffers and the cells of the
//! rings, and whose slots hold the buffers and packets that nobody holds.
//!
//! `TableKit` makes such lanes. The calls that a `TableLane` itself has do not wait and take no memory. The crate
//! stands on `lane_core`, and on `atomic_table` for the steps. The rule of a table, and the state of the
//! lane machine that it shows, are defined in `specs/`, modules `Rule` and `Shown`. The laws say that between any two
//! steps the table shows a lawful lane, and which event each step is; `TableKit` keeps the contract of `LaneKit`.
#![tactic(auto)]

mod calls;
mod kit;
mod lane;
mod laws;
mod plays;
mod pool_steps;
mod ring_steps;
mod shut;
mod start;
#[cfg(test)]
mod tests;
mod view;
mod words;

pub use kit::TableKit;
pub use lane::{IngestSeat, TableLane, WorkerSeat};
pub use laws::{
    claim_is_event, claim_miss_is_event, finish_is_event, join_is_unseen, receive_is_event,
    receive_miss_is_event, release_is_event, rule_shows_lawful, send_is_event, slots_are_unseen,
    split_is_unseen, take_end_is_event,
};
