//! The ingest of each lane, the workers over all lanes, and crews of both, over any kit of lanes and any work.
//!
//! The crate stands on `lane_core` for lanes and on `work_core` and `work_parts` for works. The Book of a lane is
//! defined in `lane_spec`, and what it says of a tenant's records in `run_spec`, module `Books`; what the ingests,
//! the workers and a crew did, in `specs/`. The contract of `run_crew` carries the promise: each Book is that of its
//! job, and the results are what the works answer for the records that the Book says.
#![tactic(auto)]

mod crew;
mod done;
mod draining;
mod finishing;
mod gate;
mod pausing;
mod row;
mod sending;
mod serving;
mod sides;
mod starting;
mod working;

pub use crew::{LaneDone, run_lanes};
pub use done::{run_crew, run_jobs};
pub use finishing::push_values;
pub use gate::{GateKit, GateLane};
pub use sending::ingest;
pub use working::worker;
