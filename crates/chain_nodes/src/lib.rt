//! The places of a chain at work: packets in turns through stages and groups, and the items of each leaf group.
//!
//! The crate stands on `batch_ops` for operators, on `group_merge` for groups and on `work_core` for what a work is;
//! it is generic in what a path of stages is. What a place stands for is defined in `flow_work`, module `Node`, and
//! what each kind of place keeps in `specs/`. The contracts of the trait `Node` and of `NodeWork` carry the promise:
//! the results are what the plan answers for the records that came.
#![tactic(auto)]

mod desk;
mod either;
mod fan;
mod flows;
mod leaf;
mod node;
mod none;
mod pipe;
mod run;
mod work;

pub use desk::Desk;
pub use either::Either;
pub use fan::Fan;
pub use flows::Flows;
pub use leaf::LeafList;
pub use node::Node;
pub use none::NoStages;
pub use pipe::Pipe;
pub use run::run_tenant;
pub use work::NodeWork;
