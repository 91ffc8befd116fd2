//! What a chain makes of a capture, without lanes: all records in order, in batches of at most 32, through one work.
//!
//! The crate stands on `work_core`, is generic over `NewWork`, and classifies records by `flow_key`. The tenant
//! meaning is defined in `tenant_spec`, module `Tenant`; what was taken so far, in `specs/`. The contract of
//! `make_tenant` carries the promise: the tenant meaning, where no record is refused.
#![tactic(auto)]

mod made;
mod records;
mod tally;
mod turns;

pub use made::make_tenant;
