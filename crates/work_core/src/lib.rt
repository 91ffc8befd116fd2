//! What handles the packets of a tenant, as those see it who hand it packets: turns, the end, and the results; and
//! the results joined to the tenant's outputs.
//!
//! The crate stands on `chain_types` and `batch_ops`. What a chain makes of a capture is defined in `flow_spec`,
//! module `Answer`, and in `tenant_spec`; how a work stands to it, in `specs/`. The traits `ChainWork` and `NewWork`
//! have the contract of a work, and the contract of `join_outputs` says what the outputs are.
#![tactic(auto)]

mod chain_work;
mod job;
mod laws;
mod leaves;
mod new_work;
mod outputs;
mod result;
mod returned;
mod sort;

pub use chain_work::ChainWork;
pub use job::{TenantDone, TenantJob};
pub use laws::chains_own_keys;
pub use leaves::leaf_outputs;
pub use new_work::NewWork;
pub use outputs::join_outputs;
pub use result::WorkResult;
pub use returned::Returned;
pub use sort::sort_items;
