//! The works of a tenant's workers as one: what they answer together, and that it is what one work answers.
//!
//! The crate stands on `work_core` and `group_merge`, and is generic over `ChainWork`. What is answered together is
//! defined in `specs/`, over `flow_spec`, module `Answer`, and `tenant_spec`. The contract of `join_parts` joins the
//! results; `workers_answer_as_one` and `workers_make_tenant` carry the promise: however the flows are shared among
//! workers, it is the tenant meaning.
#![tactic(auto)]

mod join;
mod laws;
mod part;
#[cfg(test)]
mod tests;
mod whole;

pub use join::join_parts;
pub use laws::{
    flows_come_whole, merged_has_leaves, workers_answer_as_one, workers_have_no_flow,
    workers_make_tenant,
};
