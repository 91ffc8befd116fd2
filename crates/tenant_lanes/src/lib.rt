//! What the chains of tenants make of their captures over lanes: each tenant has a lane of its own, and workers over
//! all lanes.
//!
//! The crate stands on `work_crew`, and is generic over kits of lanes and works. The tenant meaning is defined in
//! `tenant_spec`, module `Tenant`, and the Books in `run_spec`, module `Books`; `specs/` has what is made of all
//! jobs. The contract of `make_tenants` carries the promise: of each job the tenant meaning of its own chain and
//! capture, where the records are refused that its own Book says.
#![tactic(auto)]

mod job;
mod made;
mod works;

pub use job::{TenantCapture, new_job, new_jobs};
pub use made::make_tenants;
