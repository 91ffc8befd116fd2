//! The files of a run: its chain file and the captures of its tenants, which are read, and the files of a tenant,
//! which are written.
//!
//! The crate stands on `store_files` for whole files, on `chain_file` for chains, and on `run_report` for how a
//! tenant ends. What is promised of a tenant and of a run is defined in `run_spec`; what was read and written, in
//! `specs/`. The contracts of `read_chains`, `read_tenants` and `write_made` carry the promise.
#![tactic(auto)]

mod chains;
mod inputs;
mod written;

pub use chains::{ChainsFault, read_chains};
pub use inputs::{TenantInput, read_tenants};
pub use written::write_made;
