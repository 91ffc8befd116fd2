//! A run over lanes: the jobs of the tenants whose captures were read whole, what their chains make of them over
//! lanes and workers, and the files of all tenants.
//!
//! The crate stands on `tenant_files` for files and on `tenant_lanes` for what is made. What is promised of a run
//! over lanes is defined in `run_spec`, module `Lanes`; what such a run did, in `specs/`. The contract of `run_files`
//! carries the promise, over any store and any kit of lanes.
#![tactic(auto)]

mod jobs;
mod run;
mod writing;

pub use run::run_files;
