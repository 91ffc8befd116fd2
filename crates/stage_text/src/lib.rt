//! The stages of a chain file, and the tables in them: matches, rules, routes, backends and epochs; and the plan of a
//! translation.
//!
//! The crate stands on `chain_text` for fields and on `chain_types` for what is read. The walk of a stage's table is
//! defined in `chain_spec`, module `StageWalk`; `specs/` has the names of the stages. The contracts of `stages_at`,
//! `match_at` and `nat_at` carry the promise: the value that the definition reads, or its first fault.
#![tactic(auto)]

mod backends;
mod epochs;
mod kinds;
mod matches;
mod plan;
mod routes;
mod rules;
mod stages;

pub use matches::match_at;
pub use plan::nat_at;
pub use stages::stages_at;
