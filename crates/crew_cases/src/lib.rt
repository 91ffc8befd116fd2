//! Tests of crews: `run_crew` over kits of lanes and the works of chains. The crate has no items but its tests.
//!
//! It stands on `work_crew`, on both kits of lanes, and on `chain_run` and `chain_file` for works and chains. It has
//! no definitions of its own: what `run_crew` promises is its contract in `work_crew`.
#![tactic(auto)]

#[cfg(test)]
mod tests;
