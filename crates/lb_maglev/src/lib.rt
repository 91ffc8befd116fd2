//! The balance table: which backend has each of 251 places, after Maglev (Eisenbud and others, NSDI 2016, section
//! 3.4).
//!
//! Each backend has an order of preference over the places, which its name gives. The backends take turns, in the
//! order of the list, each taking its first preferred place that is still free, until all are taken. The shares of
//! any two backends differ by at most one. The crate stands on `brick_base`. The table is defined in `brick_spec`,
//! module `Balance`, and which table a flow has in `flow_spec`, module `Balancing`; the walks of backends over the
//! places, and the tables of epochs, stand in `specs/`. The contracts of `Maglev::build` and `Epochs::backend` carry
//! the promise, and `plain` has the slow function that tests compare with.
#![tactic(auto)]

mod epochs;
mod hashes;
pub mod plain;
mod sent;
mod table;
#[cfg(test)]
mod tests;
mod turns;
mod walk;

pub use epochs::{Epoch, Epochs, are_named};
pub use table::Maglev;
