//! Routes by their longest prefix, and the rules of a firewall.
//!
//! The crate stands on `brick_base` for prefixes and on `tcp_udp` for matches. Which row of a table leads to an
//! address, and what a list of rules makes of a flow, is defined in `brick_spec`, modules `Route` and `Firewall`; the
//! cells of a large table, first faults, and what a set of allowed flows stands for, in `specs/`. The contracts of
//! `Routes::build` and `Routes::find` carry the promise of routes, those of `Rules::verdict` and `inspect` that of
//! rules.
#![tactic(auto)]

mod cells;
mod established;
mod faults;
mod inspection;
mod laws;
mod parts;
mod prefix;
mod routes;
mod rules;
mod sent;
#[cfg(test)]
mod tests;

pub use established::Established;
pub use inspection::inspect;
pub use laws::{first_fault_is_first, one_longest_prefix};
pub use routes::{Route, RouteFault, Routes, are_short};
pub use rules::{Rule, Rules, Verdict};
