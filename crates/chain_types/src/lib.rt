//! Chains: what an accepted chain file says of its tenants, and what is true of each chain.
//!
//! The crate stands on the types that a chain is made of: names, matches, routes, rules and plans. The chains of the
//! definitions are those of `chain_spec`, module `ChainSet`; which of them a value is, and what is right of it, is
//! defined in `specs/`. There are no functions: the facts of a chain are facts of its type, and whoever makes one has
//! proved them.
#![tactic(auto)]

mod chain;
mod group;
mod leaf;
mod stage;
mod words;

pub use chain::Chain;
pub use group::Group;
pub use leaf::{Below, Leaf};
pub use stage::{Backend, Change, Stage};
pub use words::{Dry, Unparsed};
