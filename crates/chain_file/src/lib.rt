//! Chain files: the chains that one gives, or its first fault.
//!
//! The crate stands on `chain_text` and `stage_text` for the tables of a file and on `chain_types` for chains. What a
//! chain file gives is defined in `chain_spec`, modules `ChainWalk` and `ChainSet`; `specs/` says which value of the
//! code is which of the definitions. The contract of `ChainSet::read` carries the promise: the definition's chains,
//! or its first fault.
#![tactic(auto)]

mod below;
mod collisions;
mod files;
mod fits;
mod groups;
mod laws;
mod leaves;
mod named;
mod named_leaf;
mod outputs;
mod set;
mod settings;
mod tenants;
#[cfg(test)]
mod tests;
mod words;

pub use chain_text::{ChainFault, fault_text};
pub use chain_types::{Backend, Below, Chain, Change, Dry, Group, Leaf, Stage, Unparsed};
pub use files::{output_file, refused_file};
pub use laws::{ends, long_refused, order, samples, texts};
pub use set::ChainSet;
