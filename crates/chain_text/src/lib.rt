//! The faults of a chain file, and the fields of its tables.
//!
//! The crate stands on `brick_base` and `lpm_fw` for what fields give, and on `toml` for the text. Each
//! field is defined in `chain_spec`, modules `Fields` and `ChainText`, and each fault in `ChainFault`; `specs/` says
//! what it is to give what a definition reads. Each reader's contract is the definition of its name, and that of
//! `fault_text` is the line of a fault.
#![tactic(auto)]

mod addresses;
mod any_prefix;
mod fault;
mod fault_line;
mod fields;
mod names;
#[cfg(test)]
mod tests;
mod texts;
mod tree;

pub use addresses::{address_of, any_prefix_of, mac_of, prefix_of};
pub use any_prefix::AnyPrefix;
pub use fault::{ChainFault, missing, range, unknown};
pub use fault_line::fault_text;
pub use fields::{
    array_in, count_of, known, number_at, number_in, number_or, required, table_in, text_in,
    value_at,
};
pub use names::is_name;
pub use texts::{
    address_in, any_prefix_in, bytes_in, mac_in, name_in, prefix_at, prefix_in, truth_or_false,
};
pub use tree::table_of;
