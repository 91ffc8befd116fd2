//! What every crate of `bricks` shares: the Internet checksum and its update, the hash of flow keys, the classes of
//! records, the reasons of drops, want of memory, names, lists of numbers, decimal numbers in a text, and the trait
//! of protocol layers.
//!
//! It stands on `brick_spec` alone, whose modules `Checksum`, `Hash` and `Decimal` define what the functions here
//! compute: their contracts are those definitions. What a prefix is, and which type of the code stands for which of
//! the definitions, is said in `specs/`. The trait `Proto` carries the laws of a protocol layer as ghost members, and
//! whatever is generic over it rests on them alone.
#![tactic(auto)]

mod addresses;
mod decimal;
mod drops;
mod flow;
mod hashing;
mod layer;
mod lists;
mod memory;
mod sent;
mod sums;
#[cfg(test)]
mod tests;
mod text;

pub use addresses::Prefix;
pub use decimal::number_of;
pub use drops::Reason;
pub use flow::{Class, Dir, Ends};
pub use hashing::fnv1a;
pub use layer::{Proto, Raw};
pub use lists::Numbers;
pub use memory::NoMemory;
pub use sums::{adjust, checksum};
pub use text::Name;
