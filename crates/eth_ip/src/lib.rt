//! Ethernet II and IPv4: the two layers of a frame, and views of their headers.
//!
//! A header is a slice that the caller holds. A view reads it in place, and an edit changes the bytes of a field and
//! of the IPv4 header checksum, and no other. What a view does, a function over the slice does too. The crate stands
//! on `brick_base`, and on `brick_spec`, whose modules `Layer`, `Header` and `Edit` define layers, fields and edits
//! (RFC 894; RFC 791, section 3.1); the laws of the two layers and of edits under a checksum stand in `specs/`. Each
//! setter's contract is its edit of the whole header, and `edits_keep_right` says that a right checksum stays right.
#![tactic(auto)]

mod ethernet;
mod header;
mod internet;
mod laws;
#[cfg(test)]
mod tests;
mod view;
mod words;

pub use ethernet::{
    Eth, EthMut, EthView, ethernet_destination, ethernet_kind, ethernet_source,
    set_ethernet_destination, set_ethernet_source,
};
pub use header::{
    header_checksum, header_destination, header_fragment_offset, header_ident,
    header_more_fragments, header_protocol, header_source, header_tos, header_total, header_ttl,
    is_header_ok, set_header_destination, set_header_source, set_header_tos, set_header_total,
    set_header_ttl,
};
pub use internet::Ip4;
pub use laws::edits_keep_right;
pub use view::{Ip4Mut, Ip4View};
pub use words::{edit_word, read_word, write_word};
