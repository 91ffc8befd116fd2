//! TCP and UDP: the two layers in the payload of IPv4, views of their headers, the five-tuple of a frame, what a
//! match asks of it, and whether a frame's transport checksum is right.
//!
//! A header is a slice that the caller holds. A view reads it in place, and an edit changes the bytes of a field and
//! of the checksum, and no other. What a view does, a function over the slice does too. The crate stands on `eth_ip`
//! and `packet_owner`, and on `brick_spec`, whose modules `Layer`, `Edit`, `Tuple`, `Match` and `Transport` define
//! what it reads and changes (RFC 793, section 3.1; RFC 768); where headers stand in a frame, and the laws, are in
//! `specs/`. The contracts of the setters, of `Tuple::read`, `Match::meets` and `transport_ok` are those definitions,
//! and `transport_edits_keep_right` says that a right checksum stays right.
#![tactic(auto)]

mod datagram;
mod laws;
mod matching;
mod places;
mod ports;
mod tcp;
mod tcp_header;
#[cfg(test)]
mod tests;
mod transport;
mod tuple;
mod udp;
mod udp_header;

pub use laws::{parse_finds_layers, transport_edits_keep_right};
pub use matching::Match;
pub use places::{Places, Transport, has_tcp, read_places};
pub use ports::{destination_port, source_port};
pub use tcp::Tcp;
pub use tcp_header::{
    TcpMut, TcpView, set_tcp_destination_port, set_tcp_source_port, tcp_acknowledgement,
    tcp_address_changed, tcp_checksum, tcp_flags, tcp_sequence, tcp_window,
};
pub use transport::{segment_checksum, transport_ok};
pub use tuple::Tuple;
pub use udp::Udp;
pub use udp_header::{
    UdpMut, UdpView, set_udp_destination_port, set_udp_source_port, udp_address_changed,
    udp_checksum, udp_total,
};
