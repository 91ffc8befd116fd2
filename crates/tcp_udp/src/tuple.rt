//! The five-tuple of a frame.

ghost use Rattle.std.specs.Prelude.{◌≡◌, ℕ, ◌≤◌, List, length, Option, Some, None, option_map};
ghost use Rattle.brick_spec.specs.Layer.{Layer, header_in, payload_in};
ghost use Rattle.brick_spec.specs.Tuple.{ports_at, transport_layer_in};

use crate::datagram::read_datagram;
use crate::ports::{destination_port, source_port};
use crate::tcp::tcp_length;
use crate::udp::udp_length;
use eth_ip::{header_destination, header_protocol, header_source};

/// What a frame with an IPv4 layer says of its ends.
#[derive(Clone, Copy, Debug, PartialEq, Eq)]
pub struct Tuple {
    /// The number of the protocol.
    pub proto: u8,
    /// The source address, in network order as a number.
    pub src: u32,
    /// The destination address, in network order as a number.
    pub dst: u32,
    /// The source port and the destination port, where the frame has the TCP or the UDP layer.
    pub ports: Option<(u16, u16)>,
}

impl Tuple {
    ghost use Rattle.brick_spec.specs.Tuple.{tuple_in, tuple_of};
    ghost use Rattle.tcp_udp.specs.View.{tuple_view};

    /// The five-tuple of a frame: None exactly where it has no IPv4 layer.
    #[inline]
    pub fn read(frame: &[u8]) -> Option<Tuple>
        ensures { option_map tuple_view result ≡ tuple_of frame.now }
    {
        let datagram = read_datagram(frame)?;
        Some(Tuple::of_layer(datagram.header, datagram.payload))
    }

    /// The five-tuple of a frame, by the header of its IPv4 layer and the payload of that.
    pub fn of_layer(header: &[u8], payload: &[u8]) -> Tuple
        requires { 20 ≤ length header.now }
        ensures { (frame : List ℕ) (l : Layer) → header.now ≡ header_in frame l → payload.now ≡ payload_in frame l
            → tuple_view result ≡ tuple_in frame l }
    {
        Tuple {
            proto: header_protocol(header),
            src: header_source(header),
            dst: header_destination(header),
            ports: read_ports(header, payload),
        }
    }
}

/// The ports, by the IPv4 header and its payload.
fn read_ports(header: &[u8], payload: &[u8]) -> Option<(u16, u16)>
    requires { 20 ≤ length header.now }
    ensures { (frame : List ℕ) (l : Layer) → header.now ≡ header_in frame l → payload.now ≡ payload_in frame l
        → result ≡ option_map (ports_at frame) (transport_layer_in frame l) }
{
    if tcp_length(header, payload).is_some() || udp_length(header, payload).is_some() {
        Some((source_port(payload), destination_port(payload)))
    } else {
        None
    }
}
