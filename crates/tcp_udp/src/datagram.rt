//! The IPv4 datagram of a frame.

ghost use Rattle.std.specs.Prelude.{◌≡◌, ℕ, ◌≤◌, ◌&&◌, not, nat_eq, length, MatchOption};
ghost use Rattle.brick_spec.specs.Layer.{Layer, ip4_layer, carries, fragment_offset, more_fragments};
ghost use Rattle.tcp_udp.specs.Datagrams.{IsDatagram};

use brick_base::Proto;
use eth_ip::{Eth, Ip4, header_protocol, header_total, read_word};

/// The IPv4 header of a frame and its payload.
#[derive(Clone, Copy)]
pub(crate) struct Datagram<'a> {
    pub(crate) header: &'a [u8],
    pub(crate) payload: &'a [u8],
    /// The frame ends before the total length.
    pub(crate) is_cut: bool,
}

/// The IPv4 datagram of a frame, where it has that layer.
pub(crate) fn read_datagram(frame: &[u8]) -> Option<Datagram<'_>>
    ensures { MatchOption result (ip4_layer frame.now
        ≡ None) (λ d. IsDatagram frame.now d.header.now d.payload.now d.is_cut) }
{
    let start = Eth::length(&[], frame)?;
    let (ethernet, rest) = frame.split_at(start);
    let length = Ip4::length(ethernet, rest)?;
    let header = &rest[..length];
    let end = Ip4::extent(header, rest.len());
    Some(Datagram {
        header,
        payload: &rest[length..end],
        is_cut: rest.len() < header_total(header) as usize,
    })
}

/// Whether an IPv4 header is of this protocol and its payload is a whole datagram's, no fragment.
pub(crate) fn carries(header: &[u8], protocol: u8) -> bool
    requires { 20 ≤ length header.now }
    ensures { result ≡ carries protocol header.now }
{
    header_protocol(header) == protocol && is_whole(header)
}

/// Whether the payload of an IPv4 header is a whole datagram's: the flag that further fragments follow, and the
/// fragment offset below it, are the low 14 bits of one word (RFC 791, section 3.1).
#[tactic(auto, using(crate::proofs::Reading::whole_test))]
fn is_whole(header: &[u8]) -> bool
    requires { 20 ≤ length header.now }
    ensures { result ≡ (nat_eq (fragment_offset header.now) 0 && not (more_fragments header.now)) }
{
    read_word(header, 6) % 16384 == 0
}
