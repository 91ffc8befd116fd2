//! TCP (RFC 793, section 3.1).

ghost use Rattle.std.specs.Prelude.{◌≡◌, ◌≤◌, length};
ghost use Rattle.std.proofs.Common.{rules};
ghost use Rattle.brick_spec.specs.Layer.{tcp_length, tcp_extent};
ghost use Rattle.tcp_udp.specs.LayerLaws.{tcp_length_fits, tcp_length-take};

use crate::datagram::carries;
use brick_base::Proto;
use eth_ip::Ip4;

/// The TCP layer, in the payload of an IPv4 datagram of protocol 6 that is no fragment. Its payload goes to where the
/// IPv4 payload ends.
#[derive(Clone, Copy, Debug, PartialEq, Eq)]
pub struct Tcp;

impl Proto for Tcp {
    type Prev = Ip4;

    ghost DEPTH = { 3 };

    ghost LEAST = { 20 };

    ghost length_of = { tcp_length };

    ghost extent_of = { tcp_extent };

    const DEPTH: usize = 3;

    const LEAST: usize = 20;

    fn length(outer: &[u8], rest: &[u8]) -> Option<usize> {
        if outer.len() < 20 {
            return None;
        }
        tcp_length(outer, rest)
    }

    fn extent(_header: &[u8], room: usize) -> usize {
        room
    }

    ghost length_fits = { tcp_length_fits };

    ghost length_of_cut = { tcp_length-take };

    ghost extent_fits = { λ _ _ fits. (fits, Prim.search rules) };

    ghost depth_fits = { Prim.search rules };
}

/// The length of the TCP header, by a whole IPv4 header and its payload.
pub(crate) fn tcp_length(outer: &[u8], rest: &[u8]) -> Option<usize>
    requires { 20 ≤ length outer.now }
    ensures { result ≡ tcp_length outer.now rest.now }
{
    if !carries(outer, 6) || rest.len() < 20 {
        return None;
    }
    let length = rest[12] as usize / 16 * 4;
    if 20 <= length && length <= rest.len() {
        Some(length)
    } else {
        None
    }
}
