//! UDP (RFC 768).

ghost use Rattle.std.specs.Prelude.{◌≡◌, ◌≤◌, length};
ghost use Rattle.std.proofs.Common.{rules};
ghost use Rattle.brick_spec.specs.Layer.{udp_length, udp_extent};
ghost use Rattle.tcp_udp.specs.LayerLaws.{udp_length_fits, udp_length-take, udp_extent_fits};

use crate::datagram::carries;
use brick_base::Proto;
use eth_ip::{Ip4, read_word};

/// The UDP layer, in the payload of an IPv4 datagram of protocol 17 that is no fragment. Its payload goes to the UDP
/// length, or to where the IPv4 payload ends, whichever comes first.
#[derive(Clone, Copy, Debug, PartialEq, Eq)]
pub struct Udp;

impl Proto for Udp {
    type Prev = Ip4;

    ghost DEPTH = { 3 };

    ghost LEAST = { 8 };

    ghost length_of = { udp_length };

    ghost extent_of = { udp_extent };

    const DEPTH: usize = 3;

    const LEAST: usize = 8;

    fn length(outer: &[u8], rest: &[u8]) -> Option<usize> {
        if outer.len() < 20 {
            return None;
        }
        udp_length(outer, rest)
    }

    fn extent(header: &[u8], room: usize) -> usize {
        let total = if header.len() >= 6 {
            read_word(header, 4) as usize
        } else {
            0
        };
        header.len().max(total.min(room))
    }

    ghost length_fits = { udp_length_fits };

    ghost length_of_cut = { udp_length-take };

    ghost extent_fits = { udp_extent_fits };

    ghost depth_fits = { Prim.search rules };
}

/// The length of the UDP header, by a whole IPv4 header and its payload.
pub(crate) fn udp_length(outer: &[u8], rest: &[u8]) -> Option<usize>
    requires { 20 ≤ length outer.now }
    ensures { result ≡ udp_length outer.now rest.now }
{
    if !carries(outer, 17) || rest.len() < 8 {
        return None;
    }
    if read_word(rest, 4) >= 8 {
        Some(8)
    } else {
        None
    }
}
