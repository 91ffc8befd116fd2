//! IPv4 (RFC 791, section 3.1).

ghost use Rattle.std.proofs.Common.{rules};
ghost use Rattle.brick_spec.specs.Layer.{ip4_length, ip4_extent};
ghost use Rattle.eth_ip.specs.LayerLaws.{ip4_length_fits, ip4_length-take, ip4_extent_fits};

use crate::ethernet::Eth;
use crate::words::read_word;
use brick_base::Proto;

/// The IPv4 layer, in the payload of an Ethernet frame of type 0800. Its payload goes to the total length, or to where
/// the captured bytes end, whichever comes first.
#[derive(Clone, Copy, Debug, PartialEq, Eq)]
pub struct Ip4;

impl Proto for Ip4 {
    type Prev = Eth;

    ghost DEPTH = { 2 };

    ghost LEAST = { 20 };

    ghost length_of = { ip4_length };

    ghost extent_of = { ip4_extent };

    const DEPTH: usize = 2;

    const LEAST: usize = 20;

    fn length(outer: &[u8], rest: &[u8]) -> Option<usize> {
        if outer.len() < 14 || rest.len() < 20 || read_word(outer, 12) != 0x0800 {
            return None;
        }
        let version = rest[0] / 16;
        let length = rest[0] as usize % 16 * 4;
        let total = read_word(rest, 2) as usize;
        if version == 4 && 20 <= length && length <= rest.len() && length <= total {
            Some(length)
        } else {
            None
        }
    }

    fn extent(header: &[u8], room: usize) -> usize {
        let total = if header.len() >= 4 {
            read_word(header, 2) as usize
        } else {
            0
        };
        header.len().max(total.min(room))
    }

    ghost length_fits = { ip4_length_fits };

    ghost length_of_cut = { ip4_length-take };

    ghost extent_fits = { ip4_extent_fits };

    ghost depth_fits = { Prim.search rules };
}
