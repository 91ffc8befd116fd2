//! Whether the checksum of a TCP segment or a UDP datagram is right (RFC 793, section 3.1; RFC 768).

ghost use Rattle.std.specs.Prelude.{◌≡◌, ℕ, ◌+◌, ◌%◌, ◌^◌, ◌<◌, ◌≤◌, length};
ghost use Rattle.brick_spec.specs.Checksum.{folded, sum_of_words};
ghost use Rattle.brick_spec.specs.Edit.{udp_stored};
ghost use Rattle.brick_spec.specs.Transport.{segment_checksum, is_tcp_right, is_udp_right, transport_ok};

use crate::datagram::read_datagram;
use crate::tcp::Tcp;
use crate::udp::Udp;
use crate::udp_header::udp_stored;
use brick_base::{Proto, adjust, checksum};
use eth_ip::{header_protocol, read_word};

/// Whether the TCP or the UDP checksum of a frame is right. None exactly where there is neither layer, where the frame
/// ends before the IPv4 total length, where the UDP length goes past the IPv4 payload, or where the UDP checksum field
/// is 0.
pub fn transport_ok(frame: &[u8]) -> Option<bool>
    ensures { result ≡ transport_ok frame.now }
{
    let datagram = read_datagram(frame)?;
    if datagram.is_cut {
        return None;
    }
    let header = datagram.header;
    let payload = datagram.payload;
    if Tcp::length(header, payload).is_some() {
        return Some(is_tcp_right(header, payload));
    }
    Udp::length(header, payload)?;
    let length = read_word(payload, 4) as usize;
    if payload.len() < length || read_word(payload, 6) == 0 {
        return None;
    }
    Some(is_udp_right(header, &payload[..length]))
}

fn is_tcp_right(header: &[u8], segment: &[u8]) -> bool
    requires outer { 20 ≤ length header.now }
    requires long { 20 ≤ length segment.now }
    requires fits { length segment.now < 2 ^ 16 }
    ensures { result ≡ is_tcp_right header.now segment.now }
{
    let stored = read_word(segment, 16);
    let right = segment_checksum(header, segment, 16);
    stored == right
}

fn is_udp_right(header: &[u8], segment: &[u8]) -> bool
    requires outer { 20 ≤ length header.now }
    requires long { 8 ≤ length segment.now }
    requires fits { length segment.now < 2 ^ 16 }
    ensures { result ≡ is_udp_right header.now segment.now }
{
    let stored = read_word(segment, 6);
    let right = udp_stored(segment_checksum(header, segment, 6));
    stored == right
}

/// The checksum of the pseudo-header and the segment, with 0 for the word at the checksum's place `at`. `header` is
/// that of IPv4, and the length in the pseudo-header is that of the segment. No byte is copied.
pub fn segment_checksum(header: &[u8], segment: &[u8], at: usize) -> u16
    requires outer { 20 ≤ length header.now }
    requires even { at % 2 ≡ 0 }
    requires within { at + 2 ≤ length segment.now }
    requires fits { length segment.now < 2 ^ 16 }
    ensures { result ≡ segment_checksum header.now segment.now at }
{
    let addresses = sum_words(&header[12..20]);
    let rest = add_words(header_protocol(header) as u16, segment.len() as u16);
    let front = sum_words(&segment[..at]);
    let back = sum_words(&segment[at + 2..]);
    65535 - add_words(add_words(addresses, rest), add_words(front, back))
}

/// The sum of the words, its carries added at the low end.
fn sum_words(bytes: &[u8]) -> u16
    ensures { result ≡ folded (sum_of_words bytes.now) }
{
    65535 - checksum(bytes)
}

/// The sum of two words, its carry added at the low end.
fn add_words(a: u16, b: u16) -> u16
    ensures { result ≡ folded (a + b) }
{
    65535 - adjust(65535 - a, 65535, b)
}
