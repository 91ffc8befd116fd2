//! Fields of an IPv4 header (RFC 791, section 3.1), and edits of them.

ghost use Rattle.std.specs.Prelude.{◌≡◌, ℕ, ◌+◌, ◌≤◌, ◌↔◌, IsTrue, length};
ghost use Rattle.brick_spec.specs.Header.{word_at, number_at};
ghost use Rattle.brick_spec.specs.Layer.{ip4_total, tos_of, ident_of, more_fragments, fragment_offset, ttl_of};
ghost use Rattle.brick_spec.specs.Layer.{protocol_of, source_of, destination_of};
ghost use Rattle.brick_spec.specs.Edit.{with_tos, with_ttl, with_source, with_destination, ip4_checksum, IsIp4Right};
ghost use Rattle.brick_spec.specs.Edit.{with_total};

use crate::words::{edit_word, read_word, write_word};
use brick_base::{adjust, checksum};
use byteorder::{BigEndian, ByteOrder};

/// The type of service of a header.
pub fn header_tos(header: &[u8]) -> u8
    requires { 20 ≤ length header.now }
    ensures { result ≡ tos_of header.now }
{
    header[1]
}

/// The total length that a header gives: the bytes of the header and of the payload.
pub fn header_total(header: &[u8]) -> u16
    requires { 20 ≤ length header.now }
    ensures { result ≡ ip4_total header.now }
{
    read_word(header, 2)
}

/// The identification of a header, which the fragments of one datagram share.
pub fn header_ident(header: &[u8]) -> u16
    requires { 20 ≤ length header.now }
    ensures { result ≡ ident_of header.now }
{
    read_word(header, 4)
}

/// Whether a header says that further fragments of its datagram follow.
pub fn header_more_fragments(header: &[u8]) -> bool
    requires { 20 ≤ length header.now }
    ensures { result ≡ more_fragments header.now }
{
    read_word(header, 6) / 8192 % 2 == 1
}

/// Where in its datagram the payload of a header stands, in units of 8 bytes.
pub fn header_fragment_offset(header: &[u8]) -> u16
    requires { 20 ≤ length header.now }
    ensures { result ≡ fragment_offset header.now }
{
    read_word(header, 6) % 8192
}

/// The time to live of a header.
pub fn header_ttl(header: &[u8]) -> u8
    requires { 20 ≤ length header.now }
    ensures { result ≡ ttl_of header.now }
{
    header[8]
}

/// The number of the protocol in the payload of a header.
pub fn header_protocol(header: &[u8]) -> u8
    requires { 20 ≤ length header.now }
    ensures { result ≡ protocol_of header.now }
{
    header[9]
}

/// The checksum that stands in a header.
pub fn header_checksum(header: &[u8]) -> u16
    requires { 20 ≤ length header.now }
    ensures { result ≡ word_at header.now 10 }
{
    read_word(header, 10)
}

/// The source of a header, in network order as a number.
pub fn header_source(header: &[u8]) -> u32
    requires { 20 ≤ length header.now }
    ensures { result ≡ source_of header.now }
{
    BigEndian::read_u32(&header[12..])
}

/// The destination of a header, in network order as a number.
pub fn header_destination(header: &[u8]) -> u32
    requires { 20 ≤ length header.now }
    ensures { result ≡ destination_of header.now }
{
    BigEndian::read_u32(&header[16..])
}

/// Whether the checksum that stands in a header is right (RFC 791, section 3.1).
pub fn is_header_ok(header: &[u8]) -> bool
    requires { 20 ≤ length header.now }
    ensures { IsTrue result ↔ IsIp4Right header.now }
{
    let stored = header_checksum(header);
    let right = right_checksum(header);
    stored == right
}

/// Sets the type of service of a header, and adjusts its checksum for that (RFC 1624, equation 3). The old checksum
/// need not be right.
pub fn set_header_tos(header: &mut [u8], tos: u8)
    requires { 20 ≤ length header.old }
    ensures { header.new ≡ with_tos header.old tos }
{
    let first = header[0];
    edit_word(header, 10, 0, first as u16 * 256 + tos as u16);
}

/// Sets the time to live of a header, and adjusts its checksum for that (RFC 1624, equation 3). The old checksum need
/// not be right.
pub fn set_header_ttl(header: &mut [u8], ttl: u8)
    requires { 20 ≤ length header.old }
    ensures { header.new ≡ with_ttl header.old ttl }
{
    let protocol = header_protocol(header);
    edit_word(header, 10, 8, ttl as u16 * 256 + protocol as u16);
}

/// Sets the source of a header, and adjusts its checksum for that, word by word (RFC 1624, equation 3). The old
/// checksum need not be right.
pub fn set_header_source(header: &mut [u8], address: u32)
    requires { 20 ≤ length header.old }
    ensures { header.new ≡ with_source header.old address }
{
    edit_word(header, 10, 12, (address / 65536) as u16);
    edit_word(header, 10, 14, (address % 65536) as u16);
}

/// Sets the destination of a header, and adjusts its checksum for that, word by word (RFC 1624, equation 3). The old
/// checksum need not be right.
pub fn set_header_destination(header: &mut [u8], address: u32)
    requires { 20 ≤ length header.old }
    ensures { header.new ≡ with_destination header.old address }
{
    edit_word(header, 10, 16, (address / 65536) as u16);
    edit_word(header, 10, 18, (address % 65536) as u16);
}

/// Sets the total length of a header, and computes its checksum anew (RFC 791, section 3.1).
pub fn set_header_total(header: &mut [u8], total: u16)
    requires { 20 ≤ length header.old }
    ensures { header.new ≡ with_total header.old total }
{
    write_word(header, 2, total);
    let right = right_checksum(header);
    write_word(header, 10, right);
}

/// The checksum that is right: the sum of the words before it and behind it.
fn right_checksum(header: &[u8]) -> u16
    requires { 12 ≤ length header.now }
    ensures { result ≡ ip4_checksum header.now }
{
    let front = checksum(&header[..10]);
    let back = checksum(&header[12..]);
    adjust(front, 65535, 65535 - back)
}
