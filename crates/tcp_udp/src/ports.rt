//! The ports of a header.

ghost use Rattle.std.specs.Prelude.{◌≡◌, ◌≤◌, length};
ghost use Rattle.brick_spec.specs.Layer.{source_port, destination_port};

use eth_ip::read_word;

/// The source port of a TCP or a UDP header (RFC 793, section 3.1; RFC 768).
pub fn source_port(header: &[u8]) -> u16
    requires { 4 ≤ length header.now }
    ensures { result ≡ source_port header.now }
{
    read_word(header, 0)
}

/// The destination port of a TCP or a UDP header (RFC 793, section 3.1; RFC 768).
pub fn destination_port(header: &[u8]) -> u16
    requires { 4 ≤ length header.now }
    ensures { result ≡ destination_port header.now }
{
    read_word(header, 2)
}
