//! Fields of a TCP header (RFC 793, section 3.1), and edits of them.

ghost use Rattle.std.specs.Prelude.{◌≡◌, ℕ, ◌+◌, ◌≤◌, length};
ghost use Rattle.brick_spec.specs.Header.{word_at};
ghost use Rattle.brick_spec.specs.Layer.{source_port, destination_port, sequence_of, acknowledgement_of, tcp_flags};
ghost use Rattle.brick_spec.specs.Layer.{tcp_window};
ghost use Rattle.brick_spec.specs.Edit.{readdressed, with_tcp_source, with_tcp_destination, with_tcp_address};

use crate::ports::{destination_port, source_port};
use brick_base::adjust;
use byteorder::{BigEndian, ByteOrder};
use eth_ip::{edit_word, read_word, write_word};

/// The sequence number of a header.
pub fn tcp_sequence(header: &[u8]) -> u32
    requires { 20 ≤ length header.now }
    ensures { result ≡ sequence_of header.now }
{
    BigEndian::read_u32(&header[4..])
}

/// The acknowledgement number of a header.
pub fn tcp_acknowledgement(header: &[u8]) -> u32
    requires { 20 ≤ length header.now }
    ensures { result ≡ acknowledgement_of header.now }
{
    BigEndian::read_u32(&header[8..])
}

/// The six flags of a header: URG 32, ACK 16, PSH 8, RST 4, SYN 2, FIN 1.
pub fn tcp_flags(header: &[u8]) -> u8
    requires { 20 ≤ length header.now }
    ensures { result ≡ tcp_flags header.now }
{
    header[13] % 64
}

/// The window of a header, in bytes.
pub fn tcp_window(header: &[u8]) -> u16
    requires { 20 ≤ length header.now }
    ensures { result ≡ tcp_window header.now }
{
    read_word(header, 14)
}

/// The checksum that stands in a header.
pub fn tcp_checksum(header: &[u8]) -> u16
    requires { 20 ≤ length header.now }
    ensures { result ≡ word_at header.now 16 }
{
    read_word(header, 16)
}

/// Sets the source port of a header, and adjusts its checksum for that (RFC 1624, equation 3).
pub fn set_tcp_source_port(header: &mut [u8], port: u16)
    requires { 20 ≤ length header.old }
    ensures { header.new ≡ with_tcp_source header.old port }
{
    edit_word(header, 16, 0, port);
}

/// Sets the destination port of a header, and adjusts its checksum for that (RFC 1624, equation 3).
pub fn set_tcp_destination_port(header: &mut [u8], port: u16)
    requires { 20 ≤ length header.old }
    ensures { header.new ≡ with_tcp_destination header.old port }
{
    edit_word(header, 16, 2, port);
}

/// Adjusts the checksum of a header for an address of its datagram that has changed from `old` to `new`, word by word
/// (RFC 1624, equation 3). Nothing else changes.
pub fn tcp_address_changed(header: &mut [u8], old: u32, new: u32)
    requires { 20 ≤ length header.old }
    ensures { header.new ≡ with_tcp_address header.old old new }
{
    let checksum = tcp_checksum(header);
    write_word(header, 16, readdress(checksum, old, new));
}

/// The checksum after an address under it has changed.
fn readdress(checksum: u16, old: u32, new: u32) -> u16
    ensures { result ≡ readdressed checksum old new }
{
    let half = adjust(checksum, (old / 65536) as u16, (new / 65536) as u16);
    adjust(half, (old % 65536) as u16, (new % 65536) as u16)
}

/// A TCP header, for reading.
#[derive(Clone, Copy, Debug)]
pub struct TcpView<'a> {
    /// The bytes of the header, at least 20.
    pub header: &'a [u8],
    ghost long: { 20 ≤ length header.now },
}

impl<'a> TcpView<'a> {
    /// The header in these bytes.
    pub fn of(header: &'a [u8]) -> TcpView<'a>
        requires { 20 ≤ length header.now }
        ensures { result.header.now ≡ header.now }
    {
        TcpView { header }
    }

    /// The source port.
    pub fn sport(&self) -> u16
        ensures { result ≡ source_port self.now.header.now }
    {
        source_port(self.header)
    }

    /// The destination port.
    pub fn dport(&self) -> u16
        ensures { result ≡ destination_port self.now.header.now }
    {
        destination_port(self.header)
    }

    /// The sequence number.
    pub fn seq(&self) -> u32
        ensures { result ≡ sequence_of self.now.header.now }
    {
        tcp_sequence(self.header)
    }

    /// The acknowledgement number.
    pub fn ack(&self) -> u32
        ensures { result ≡ acknowledgement_of self.now.header.now }
    {
        tcp_acknowledgement(self.header)
    }

    /// The six flags: URG 32, ACK 16, PSH 8, RST 4, SYN 2, FIN 1.
    pub fn flags(&self) -> u8
        ensures { result ≡ tcp_flags self.now.header.now }
    {
        tcp_flags(self.header)
    }

    /// The window, in bytes.
    pub fn window(&self) -> u16
        ensures { result ≡ tcp_window self.now.header.now }
    {
        tcp_window(self.header)
    }

    /// The checksum that stands there.
    pub fn stored(&self) -> u16
        ensures { result ≡ word_at self.now.header.now 16 }
    {
        tcp_checksum(self.header)
    }
}

/// A TCP header, for reading and writing.
#[derive(Debug, Drop)]
pub struct TcpMut<'a> {
    /// The bytes of the header, at least 20.
    pub header: &'a mut [u8],
    ghost long: { 20 ≤ length header.now },
}

impl<'a> TcpMut<'a> {
    /// The header in these bytes.
    pub fn of(header: &'a mut [u8]) -> TcpMut<'a>
        requires { 20 ≤ length header.old }
        ensures same_reference { result.header.ghost_name ≡ header.entry.ghost_name }
        ensures bytes { result.header.now ≡ header.old }
    {
        TcpMut { header }
    }

    /// The same header, for reading.
    pub fn as_view(&self) -> TcpView<'_>
        ensures { result.header.now ≡ self.now.header.now }
    {
        TcpView::of(self.header)
    }

    /// The source port.
    pub fn sport(&self) -> u16
        ensures { result ≡ source_port self.now.header.now }
    {
        self.as_view().sport()
    }

    /// The destination port.
    pub fn dport(&self) -> u16
        ensures { result ≡ destination_port self.now.header.now }
    {
        self.as_view().dport()
    }

    /// The sequence number.
    pub fn seq(&self) -> u32
        ensures { result ≡ sequence_of self.now.header.now }
    {
        self.as_view().seq()
    }

    /// The acknowledgement number.
    pub fn ack(&self) -> u32
        ensures { result ≡ acknowledgement_of self.now.header.now }
    {
        self.as_view().ack()
    }

    /// The six flags: URG 32, ACK 16, PSH 8, RST 4, SYN 2, FIN 1.
    pub fn flags(&self) -> u8
        ensures { result ≡ tcp_flags self.now.header.now }
    {
        self.as_view().flags()
    }

    /// The window, in bytes.
    pub fn window(&self) -> u16
        ensures { result ≡ tcp_window self.now.header.now }
    {
        self.as_view().window()
    }

    /// The checksum that stands there.
    pub fn stored(&self) -> u16
        ensures { result ≡ word_at self.now.header.now 16 }
    {
        self.as_view().stored()
    }

    /// Sets the source port, and adjusts the checksum for that (RFC 1624, equation 3).
    pub fn set_sport(&mut self, v: u16)
        ensures same_reference { self.new.header.ghost_name ≡ self.old.header.ghost_name }
        ensures bytes { self.new.header.now ≡ with_tcp_source self.old.header.now v }
    {
        set_tcp_source_port(self.header, v);
    }

    /// Sets the destination port, and adjusts the checksum for that (RFC 1624, equation 3).
    pub fn set_dport(&mut self, v: u16)
        ensures same_reference { self.new.header.ghost_name ≡ self.old.header.ghost_name }
        ensures bytes { self.new.header.now ≡ with_tcp_destination self.old.header.now v }
    {
        set_tcp_destination_port(self.header, v);
    }

    /// Adjusts the checksum for an address of the datagram that has changed from `old` to `new` (RFC 1624, equation 3).
    pub fn address_changed(&mut self, old: u32, new: u32)
        ensures same_reference { self.new.header.ghost_name ≡ self.old.header.ghost_name }
        ensures bytes { self.new.header.now ≡ with_tcp_address self.old.header.now old new }
    {
        tcp_address_changed(self.header, old, new);
    }
}
