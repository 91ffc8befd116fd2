//! Fields of a UDP header (RFC 768), and edits of them.

ghost use Rattle.std.specs.Prelude.{◌≡◌, ℕ, ◌+◌, ◌≤◌, length};
ghost use Rattle.brick_spec.specs.Header.{word_at};
ghost use Rattle.brick_spec.specs.Layer.{source_port, destination_port, udp_total};
ghost use Rattle.brick_spec.specs.Edit.{udp_stored, udp_adjusted, udp_readdressed, udp_edited, with_udp_source};
ghost use Rattle.brick_spec.specs.Edit.{with_udp_destination, with_udp_address};

use crate::ports::{destination_port, source_port};
use brick_base::adjust;
use eth_ip::{read_word, write_word};

/// The UDP length that a header gives: the bytes of the header and of the payload.
pub fn udp_total(header: &[u8]) -> u16
    requires { 8 ≤ length header.now }
    ensures { result ≡ udp_total header.now }
{
    read_word(header, 4)
}

/// The checksum that stands in a header. 0 says that there is none.
pub fn udp_checksum(header: &[u8]) -> u16
    requires { 8 ≤ length header.now }
    ensures { result ≡ word_at header.now 6 }
{
    read_word(header, 6)
}

/// Sets the source port of a header, and adjusts its checksum for that (RFC 1624, equation 3). A field of 0 stays 0,
/// and a result of 0 is stored as ffff.
pub fn set_udp_source_port(header: &mut [u8], port: u16)
    requires { 8 ≤ length header.old }
    ensures { header.new ≡ with_udp_source header.old port }
{
    edit_udp_word(header, 0, port);
}

/// Sets the destination port of a header, and adjusts its checksum for that (RFC 1624, equation 3). A field of 0 stays
/// 0, and a result of 0 is stored as ffff.
pub fn set_udp_destination_port(header: &mut [u8], port: u16)
    requires { 8 ≤ length header.old }
    ensures { header.new ≡ with_udp_destination header.old port }
{
    edit_udp_word(header, 2, port);
}

/// Adjusts the checksum of a header for an address of its datagram that has changed from `old` to `new`, word by word
/// (RFC 1624, equation 3). A field of 0 stays 0, and a result of 0 is stored as ffff. Nothing else changes.
pub fn udp_address_changed(header: &mut [u8], old: u32, new: u32)
    requires { 8 ≤ length header.old }
    ensures { header.new ≡ with_udp_address header.old old new }
{
    let field = udp_checksum(header);
    write_word(header, 6, readdress_field(field, old, new));
}

/// Sets the word at a place, and adjusts the checksum field for that, unless it is 0.
fn edit_udp_word(header: &mut [u8], at: usize, word: u16)
    requires long { 8 ≤ length header.old }
    requires within { at + 2 ≤ length header.old }
    ensures { header.new ≡ udp_edited header.old at word }
{
    let old = read_word(header, at);
    let field = read_word(header, 6);
    write_word(header, at, word);
    write_word(header, 6, adjust_field(field, old, word));
}

/// The field after an address under it has changed.
fn readdress_field(field: u16, old: u32, new: u32) -> u16
    ensures { result ≡ udp_readdressed field old new }
{
    let half = adjust_field(field, (old / 65536) as u16, (new / 65536) as u16);
    adjust_field(half, (old % 65536) as u16, (new % 65536) as u16)
}

/// The field after one word under it has changed.
fn adjust_field(field: u16, old: u16, new: u16) -> u16
    ensures { result ≡ udp_adjusted field old new }
{
    match field {
        0 => 0,
        field => udp_stored(adjust(field, old, new)),
    }
}

/// How a checksum stands in a header.
pub(crate) fn udp_stored(checksum: u16) -> u16
    ensures { result ≡ udp_stored checksum }
{
    match checksum {
        0 => 65535,
        checksum => checksum,
    }
}

/// A UDP header, for reading.
#[derive(Clone, Copy, Debug)]
pub struct UdpView<'a> {
    /// The bytes of the header, at least 8.
    pub header: &'a [u8],
    ghost long: { 8 ≤ length header.now },
}

impl<'a> UdpView<'a> {
    /// The header in these bytes.
    pub fn of(header: &'a [u8]) -> UdpView<'a>
        requires { 8 ≤ length header.now }
        ensures { result.header.now ≡ header.now }
    {
        UdpView { header }
    }

    /// The source port.
    pub fn sport(&self) -> u16
        ensures { result ≡ source_port self.now.header.now }
    {
        source_port(self.header)
    }

    /// The destination port.
    pub fn dport(&self) -> u16
        ensures { result ≡ destination_port self.now.header.now }
    {
        destination_port(self.header)
    }

    /// The UDP length: the bytes of the header and of the payload.
    pub fn length(&self) -> u16
        ensures { result ≡ udp_total self.now.header.now }
    {
        udp_total(self.header)
    }

    /// The checksum that stands there. 0 says that there is none.
    pub fn stored(&self) -> u16
        ensures { result ≡ word_at self.now.header.now 6 }
    {
        udp_checksum(self.header)
    }
}

/// A UDP header, for reading and writing.
#[derive(Debug, Drop)]
pub struct UdpMut<'a> {
    /// The bytes of the header, at least 8.
    pub header: &'a mut [u8],
    ghost long: { 8 ≤ length header.now },
}

impl<'a> UdpMut<'a> {
    /// The header in these bytes.
    pub fn of(header: &'a mut [u8]) -> UdpMut<'a>
        requires { 8 ≤ length header.old }
        ensures same_reference { result.header.ghost_name ≡ header.entry.ghost_name }
        ensures bytes { result.header.now ≡ header.old }
    {
        UdpMut { header }
    }

    /// The same header, for reading.
    pub fn as_view(&self) -> UdpView<'_>
        ensures { result.header.now ≡ self.now.header.now }
    {
        UdpView::of(self.header)
    }

    /// The source port.
    pub fn sport(&self) -> u16
        ensures { result ≡ source_port self.now.header.now }
    {
        self.as_view().sport()
    }

    /// The destination port.
    pub fn dport(&self) -> u16
        ensures { result ≡ destination_port self.now.header.now }
    {
        self.as_view().dport()
    }

    /// The UDP length: the bytes of the header and of the payload.
    pub fn length(&self) -> u16
        ensures { result ≡ udp_total self.now.header.now }
    {
        self.as_view().length()
    }

    /// The checksum that stands there. 0 says that there is none.
    pub fn stored(&self) -> u16
        ensures { result ≡ word_at self.now.header.now 6 }
    {
        self.as_view().stored()
    }

    /// Sets the source port, and adjusts the checksum for that (RFC 1624, equation 3). A field of 0 stays 0, and a
    /// result of 0 is stored as ffff.
    pub fn set_sport(&mut self, v: u16)
        ensures same_reference { self.new.header.ghost_name ≡ self.old.header.ghost_name }
        ensures bytes { self.new.header.now ≡ with_udp_source self.old.header.now v }
    {
        set_udp_source_port(self.header, v);
    }

    /// Sets the destination port, and adjusts the checksum for that (RFC 1624, equation 3). A field of 0 stays 0, and a
    /// result of 0 is stored as ffff.
    pub fn set_dport(&mut self, v: u16)
        ensures same_reference { self.new.header.ghost_name ≡ self.old.header.ghost_name }
        ensures bytes { self.new.header.now ≡ with_udp_destination self.old.header.now v }
    {
        set_udp_destination_port(self.header, v);
    }

    /// Adjusts the checksum for an address of the datagram that has changed from `old` to `new` (RFC 1624, equation 3).
    /// A field of 0 stays 0, and a result of 0 is stored as ffff.
    pub fn address_changed(&mut self, old: u32, new: u32)
        ensures same_reference { self.new.header.ghost_name ≡ self.old.header.ghost_name }
        ensures bytes { self.new.header.now ≡ with_udp_address self.old.header.now old new }
    {
        udp_address_changed(self.header, old, new);
    }
}
