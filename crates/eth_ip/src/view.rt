//! Views of an IPv4 header (RFC 791, section 3.1).

ghost use Rattle.std.specs.Prelude.{◌≡◌, ℕ, ◌%◌, ◌≤◌, ◌↔◌, IsTrue, length};
ghost use Rattle.brick_spec.specs.Header.{word_at};
ghost use Rattle.brick_spec.specs.Layer.{ip4_total, tos_of, ident_of, more_fragments, fragment_offset, ttl_of};
ghost use Rattle.brick_spec.specs.Layer.{protocol_of, source_of, destination_of};
ghost use Rattle.brick_spec.specs.Edit.{with_tos, with_ttl, with_source, with_destination, IsIp4Right, with_total};

use crate::header::{
    header_checksum, header_destination, header_fragment_offset, header_ident,
    header_more_fragments, header_protocol, header_source, header_tos, header_total, header_ttl,
    is_header_ok, set_header_destination, set_header_source, set_header_tos, set_header_total,
    set_header_ttl,
};

/// An IPv4 header, for reading.
#[derive(Clone, Copy, Debug)]
pub struct Ip4View<'a> {
    /// The bytes of the header, at least 20 and an even number.
    pub header: &'a [u8],
    ghost long: { 20 ≤ length header.now },
    ghost even: { length header.now % 2 ≡ 0 },
}

impl<'a> Ip4View<'a> {
    /// The header in these bytes.
    pub fn of(header: &'a [u8]) -> Ip4View<'a>
        requires long { 20 ≤ length header.now }
        requires even { length header.now % 2 ≡ 0 }
        ensures { result.header.now ≡ header.now }
    {
        Ip4View { header }
    }

    /// The type of service.
    pub fn tos(&self) -> u8
        ensures { result ≡ tos_of self.now.header.now }
    {
        header_tos(self.header)
    }

    /// The total length: the bytes of the header and of the payload.
    pub fn total(&self) -> u16
        ensures { result ≡ ip4_total self.now.header.now }
    {
        header_total(self.header)
    }

    /// The identification, which the fragments of one datagram share.
    pub fn ident(&self) -> u16
        ensures { result ≡ ident_of self.now.header.now }
    {
        header_ident(self.header)
    }

    /// Whether further fragments of the datagram follow.
    pub fn more_fragments(&self) -> bool
        ensures { result ≡ more_fragments self.now.header.now }
    {
        header_more_fragments(self.header)
    }

    /// Where in its datagram the payload stands, in units of 8 bytes.
    pub fn fragment_offset(&self) -> u16
        ensures { result ≡ fragment_offset self.now.header.now }
    {
        header_fragment_offset(self.header)
    }

    /// The time to live.
    pub fn ttl(&self) -> u8
        ensures { result ≡ ttl_of self.now.header.now }
    {
        header_ttl(self.header)
    }

    /// The number of the protocol in the payload.
    pub fn protocol(&self) -> u8
        ensures { result ≡ protocol_of self.now.header.now }
    {
        header_protocol(self.header)
    }

    /// The source, in network order as a number.
    pub fn src(&self) -> u32
        ensures { result ≡ source_of self.now.header.now }
    {
        header_source(self.header)
    }

    /// The destination, in network order as a number.
    pub fn dst(&self) -> u32
        ensures { result ≡ destination_of self.now.header.now }
    {
        header_destination(self.header)
    }

    /// The checksum that stands there.
    pub fn stored(&self) -> u16
        ensures { result ≡ word_at self.now.header.now 10 }
    {
        header_checksum(self.header)
    }

    /// Whether that checksum is right (RFC 791, section 3.1).
    pub fn header_ok(&self) -> bool
        ensures { IsTrue result ↔ IsIp4Right self.now.header.now }
    {
        is_header_ok(self.header)
    }
}

/// An IPv4 header, for reading and writing.
#[derive(Debug, Drop)]
pub struct Ip4Mut<'a> {
    /// The bytes of the header, at least 20 and an even number.
    pub header: &'a mut [u8],
    ghost long: { 20 ≤ length header.now },
    ghost even: { length header.now % 2 ≡ 0 },
}

impl<'a> Ip4Mut<'a> {
    /// The header in these bytes.
    pub fn of(header: &'a mut [u8]) -> Ip4Mut<'a>
        requires long { 20 ≤ length header.old }
        requires even { length header.old % 2 ≡ 0 }
        ensures same_reference { result.header.ghost_name ≡ header.entry.ghost_name }
        ensures bytes { result.header.now ≡ header.old }
    {
        Ip4Mut { header }
    }

    /// The same header, for reading.
    pub fn as_view(&self) -> Ip4View<'_>
        ensures { result.header.now ≡ self.now.header.now }
    {
        Ip4View::of(self.header)
    }

    /// The type of service.
    pub fn tos(&self) -> u8
        ensures { result ≡ tos_of self.now.header.now }
    {
        self.as_view().tos()
    }

    /// The total length: the bytes of the header and of the payload.
    pub fn total(&self) -> u16
        ensures { result ≡ ip4_total self.now.header.now }
    {
        self.as_view().total()
    }

    /// The identification, which the fragments of one datagram share.
    pub fn ident(&self) -> u16
        ensures { result ≡ ident_of self.now.header.now }
    {
        self.as_view().ident()
    }

    /// Whether further fragments of the datagram follow.
    pub fn more_fragments(&self) -> bool
        ensures { result ≡ more_fragments self.now.header.now }
    {
        self.as_view().more_fragments()
    }

    /// Where in its datagram the payload stands, in units of 8 bytes.
    pub fn fragment_offset(&self) -> u16
        ensures { result ≡ fragment_offset self.now.header.now }
    {
        self.as_view().fragment_offset()
    }

    /// The time to live.
    pub fn ttl(&self) -> u8
        ensures { result ≡ ttl_of self.now.header.now }
    {
        self.as_view().ttl()
    }

    /// The number of the protocol in the payload.
    pub fn protocol(&self) -> u8
        ensures { result ≡ protocol_of self.now.header.now }
    {
        self.as_view().protocol()
    }

    /// The source, in network order as a number.
    pub fn src(&self) -> u32
        ensures { result ≡ source_of self.now.header.now }
    {
        self.as_view().src()
    }

    /// The destination, in network order as a number.
    pub fn dst(&self) -> u32
        ensures { result ≡ destination_of self.now.header.now }
    {
        self.as_view().dst()
    }

    /// The checksum that stands there.
    pub fn stored(&self) -> u16
        ensures { result ≡ word_at self.now.header.now 10 }
    {
        self.as_view().stored()
    }

    /// Whether that checksum is right (RFC 791, section 3.1).
    pub fn header_ok(&self) -> bool
        ensures { IsTrue result ↔ IsIp4Right self.now.header.now }
    {
        self.as_view().header_ok()
    }

    /// Sets the type of service, and adjusts the checksum for that (RFC 1624, equation 3). The old checksum need not be
    /// right.
    pub fn set_tos(&mut self, v: u8)
        ensures same_reference { self.new.header.ghost_name ≡ self.old.header.ghost_name }
        ensures bytes { self.new.header.now ≡ with_tos self.old.header.now v }
    {
        set_header_tos(self.header, v);
    }

    /// Sets the time to live, and adjusts the checksum for that (RFC 1624, equation 3). The old checksum need not be
    /// right.
    pub fn set_ttl(&mut self, v: u8)
        ensures same_reference { self.new.header.ghost_name ≡ self.old.header.ghost_name }
        ensures bytes { self.new.header.now ≡ with_ttl self.old.header.now v }
    {
        set_header_ttl(self.header, v);
    }

    /// Sets the source, and adjusts the checksum for its two words (RFC 1624, equation 3). The old checksum need not be
    /// right.
    pub fn set_src(&mut self, v: u32)
        ensures same_reference { self.new.header.ghost_name ≡ self.old.header.ghost_name }
        ensures bytes { self.new.header.now ≡ with_source self.old.header.now v }
    {
        set_header_source(self.header, v);
    }

    /// Sets the destination, and adjusts the checksum for its two words (RFC 1624, equation 3). The old checksum need
    /// not be right.
    pub fn set_dst(&mut self, v: u32)
        ensures same_reference { self.new.header.ghost_name ≡ self.old.header.ghost_name }
        ensures bytes { self.new.header.now ≡ with_destination self.old.header.now v }
    {
        set_header_destination(self.header, v);
    }

    /// Sets the total length, and computes the checksum anew (RFC 791, section 3.1).
    pub fn set_total(&mut self, v: u16)
        ensures same_reference { self.new.header.ghost_name ≡ self.old.header.ghost_name }
        ensures bytes { self.new.header.now ≡ with_total self.old.header.now v }
    {
        set_header_total(self.header, v);
    }
}
