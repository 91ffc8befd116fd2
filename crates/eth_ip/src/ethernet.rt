//! Ethernet II (RFC 894).

ghost use Rattle.std.specs.Prelude.{◌≡◌, ℕ, ◌≤◌, length};
ghost use Rattle.std.proofs.Common.{rules};
ghost use Rattle.brick_spec.specs.Layer.{ethernet_length, ethernet_destination, ethernet_source, ethernet_type};
ghost use Rattle.brick_spec.specs.Edit.{with_ethernet_destination, with_ethernet_source};
ghost use Rattle.eth_ip.specs.LayerLaws.{ethernet_length_fits, ethernet_length-take};

use crate::words::read_word;
use brick_base::{Proto, Raw};

/// The Ethernet II layer, at the front of a frame: destination in 6 bytes, source in 6, type in 2. Its payload goes to
/// the frame's end.
#[derive(Clone, Copy, Debug, PartialEq, Eq)]
pub struct Eth;

impl Proto for Eth {
    type Prev = Raw;

    ghost DEPTH = { 1 };

    ghost LEAST = { 14 };

    ghost length_of = { λ _ rest. ethernet_length rest };

    ghost extent_of = { λ _ room. room };

    const DEPTH: usize = 1;

    const LEAST: usize = 14;

    fn length(_outer: &[u8], rest: &[u8]) -> Option<usize> {
        if rest.len() >= 14 { Some(14) } else { None }
    }

    fn extent(_header: &[u8], room: usize) -> usize {
        room
    }

    ghost length_fits = { λ _ rest. ethernet_length_fits rest };

    ghost length_of_cut = { λ _ rest n given. ethernet_length-take rest n given };

    ghost extent_fits = { λ _ _ fits. (fits, Prim.search rules) };

    ghost depth_fits = { Prim.search rules };
}

/// The destination of a header.
pub fn ethernet_destination(header: &[u8]) -> [u8; 6]
    requires { 14 ≤ length header.now }
    ensures { result ≡ ethernet_destination header.now }
{
    let mut mac = [0; 6];
    mac.copy_from_slice(&header[..6]);
    mac
}

/// The source of a header.
pub fn ethernet_source(header: &[u8]) -> [u8; 6]
    requires { 14 ≤ length header.now }
    ensures { result ≡ ethernet_source header.now }
{
    let mut mac = [0; 6];
    mac.copy_from_slice(&header[6..12]);
    mac
}

/// The type of a header: the protocol in its payload.
pub fn ethernet_kind(header: &[u8]) -> u16
    requires { 14 ≤ length header.now }
    ensures { result ≡ ethernet_type header.now }
{
    read_word(header, 12)
}

/// Sets the destination of a header.
pub fn set_ethernet_destination(header: &mut [u8], mac: [u8; 6])
    requires { 14 ≤ length header.old }
    ensures { header.new ≡ with_ethernet_destination header.old mac }
{
    header[..6].copy_from_slice(&mac);
}

/// Sets the source of a header.
pub fn set_ethernet_source(header: &mut [u8], mac: [u8; 6])
    requires { 14 ≤ length header.old }
    ensures { header.new ≡ with_ethernet_source header.old mac }
{
    header[6..12].copy_from_slice(&mac);
}

/// An Ethernet II header, for reading.
#[derive(Clone, Copy, Debug)]
pub struct EthView<'a> {
    /// The 14 bytes of the header.
    pub header: &'a [u8],
    ghost long: { length header.now ≡ 14 },
}

impl<'a> EthView<'a> {
    /// The header in these bytes.
    pub fn of(header: &'a [u8]) -> EthView<'a>
        requires { length header.now ≡ 14 }
        ensures { result.header.now ≡ header.now }
    {
        EthView { header }
    }

    /// The destination.
    pub fn dst(&self) -> [u8; 6]
        ensures { result ≡ ethernet_destination self.now.header.now }
    {
        ethernet_destination(self.header)
    }

    /// The source.
    pub fn src(&self) -> [u8; 6]
        ensures { result ≡ ethernet_source self.now.header.now }
    {
        ethernet_source(self.header)
    }

    /// The type: the protocol in the payload.
    pub fn kind(&self) -> u16
        ensures { result ≡ ethernet_type self.now.header.now }
    {
        ethernet_kind(self.header)
    }
}

/// An Ethernet II header, for reading and writing.
#[derive(Debug, Drop)]
pub struct EthMut<'a> {
    /// The 14 bytes of the header.
    pub header: &'a mut [u8],
    ghost long: { length header.now ≡ 14 },
}

impl<'a> EthMut<'a> {
    /// The header in these bytes.
    pub fn of(header: &'a mut [u8]) -> EthMut<'a>
        requires { length header.old ≡ 14 }
        ensures same_reference { result.header.ghost_name ≡ header.entry.ghost_name }
        ensures bytes { result.header.now ≡ header.old }
    {
        EthMut { header }
    }

    /// The same header, for reading.
    pub fn as_view(&self) -> EthView<'_>
        ensures { result.header.now ≡ self.now.header.now }
    {
        EthView::of(self.header)
    }

    /// The destination.
    pub fn dst(&self) -> [u8; 6]
        ensures { result ≡ ethernet_destination self.now.header.now }
    {
        self.as_view().dst()
    }

    /// The source.
    pub fn src(&self) -> [u8; 6]
        ensures { result ≡ ethernet_source self.now.header.now }
    {
        self.as_view().src()
    }

    /// The type: the protocol in the payload.
    pub fn kind(&self) -> u16
        ensures { result ≡ ethernet_type self.now.header.now }
    {
        self.as_view().kind()
    }

    /// Sets the destination.
    pub fn set_dst(&mut self, mac: [u8; 6])
        ensures same_reference { self.new.header.ghost_name ≡ self.old.header.ghost_name }
        ensures bytes { self.new.header.now ≡ with_ethernet_destination self.old.header.now mac }
    {
        set_ethernet_destination(self.header, mac);
    }

    /// Sets the source.
    pub fn set_src(&mut self, mac: [u8; 6])
        ensures same_reference { self.new.header.ghost_name ≡ self.old.header.ghost_name }
        ensures bytes { self.new.header.now ≡ with_ethernet_source self.old.header.now mac }
    {
        set_ethernet_source(self.header, mac);
    }
}
