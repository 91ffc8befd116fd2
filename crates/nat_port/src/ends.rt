//! The ends of a frame, edited in place.

ghost use Rattle.std.specs.Prelude.{◌≡◌, ◌≤◌, ◌+◌, ◌-◌, ◌%◌, length, slice_range};
ghost use Rattle.brick_spec.specs.Layer.{source_of, destination_of};
ghost use Rattle.brick_spec.specs.Edit.{with_source, with_destination};
ghost use Rattle.brick_spec.specs.AddressTranslation as spec;
ghost use Rattle.tcp_udp.specs.PlacesIn.{least_header};
ghost use Rattle.tcp_udp.specs.PlacesIn.{with_part};
ghost use Rattle.nat_port.specs.Edited.{source_edited, destination_edited};

use eth_ip::{header_destination, header_source, set_header_destination, set_header_source};
use tcp_udp::{
    Places, Transport, read_places, set_tcp_destination_port, set_tcp_source_port,
    set_udp_destination_port, set_udp_source_port, tcp_address_changed, udp_address_changed,
};

/// Edits a transport header after the source of its datagram has changed from `old`: for the address, and then for the
/// port.
fn set_transport_source(header: &mut [u8], transport: Transport, old: u32, address: u32, port: u16)
    requires { least_header transport ≤ length header.old }
    ensures { header.new ≡ source_edited transport old (record { address = address; port = port }) header.old }
{
    match transport {
        Transport::Tcp => {
            tcp_address_changed(header, old, address);
            set_tcp_source_port(header, port);
        }
        Transport::Udp => {
            udp_address_changed(header, old, address);
            set_udp_source_port(header, port);
        }
    }
}

/// Edits a transport header after the destination of its datagram has changed from `old`: for the address, and then for
/// the port.
fn set_transport_destination(
    header: &mut [u8],
    transport: Transport,
    old: u32,
    address: u32,
    port: u16,
)
    requires { least_header transport ≤ length header.old }
    ensures { header.new ≡ destination_edited transport old (record { address = address; port = port }) header.old }
{
    match transport {
        Transport::Tcp => {
            tcp_address_changed(header, old, address);
            set_tcp_destination_port(header, port);
        }
        Transport::Udp => {
            udp_address_changed(header, old, address);
            set_udp_destination_port(header, port);
        }
    }
}

/// Gives the IPv4 header at a place of a frame another source, and tells the old one.
fn replace_source(frame: &mut [u8], start: usize, end: usize, address: u32) -> u32
    requires long { start + 20 ≤ end }
    requires even { (end - start) % 2 ≡ 0 }
    requires within { end ≤ length frame.old }
    ensures edit { frame.new ≡ with_part start end (with_source (slice_range frame.old start end) address) frame.old }
    ensures old { result ≡ source_of (slice_range frame.old start end) }
{
    let header = &mut frame[start..end];
    let old = header_source(header);
    set_header_source(header, address);
    old
}

/// Gives the IPv4 header at a place of a frame another destination, and tells the old one.
fn replace_destination(frame: &mut [u8], start: usize, end: usize, address: u32) -> u32
    requires long { start + 20 ≤ end }
    requires even { (end - start) % 2 ≡ 0 }
    requires within { end ≤ length frame.old }
    ensures edit { frame.new
        ≡ with_part start end (with_destination (slice_range frame.old start end) address) frame.old }
    ensures old { result ≡ destination_of (slice_range frame.old start end) }
{
    let header = &mut frame[start..end];
    let old = header_destination(header);
    set_header_destination(header, address);
    old
}

/// Edits the transport header of a frame after its source has changed.
fn tell_source(frame: &mut [u8], places: Places, old: u32, address: u32, port: u16)
    requires long { places.header + least_header places.transport ≤ places.payload }
    requires within { places.payload ≤ length frame.old }
    ensures { frame.new
        ≡ with_part places.header places.payload (source_edited places.transport old (record {
          address = address;
          port = port;
        }) (slice_range frame.old places.header places.payload)) frame.old }
{
    let header = &mut frame[places.header..places.payload];
    set_transport_source(header, places.transport, old, address, port);
}

/// Edits the transport header of a frame after its destination has changed.
fn tell_destination(frame: &mut [u8], places: Places, old: u32, address: u32, port: u16)
    requires long { places.header + least_header places.transport ≤ places.payload }
    requires within { places.payload ≤ length frame.old }
    ensures { frame.new
        ≡ with_part places.header places.payload (destination_edited places.transport old (record {
          address = address;
          port = port;
        }) (slice_range frame.old places.header places.payload)) frame.old }
{
    let header = &mut frame[places.header..places.payload];
    set_transport_destination(header, places.transport, old, address, port);
}

/// Gives a frame with ports another source end.
pub(crate) fn set_source_end(frame: &mut [u8], address: u32, port: u16)
    ensures { frame.new ≡ spec.with_source_end (record { address = address; port = port }) frame.old }
{
    if let Some(places) = read_places(frame) {
        let old = replace_source(frame, places.ip4, places.header, address);
        tell_source(frame, places, old, address, port);
    }
}

/// Gives a frame with ports another destination end.
pub(crate) fn set_destination_end(frame: &mut [u8], address: u32, port: u16)
    ensures { frame.new ≡ spec.with_destination_end (record { address = address; port = port }) frame.old }
{
    if let Some(places) = read_places(frame) {
        let old = replace_destination(frame, places.ip4, places.header, address);
        tell_destination(frame, places, old, address, port);
    }
}
