//! Where the headers of a frame with ports stand.

ghost use Rattle.std.specs.Prelude.{◌≡◌, ◌↔◌, IsTrue, MatchOption};
ghost use Rattle.tcp_udp.specs.PlacesIn.{ArePlaces, HasNoPorts, IsTcp};

use crate::datagram::read_datagram;
use crate::tcp::Tcp;
use crate::udp::Udp;
use brick_base::Proto;

/// A protocol with ports.
#[derive(Clone, Copy, Debug, PartialEq, Eq)]
pub enum Transport {
    Tcp,
    Udp,
}

/// Where the IPv4 header of a frame and its transport header stand, in bytes from the frame's start.
#[derive(Clone, Copy, Debug, PartialEq, Eq)]
pub struct Places {
    pub transport: Transport,
    /// Where the IPv4 header starts.
    pub ip4: usize,
    /// Where the IPv4 header ends and the transport header starts.
    pub header: usize,
    /// Where the transport header ends and its payload starts.
    pub payload: usize,
    /// Where the payload ends.
    pub end: usize,
}

/// The places of the headers of a frame: none exactly where it has neither the TCP nor the UDP layer.
pub fn read_places(frame: &[u8]) -> Option<Places>
    ensures { MatchOption result (HasNoPorts frame.now) (ArePlaces frame.now) }
{
    let datagram = read_datagram(frame)?;
    let header = 14 + datagram.header.len();
    let room = datagram.payload.len();
    if let Some(length) = Tcp::length(datagram.header, datagram.payload) {
        return Some(Places {
            transport: Transport::Tcp,
            ip4: 14,
            header,
            payload: header + length,
            end: header + room,
        });
    }
    let length = Udp::length(datagram.header, datagram.payload)?;
    let end = Udp::extent(&datagram.payload[..length], room);
    Some(Places {
        transport: Transport::Udp,
        ip4: 14,
        header,
        payload: header + length,
        end: header + end,
    })
}

/// Whether a frame has the TCP layer.
pub fn has_tcp(frame: &[u8]) -> bool
    ensures { IsTrue result ↔ IsTcp frame.now }
{
    match read_places(frame) {
        Some(places) => match places.transport {
            Transport::Tcp => true,
            Transport::Udp => false,
        },
        None => false,
    }
}
