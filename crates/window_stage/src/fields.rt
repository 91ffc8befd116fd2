//! What the stage reads of a packet's frame.

ghost use Rattle.std.specs.Prelude.{◌≡◌, ◌≤◌, length, slice_range, None, MatchOption};
ghost use Rattle.brick_spec.specs.Layer.{tcp_layer};
ghost use Rattle.window_stage.specs.Fields.{HasFields};

use tcp_udp::{Places, Transport, read_places, tcp_flags, tcp_sequence};

/// What is read of a TCP segment in a frame.
#[derive(Clone, Copy, Debug, PartialEq, Eq)]
pub(crate) struct SegmentFields {
    /// Its sequence number.
    pub(crate) seq: u32,
    /// It has SYN.
    pub(crate) syn: bool,
    /// It has SYN, FIN or RST.
    pub(crate) marked: bool,
    /// Where its headers and its payload stand in the frame.
    pub(crate) places: Places,
}

/// What is read of the TCP segment in a frame: none exactly where it has no TCP layer.
pub(crate) fn read_fields(frame: &[u8]) -> Option<SegmentFields>
    ensures { MatchOption result (tcp_layer frame.now ≡ None) (HasFields frame.now) }
{
    let places = read_places(frame)?;
    match places.transport {
        Transport::Udp => None,
        Transport::Tcp => {
            let header = &frame[places.header..places.payload];
            let flags = tcp_flags(header);
            Some(SegmentFields {
                seq: tcp_sequence(header),
                syn: flags / 2 % 2 == 1,
                marked: flags % 8 != 0,
                places,
            })
        }
    }
}
