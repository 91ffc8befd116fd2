//! What the stage reads of a packet's frame.

ghost use Rattle.std.specs.Prelude.{◌≡◌, None, MatchOption};
ghost use Rattle.brick_spec.specs.Layer.{tcp_layer};
ghost use Rattle.scan_stage.specs.Segment.{IsSegment};

use tcp_udp::{Transport, read_places, tcp_flags, tcp_sequence};
use window_stream::Segment;

/// The TCP segment in a frame: none exactly where it has no TCP layer.
pub(crate) fn segment_in(frame: &[u8]) -> Option<Segment<'_>>
    ensures { MatchOption result (tcp_layer frame.now ≡ None) (IsSegment frame.now) }
{
    let places = read_places(frame)?;
    match places.transport {
        Transport::Udp => None,
        Transport::Tcp => {
            let header = &frame[places.header..places.payload];
            Some(Segment {
                seq: tcp_sequence(header),
                syn: tcp_flags(header) / 2 % 2 == 1,
                bytes: &frame[places.payload..places.end],
            })
        }
    }
}
