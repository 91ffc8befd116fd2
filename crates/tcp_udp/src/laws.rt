ghost use Rattle.tcp_udp.specs.TransportLaws.{TransportEditsKeepRight};
ghost use Rattle.tcp_udp.specs.PacketLayers.{ParseFindsLayers};

/// A law: where the checksum of a frame's TCP or UDP layer is there and right, it is so again after the edit of a port,
/// and after the edit of an address that the header is told of.
pub fn transport_edits_keep_right()
    ensures { TransportEditsKeepRight }
{}

/// A law: where the places of a packet are those of its frame's layers, `parse` reads Ethernet, IPv4, TCP or UDP
/// exactly where the frame has that layer, and the places are again those of the frame's layers.
pub fn parse_finds_layers()
    ensures { ParseFindsLayers }
{}
