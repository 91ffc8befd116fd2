ghost use Rattle.eth_ip.specs.RightLaws.{EditsKeepRight};

/// A law: where a frame has the IPv4 layer, a header checksum that is right is right after each edit of a field.
pub fn edits_keep_right()
    ensures { EditsKeepRight }
{}
