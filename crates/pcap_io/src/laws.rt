ghost use Rattle.pcap_io.specs.TextLaws.{EachIsWholeOrFaulty, NoneIsWholeAndFaulty, FaultIsUnique, CaptureIsUnique};
ghost use Rattle.pcap_io.specs.TextLaws.{WrittenIsCapture};
ghost use Rattle.pcap_io.specs.WorkedCapture.{ForeignIsWhole};

/// A worked example: a big-endian capture with nanoseconds is whole by the definition.
pub fn foreign_capture_is_whole()
    ensures { ForeignIsWhole }
{}

/// A law: each list of bytes is a whole capture, or one of the faults stands.
pub fn each_is_whole_or_faulty()
    ensures { EachIsWholeOrFaulty }
{}

/// A law: where bytes are a whole capture, no fault stands.
pub fn none_is_whole_and_faulty()
    ensures { NoneIsWholeAndFaulty }
{}

/// A law: no two faults stand.
pub fn fault_is_unique()
    ensures { FaultIsUnique }
{}

/// A law: the byte order, the resolution and the entries of a whole capture are unique.
pub fn capture_is_unique()
    ensures { CaptureIsUnique }
{}

/// A law: what is written of entries is a whole capture of them.
pub fn written_is_capture()
    ensures { WrittenIsCapture }
{}
