ghost use Rattle.window_stage.specs.Keys.{WindowKeys};
ghost use Rattle.window_stage.specs.StreamLaw.{TellsStream};

/// A law: what is left of an item of key (k, 0) has keys (k, 0), (k, 1) and so on, or from (k, 1) on, and the rests of
/// a flow have keys behind those of all records.
pub fn window_keys()
    ensures { WindowKeys }
{}

/// A law: the data of a direction's windows and of its rest, end to end, are the bytes of its stream from position 0 up
/// to the first gap, each once.
pub fn tells_stream()
    ensures { TellsStream }
{}
