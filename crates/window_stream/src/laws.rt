//! What the first gap is, and where a segment stands, as laws.

ghost use Rattle.window_stream.specs.Laws.{ReadyIsGreatest, PlaceIsOnly, BaseIsOfFirst};

/// A law: the first gap is the greatest number such that every position below it is covered.
pub fn ready_is_greatest()
    ensures { ReadyIsGreatest }
{}

/// A law: a segment's data have a place, and it is the only one.
pub fn place_is_only()
    ensures { PlaceIsOnly }
{}

/// A law: position 0 has a sequence number once a segment came.
pub fn base_is_of_first()
    ensures { BaseIsOfFirst }
{}
