ghost use Rattle.lane_table.specs.Shown.{RuleShowsLawful, ClaimIsEvent, ClaimMissIsEvent, ReleaseIsEvent, SendIsEvent};
ghost use Rattle.lane_table.specs.Shown.{FinishIsEvent, ReceiveIsEvent, ReceiveMissIsEvent, TakeEndIsEvent};
ghost use Rattle.lane_table.specs.Shown.{SlotsAreUnseen, SplitIsUnseen, JoinIsUnseen};

/// A law: between any two steps the table shows a lawful lane.
pub fn rule_shows_lawful()
    ensures { RuleShowsLawful }
{}

/// A law: a claim that finds a free buffer is that event.
pub fn claim_is_event()
    ensures { ClaimIsEvent }
{}

/// A law: a claim that finds a buffer taken is that event.
pub fn claim_miss_is_event()
    ensures { ClaimMissIsEvent }
{}

/// A law: a release is that event.
pub fn release_is_event()
    ensures { ReleaseIsEvent }
{}

/// A law: a send is that event.
pub fn send_is_event()
    ensures { SendIsEvent }
{}

/// A law: END that is put is that event.
pub fn finish_is_event()
    ensures { FinishIsEvent }
{}

/// A law: a receive of the next pair is that event.
pub fn receive_is_event()
    ensures { ReceiveIsEvent }
{}

/// A law: a receive that finds its cell empty is that event.
pub fn receive_miss_is_event()
    ensures { ReceiveMissIsEvent }
{}

/// A law: a receive that finds END is that event.
pub fn take_end_is_event()
    ensures { TakeEndIsEvent }
{}

/// A law: a slot that is taken out of the table or put back is no event.
pub fn slots_are_unseen()
    ensures { SlotsAreUnseen }
{}

/// A law: a role that goes to a new seat is no event.
pub fn split_is_unseen()
    ensures { SplitIsUnseen }
{}

/// A law: roles that come back to the ingest's seat are no event.
pub fn join_is_unseen()
    ensures { JoinIsUnseen }
{}
