// The rule of a lane's table, and the names of its steps.
ghost use Rattle.lane_table.specs.Rule.{Lanes, first_view};
ghost use Rattle.lane_table.specs.Steps.{Sends, Claiming, Takes, Settles, Releases, Closes, Receiving};
ghost use Rattle.lane_table.specs.Hands.{first_role, later_roles};
ghost use Rattle.lane_table.specs.Joins.{joined};
ghost use Rattle.lane_table.specs.Rule.{spent};

use crate::view::{LaneKey, SeatView, Stored};
use atomic_table::{Join, Play, Split, TableRule};

pub struct LaneRule;

impl TableRule<Stored, SeatView, LaneKey> for LaneRule {
    ghost holds = { Lanes };

    ghost first = { first_view };
}

/// A buffer's word is swapped for 0.
pub struct ClaimWord;

impl Play<Stored, SeatView> for ClaimWord {
    ghost then = { Claiming };
}

/// A slot that the seat holds is taken out of the table, or put back.
pub struct TakeSlot;

impl Play<Stored, SeatView> for TakeSlot {
    ghost then = { Takes };
}

pub struct SettleSlot;

impl Play<Stored, SeatView> for SettleSlot {
    ghost then = { Settles };
}

/// A buffer's word is swapped for 1, and its slot is put back.
pub struct OpenWord;

impl Play<Stored, SeatView> for OpenWord {
    ghost then = { Releases };
}

/// The next cell of a ring is swapped for an entry, for END, or for 0.
pub struct PutEntry;

impl Play<Stored, SeatView> for PutEntry {
    ghost then = { Sends };
}

pub struct PutEnd;

impl Play<Stored, SeatView> for PutEnd {
    ghost then = { Closes };
}

pub struct TakeEntry;

impl Play<Stored, SeatView> for TakeEntry {
    ghost then = { Receiving };
}

/// The first role of a seat with several goes to a new seat, and comes back.
pub struct RoleOf;

impl Split<SeatView> for RoleOf {
    ghost left = { later_roles };

    ghost right = { first_role };
}

impl Join<SeatView> for RoleOf {
    ghost both = { joined };

    ghost spent = { spent };
}
