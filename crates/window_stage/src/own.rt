//! What a counting packet leaves of itself.

ghost use Rattle.std.specs.Prelude.{◌<◌, vec_len, vec_capacity};
ghost use Rattle.flow_spec.specs.Window.{own_by};
ghost use Rattle.window_stage.specs.Fields.{HasFields};
ghost use Rattle.window_stage.specs.Own.{LeavesOwn, item_in};

use crate::fields::SegmentFields;
use batch_ops::Outlet;
use brick_base::{Dir, Raw};
use packet_owner::Packet;
use packetize::bare;

/// What a counting packet leaves of itself, in its own buffer: its bare segment, where it has SYN, FIN or RST, goes on,
/// and else it is kept aside.
pub(crate) fn leave_own(dir: Dir, fields: SegmentFields, p: Packet<Raw>, out: &mut Outlet)
    requires fields { HasFields p.frame fields }
    requires passed { vec_len out.old.passed < vec_capacity out.old.passed }
    requires consumed { vec_len out.old.consumed < vec_capacity out.old.consumed }
    ensures { LeavesOwn p (own_by fields.marked (item_in dir p)) out.old out.new }
{
    if fields.marked {
        out.pass(dir, bare(p));
        return;
    }
    out.consume(p);
}
