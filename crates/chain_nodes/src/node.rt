ghost use Rattle.std.specs.Prelude.{◌≡◌, ℕ, ◌+◌, ◌≤◌, List, [], ◌∷◌, map, length, ◌++◌, Some, None, Bool, IfOk};
ghost use Rattle.brick_spec.specs.GroupOutput.{in_key_order};
ghost use Rattle.work_core.specs.Result.{items_view};
ghost use Rattle.brick_spec.specs.Flow.{Flow};
ghost use Rattle.brick_spec.specs.Item.{Item as ItemMeaning};
ghost use Rattle.brick_spec.specs.FlowStage.{FlowInput, FlowOutput, FlowStage};
ghost use Rattle.brick_base.specs.Flow.{flow_of};
ghost use Rattle.batch_ops.specs.Outlet.{IsEmptied, buffer_of};
ghost use Rattle.batch_ops.specs.Operator.{work_item};
ghost use Rattle.flow_spec.specs.Parts.{Parts};
ghost use Rattle.flow_work.specs.Meaning.{Meaning};
ghost use Rattle.flow_work.specs.Node.{IsNode};
ghost use Rattle.flow_work.specs.Buffers.{AreOut};
ghost use Rattle.chain_nodes.specs.Node.{Took};

use crate::Desk;
use brick_base::{Class, NoMemory, Raw};
use packet_owner::Packet;
use pcap_io::Items;
use std::alloc::Global;

/// A place of a chain to which packets come, with all that is behind it. The packets come to rest at a desk.
pub trait Node: Drop {
    /// The value stands, at a flow, for what came and what was made of it.
    ghost stands: { Self → Flow → FlowInput → Parts → Type 0 };

    /// What it makes of a flow.
    ghost makes: { Self → Meaning };

    /// The items of each leaf group so far.
    ghost results: { Self → List (List ItemMeaning) };

    /// It may be used beside a store of so many spare buffers of so many bytes, of which so many lie ready.
    ghost serves: { Self → ℕ → ℕ → ℕ → Type 0 };

    /// Handles a packet of a flow that has not ended.
    fn take(
        &mut self,
        alloc: Global,
        class: &Class,
        packet: Packet<Raw>,
        desk: &mut Desk,
    ) -> Result<(), NoMemory>
        requires serves { serves self.old desk.old.out.spare.count desk.old.out.spare.bytes
            (length desk.old.out.spare.free) }
        requires rest { IsEmptied desk.old.out }
        requires out { AreOut (buffer_of packet ∷ []) desk.old.back desk.old.out.spare }
        ensures { Took stands makes results serves self.old self.new (flow_of class.now) (buffer_of packet
            ∷ []) (work_item class.now packet ∷ []) None desk.old desk.new result };

    /// Handles the end of a flow, in a capture of so many records.
    fn end(
        &mut self,
        alloc: Global,
        class: &Class,
        records: u32,
        desk: &mut Desk,
    ) -> Result<(), NoMemory>
        requires serves { serves self.old desk.old.out.spare.count desk.old.out.spare.bytes
            (length desk.old.out.spare.free) }
        requires rest { IsEmptied desk.old.out }
        requires out { AreOut [] desk.old.back desk.old.out.spare }
        ensures { Took stands makes results serves self.old self.new
            (flow_of class.now) [] [] (Some records) desk.old desk.new result };

    /// The items of its leaf groups, each list in the order of keys, behind these lists.
    fn hand_over(self, alloc: Global, lists: Vec<Items>) -> Result<Vec<Items>, NoMemory>
        ensures { IfOk result (λ all. map items_view all.items
            ≡ map items_view lists.items ++ map in_key_order (results self)) };

    /// What it stands for is what it makes.
    ghost holds: { IsNode stands makes results };

    /// More spare buffers do no harm.
    ghost more: { (n : Self) (count bytes free all : ℕ) → free ≤ all → serves n count bytes free
        → serves n count bytes all };
}
