//! Both directions of a flow.

ghost use Rattle.std.specs.Prelude.{◌≡◌};

use crate::fields::SegmentFields;
use crate::half_flow::HalfFlow;
use batch_ops::Outlet;
use brick_base::{Dir, NoMemory, Raw};
use packet_owner::Packet;
use std::alloc::Global;

/// What is kept of a flow: of each direction, with one size and one reach.
#[derive(Drop)]
pub(crate) struct FlowHalves {
    pub(crate) forward: HalfFlow,
    pub(crate) reversed: HalfFlow,
    pub ghost same: { (reversed.size ≡ forward.size) × (reversed.stream.reach ≡ forward.stream.reach) },
}

impl FlowHalves {
    ghost use Rattle.std.specs.Prelude.{◌≡◌, ◌+◌, ◌≤◌, [], None, List, length, vec_len, vec_capacity, IfOk};
    ghost use Rattle.brick_spec.specs.FlowStage.{FlowItem};
    ghost use Rattle.batch_ops.specs.Outlet.{HasRoom};
    ghost use Rattle.window_stream.specs.StreamModel.{StandsFor};
    ghost use Rattle.window_stage.specs.Fields.{HasFields};
    ghost use Rattle.window_stage.specs.Emission.{Emitted};
    ghost use Rattle.window_stage.specs.HalfFlow.{most_windows};
    ghost use Rattle.window_stage.specs.FlowHalves.{FlowHalvesFit, FlowHalvesStepped, IsFresh, rests_in};

    /// A flow to which nothing came.
    pub(crate) fn new(alloc: Global, size: u32, reach: u32) -> Result<FlowHalves, NoMemory>
        requires size { (64 ≤ size) × (size ≤ 1460) }
        requires reach { (1460 ≤ reach) × (reach ≤ 1048576) }
        ensures { IfOk result (λ h. IsFresh size reach h.forward × IsFresh size reach h.reversed) }
    {
        let forward = HalfFlow::new(alloc, size, reach)?;
        let reversed = HalfFlow::new(alloc, size, reach)?;
        Ok(FlowHalves { forward, reversed })
    }

    /// Handles a packet with the TCP layer, of which this was read. Without memory it is lost, and nothing changes.
    pub(crate) fn step(
        &mut self,
        dir: Dir,
        fields: SegmentFields,
        p: Packet<Raw>,
        out: &mut Outlet,
    ) -> Result<(), NoMemory>
        requires fields { HasFields p.frame fields }
        requires room { HasRoom (most_windows self.old.forward + 1) out.old }
        requires spare { most_windows self.old.forward ≤ length out.old.spare.free }
        requires long { 54 + self.old.forward.size ≤ out.old.spare.bytes }
        requires reach { self.old.forward.stream.reach ≤ 1048576 }
        ensures { FlowHalvesStepped self.old self.new dir p out.old out.new result }
    {
        match dir {
            Dir::Forward => self.forward.step(dir, fields, p, out),
            Dir::Reversed => self.reversed.step(dir, fields, p, out),
        }
    }

    /// Passes what is left behind the last windows, Forward and then Reversed, at the end of the flow, under the keys
    /// `(a, 0)` and `(a, 1)`.
    pub(crate) fn end(&self, a: u64, out: &mut Outlet)
        requires room { vec_len out.old.passed + 2 ≤ vec_capacity out.old.passed }
        requires spare { 2 ≤ length out.old.spare.free }
        requires long { 54 + self.now.forward.size ≤ out.old.spare.bytes }
        ensures { Emitted 2 0 (λ xs. (items : List FlowItem) → FlowHalvesFit self.now items →
            xs ≡ rests_in self.now.forward.size self.now.forward.stream.reach a items) out.old out.new }
    {
        self.forward.end(Dir::Forward, (a, 0), out);
        self.reversed.end(Dir::Reversed, (a, 1), out);
    }
}
