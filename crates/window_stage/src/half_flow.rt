//! One direction of a flow.

ghost use Rattle.std.specs.Prelude.{ℕ, ◌≡◌, ◌+◌, ◌-◌, ◌*◌, ◌/◌, ◌<◌, ◌≤◌, ◌^◌, List, length, max, Some, IsSome};
ghost use Rattle.std.specs.Prelude.{vec_len, vec_capacity};
ghost use Rattle.brick_spec.specs.Stream.{StreamSegment, reassembly};
ghost use Rattle.brick_base.specs.Flow.{dir_view};
ghost use Rattle.packetize.specs.View.{template_view};
ghost use Rattle.packetize.specs.declared.templates.Template.{Template};
ghost use Rattle.window_stream.specs.StreamModel.{StandsFor};
ghost use Rattle.flow_spec.specs.Window.{windows_from};
ghost use Rattle.window_stage.specs.Emission.{Emitted};

use crate::emission::{emit_rest, emit_windows};
use crate::fields::SegmentFields;
use crate::own::leave_own;
use batch_ops::Outlet;
use brick_base::{Dir, NoMemory, Raw, Reason};
use packet_owner::Packet;
use packetize::Template;
use std::alloc::Global;
use window_stream::{Segment, Stream, Taken};

/// Passes the windows of a stream from the one at `from` up to that before `to`, under this template, in spare buffers,
/// and lets go of them.
#[inline(never)]
fn pass_windows(
    stream: &mut Stream,
    size: u32,
    last: &Option<Template>,
    dir: Dir,
    a: u64,
    from: u64,
    to: u64,
    out: &mut Outlet,
)
    requires size { size ≡ stream.old.size }
    requires data { (64 ≤ size) × (size ≤ 1460) }
    requires order { from ≤ to }
    requires few { to - from < 2 ^ 32 }
    requires fits { stream.old.ready < 2 ^ 64 }
    requires whole { to * size ≤ stream.old.ready }
    requires there { stream.old.dropped ≤ from * size }
    requires room { vec_len out.old.passed + (to - from) ≤ vec_capacity out.old.passed }
    requires spare { to - from ≤ length out.old.spare.free }
    requires long { 54 + size ≤ out.old.spare.bytes }
    requires last { IsSome last.now }
    ensures passed { (m : Template) → last.now ≡ Some m → Emitted (to - from) 1
        (λ xs. (segments : List StreamSegment) → StandsFor stream.old segments →
        xs ≡ windows_from size (reassembly stream.old.reach segments) (dir_view dir)
        (template_view m) a 1 from (to - from)) out.old out.new }
    ensures dropped { stream.new.dropped ≡ max stream.old.dropped (to * size) }
    ensures same { (stream.new.size ≡ stream.old.size) × (stream.new.reach ≡ stream.old.reach)
        × (stream.new.ready ≡ stream.old.ready) }
    ensures segments { (segments : List StreamSegment) → StandsFor stream.old segments →
        StandsFor stream.new segments }
{
    let Some(template) = last else {
        return;
    };
    emit_windows(stream, size, template, dir, a, from, to, out);
    stream.drop_before(to * u64::from(size));
}

/// What is kept of one direction of a flow: its stream, of which each window was emitted as soon as it was whole, and
/// the template of the last packet that counted.
#[derive(Drop)]
pub(crate) struct HalfFlow {
    pub(crate) stream: Stream,
    pub(crate) size: u32,
    pub(crate) last: Option<Template>,
    pub ghost same_size: { size ≡ stream.size },
    pub ghost within: { (64 ≤ size) × (size ≤ 1460) },
    pub ghost emitted: { stream.dropped ≡ stream.ready / size * size },
}

impl HalfFlow {
    ghost use Rattle.std.specs.Prelude.{◌≡◌, ◌+◌, ◌<◌, ◌≤◌, ◌^◌, [], None, List, length, vec_len, vec_capacity, IfOk};
    ghost use Rattle.brick_spec.specs.FlowStage.{FlowItem};
    ghost use Rattle.brick_base.specs.Flow.{dir_view};
    ghost use Rattle.batch_ops.specs.Outlet.{HasRoom};
    ghost use Rattle.window_stream.specs.StreamModel.{StandsFor};
    ghost use Rattle.flow_spec.specs.Window.{rest_in};
    ghost use Rattle.window_stage.specs.Fields.{HasFields};
    ghost use Rattle.window_stage.specs.Emission.{Emitted};
    ghost use Rattle.window_stage.specs.HalfFlow.{HalfFlowFits, HalfFlowStepped, most_windows};

    /// A direction to which nothing came.
    pub(crate) fn new(alloc: Global, size: u32, reach: u32) -> Result<HalfFlow, NoMemory>
        requires size { (64 ≤ size) × (size ≤ 1460) }
        requires reach { (1460 ≤ reach) × (reach ≤ 1048576) }
        ensures { IfOk result (λ w.
            (w.size ≡ size) × (w.stream.reach ≡ reach) × StandsFor w.stream [] × (w.last ≡ None)) }
    {
        let stream = Stream::new(alloc, size, reach)?;
        Ok(HalfFlow {
            stream,
            size,
            last: None,
        })
    }

    /// Handles a packet with the TCP layer, of which this was read. Without memory it is lost, and nothing changes.
    pub(crate) fn step(
        &mut self,
        dir: Dir,
        fields: SegmentFields,
        p: Packet<Raw>,
        out: &mut Outlet,
    ) -> Result<(), NoMemory>
        requires fields { HasFields p.frame fields }
        requires room { HasRoom (most_windows self.old + 1) out.old }
        requires spare { most_windows self.old ≤ length out.old.spare.free }
        requires long { 54 + self.old.size ≤ out.old.spare.bytes }
        requires reach { self.old.stream.reach ≤ 1048576 }
        ensures { HalfFlowStepped self.old self.new dir p out.old out.new result }
    {
        let size = u64::from(self.size);
        let from = self.stream.ready() / size;
        match self.stream.take(Segment {
            seq: fields.seq,
            syn: fields.syn,
            bytes: &p.payload()[fields.places.payload..fields.places.end],
        }) {
            Err(NoMemory) => {
                out.lose(p);
                Err(NoMemory)
            }
            Ok(Taken::Bare) => {
                out.pass(dir, p);
                Ok(())
            }
            Ok(Taken::Beyond) => {
                out.drop_for(Reason::Reach, p);
                Ok(())
            }
            Ok(Taken::Counted) => {
                self.last = Some(Template::at(&p, &fields.places));
                let (a, _) = p.key();
                leave_own(dir, fields, p, out);
                let to = self.stream.ready() / size;
                if from == to {
                    return Ok(());
                }
                pass_windows(
                    &mut self.stream,
                    self.size,
                    &self.last,
                    dir,
                    a,
                    from,
                    to,
                    out,
                );
                Ok(())
            }
        }
    }

    /// Passes what is left behind the last window, at the end of the flow, under this key.
    pub(crate) fn end(&self, dir: Dir, key: (u64, u32), out: &mut Outlet)
        requires room { vec_len out.old.passed < vec_capacity out.old.passed }
        requires spare { 0 < length out.old.spare.free }
        requires long { 54 + self.now.size ≤ out.old.spare.bytes }
        ensures { Emitted 1 key.1 (λ xs. (items : List FlowItem) → HalfFlowFits (dir_view dir) self.now items →
            xs ≡ rest_in self.now.size self.now.stream.reach (dir_view dir) key.0 key.1 items) out.old out.new }
    {
        if let Some(template) = &self.last {
            emit_rest(&self.stream, self.size, template, dir, key, out);
        }
    }
}
