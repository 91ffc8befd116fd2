//! All flows.

ghost use Rattle.std.specs.Prelude.{ℕ, ◌≡◌, ◌≢◌, ◌<◌, ◌≤◌, Some, None, option_map, length, OnOk, IfSome, MatchOption};
ghost use Rattle.std.specs.Box.{box_value};
ghost use Rattle.window_stage.specs.Kept.{kept_at};
ghost use Rattle.window_stage.specs.declared.flow_halves.FlowHalves.{FlowHalves};

use crate::fields::SegmentFields;
use crate::flow_halves::FlowHalves;
use batch_ops::Outlet;
use brick_base::{Dir, NoMemory, Raw};
use packet_owner::Packet;
use std::alloc::Global;

/// Makes a place for the flow.
fn make_place(kept: &mut Vec<Option<Box<FlowHalves>>>, flow: u32) -> Result<(), NoMemory>
    ensures place { OnOk result (flow < length kept.new.items) }
    ensures same { (q : ℕ) → kept_at kept.new.items q ≡ kept_at kept.old.items q }
{
    'fill: for _ in kept.len()..flow as usize + 1 {
        kept.push(None)?;
    }
    Ok(())
}

/// Takes out what is kept of the flow. Its place stays.
fn take_kept(kept: &mut Vec<Option<Box<FlowHalves>>>, flow: u32) -> Option<Box<FlowHalves>>
    ensures value { option_map box_value result ≡ kept_at kept.old.items flow }
    ensures gone { kept_at kept.new.items flow ≡ None }
    ensures others { (q : ℕ) → q ≢ flow → kept_at kept.new.items q ≡ kept_at kept.old.items q }
    ensures place { IfSome result (λ _. flow < length kept.new.items) }
{
    let at = flow as usize;
    if at >= kept.len() {
        return None;
    }
    kept[at].take()
}

/// What is kept of the flow.
fn find_kept(kept: &[Option<Box<FlowHalves>>], flow: u32) -> Option<&FlowHalves>
    ensures { MatchOption result (kept_at kept.now flow ≡ None) (λ h. kept_at kept.now flow ≡ Some h.now) }
{
    match kept.get(flow as usize) {
        Some(Some(halves)) => Some(halves),
        _ => None,
    }
}

/// What is kept of each flow, at its number: nothing where no TCP segment came.
#[derive(Drop)]
pub(crate) struct Flows {
    pub(crate) alloc: Global,
    pub(crate) size: u32,
    pub(crate) reach: u32,
    pub(crate) halves: Vec<Option<Box<FlowHalves>>>,
    pub ghost windows: { (64 ≤ size) × (size ≤ 1460) },
    pub ghost within: { (1460 ≤ reach) × (reach ≤ 1048576) },
    // each is of this size and reach
    pub ghost kinds: { (q : ℕ) (h : FlowHalves) → kept_at halves.items q ≡ Some h →
        (h.forward.size ≡ size) × (h.forward.stream.reach ≡ reach) },
}

impl Flows {
    ghost use Rattle.std.specs.Prelude.{ℕ, ◌≡◌, ◌+◌, ◌/◌, ◌<◌, ◌≤◌, [], ◌∷◌, ◌++◌, List, length, vec_len, vec_capacity};
    ghost use Rattle.std.specs.Prelude.{Some, None, OnOk, IfOk};
    ghost use Rattle.brick_spec.specs.FlowStage.{FlowItem};
    ghost use Rattle.batch_ops.specs.Outlet.{HasRoom};
    ghost use Rattle.window_stage.specs.Fields.{HasFields};
    ghost use Rattle.window_stage.specs.Emission.{Emitted};
    ghost use Rattle.window_stage.specs.FlowHalves.{FlowHalvesFit, rests_in, IsFresh};
    ghost use Rattle.window_stage.specs.Flows.{FlowsFit, FlowsStepped, OthersKept, IsSameSize};

    /// No flow of which anything is kept.
    pub(crate) fn new(alloc: Global, size: u32, reach: u32) -> Flows
        requires size { (64 ≤ size) × (size ≤ 1460) }
        requires reach { (1460 ≤ reach) × (reach ≤ 1048576) }
        ensures same { (result.size ≡ size) × (result.reach ≡ reach) }
        ensures empty { (q : ℕ) → kept_at result.halves.items q ≡ None }
    {
        Flows {
            alloc,
            size,
            reach,
            halves: Vec::new(alloc),
        }
    }

    /// What is to be kept of a flow to which nothing came. From now on there is a place for it.
    #[cold]
    #[inline(never)]
    fn open(&mut self, flow: u32) -> Result<Box<FlowHalves>, NoMemory>
        ensures fresh { IfOk result (λ h. IsFresh self.old.size self.old.reach h.value.forward
            × IsFresh self.old.size self.old.reach h.value.reversed) }
        ensures place { OnOk result (flow < length self.new.halves.items) }
        ensures kept { (q : ℕ) → kept_at self.new.halves.items q ≡ kept_at self.old.halves.items q }
        ensures same { IsSameSize self.old self.new }
    {
        let halves = FlowHalves::new(self.alloc, self.size, self.reach)?;
        let halves = Box::new(self.alloc, halves)?;
        make_place(&mut self.halves, flow)?;
        Ok(halves)
    }

    /// Takes out what is kept of the flow. Its place stays.
    fn take(&mut self, flow: u32) -> Result<Box<FlowHalves>, NoMemory>
        ensures fits { IfOk result (λ h. (items : List FlowItem) →
            FlowsFit self.old flow items → FlowHalvesFit h.value items) }
        ensures kind { IfOk result (λ h. (h.value.forward.size ≡ self.old.size)
            × (h.value.forward.stream.reach ≡ self.old.reach)) }
        ensures place { OnOk result (flow < length self.new.halves.items) }
        ensures others { OthersKept self.old self.new flow }
        ensures same { IsSameSize self.old self.new }
    {
        match take_kept(&mut self.halves, flow) {
            Some(halves) => Ok(halves),
            None => self.open(flow),
        }
    }

    /// Handles a packet of the flow with the TCP layer, of which this was read. Without memory it is lost.
    pub(crate) fn step(
        &mut self,
        flow: u32,
        dir: Dir,
        fields: SegmentFields,
        p: Packet<Raw>,
        out: &mut Outlet,
    ) -> Result<(), NoMemory>
        requires fields { HasFields p.frame fields }
        requires room { HasRoom (self.old.reach / self.old.size + 1 + 1) out.old }
        requires spare { self.old.reach / self.old.size + 1 ≤ length out.old.spare.free }
        requires long { 54 + self.old.size ≤ out.old.spare.bytes }
        ensures { FlowsStepped self.old self.new flow dir p out.old out.new result }
    {
        let Ok(mut halves) = self.take(flow) else {
            out.lose(p);
            return Err(NoMemory);
        };
        let result = halves.step(dir, fields, p, out);
        self.halves[flow as usize] = Some(halves);
        result
    }

    /// Passes what is left behind the last windows of both directions, at the end of the flow, under the keys `(a, 0)`
    /// and `(a, 1)`.
    pub(crate) fn end(&self, flow: u32, a: u64, out: &mut Outlet)
        requires room { vec_len out.old.passed + 2 ≤ vec_capacity out.old.passed }
        requires spare { 2 ≤ length out.old.spare.free }
        requires long { 54 + self.now.size ≤ out.old.spare.bytes }
        ensures { Emitted 2 0 (λ xs. (items : List FlowItem) → FlowsFit self.now flow items →
            xs ≡ rests_in self.now.size self.now.reach a items) out.old out.new }
    {
        if let Some(halves) = find_kept(&self.halves, flow) {
            halves.end(a, out);
        }
    }
}
