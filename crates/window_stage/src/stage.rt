//! The stage.

ghost use Rattle.std.specs.Prelude.{ℕ, ◌≡◌, ◌≤◌};

use crate::fields::read_fields;
use crate::flows::Flows;
use batch_ops::{Operator, Outlet, Staged};
use brick_base::{Class, NoMemory, Raw};
use packet_owner::Packet;
use std::alloc::Global;
use std::fmt;

/// Of each direction of each flow, passes the bytes of its TCP stream in order, in windows of `size` bytes, in place of
/// the segments that they came in. A payload that ends more than `reach` bytes past the bytes in order is dropped.
#[derive(Drop)]
pub struct WindowStage {
    /// How many bytes a window has.
    pub size: u32,
    /// How far past the bytes in order a payload may end.
    pub reach: u32,
    pub(crate) flows: Flows,
    pub(crate) failed: bool,
    pub ghost windows: { (64 ≤ size) × (size ≤ 1460) },
    pub ghost within: { (1460 ≤ reach) × (reach ≤ 1048576) },
    pub ghost same: { (flows.size ≡ size) × (flows.reach ≡ reach) },
}

/// Its windows, its reach, and whether it failed; not what it keeps of flows.
impl fmt::Debug for WindowStage {
    fn fmt<W: fmt::Write>(&self, f: &mut fmt::Formatter<W>) -> fmt::Result {
        f.debug_struct("WindowStage")
            .field("size", &self.size)
            .field("reach", &self.reach)
            .field("failed", &self.failed)
            .finish_non_exhaustive()
    }
}

impl WindowStage {
    ghost use Rattle.std.specs.Prelude.{ℕ, ◌≡◌, ◌≤◌, [], None, false};
    ghost use Rattle.brick_spec.specs.Flow.{Flow};
    ghost use Rattle.brick_spec.specs.FlowStage.{nothing};
    ghost use Rattle.window_stage.specs.StageMeaning.{window_meaning};

    /// The stage of windows of this size, to which nothing came.
    pub fn new(alloc: Global, size: u32, reach: u32) -> WindowStage
        requires size { (64 ≤ size) × (size ≤ 1460) }
        requires reach { (1460 ≤ reach) × (reach ≤ 1048576) }
        ensures size { result.size ≡ size }
        ensures reach { result.reach ≡ reach }
        ensures begins { (flow : Flow)
            → window_meaning.stands result flow (record { items = []; ended = None }) nothing }
        ensures works { result.failed ≡ false }
    {
        WindowStage {
            size,
            reach,
            flows: Flows::new(alloc, size, reach),
            failed: false,
        }
    }
}

impl Operator for WindowStage {
    ghost use Rattle.window_stage.specs.StageMeaning.{window_meaning};

    ghost meaning = { window_meaning };

    fn step(&mut self, class: &Class, p: Packet<Raw>, out: &mut Outlet) -> Result<(), NoMemory> {
        if self.failed {
            out.lose(p);
            return Err(NoMemory);
        }
        let Some(fields) = read_fields(p.payload()) else {
            out.pass(class.dir, p);
            return Ok(());
        };
        match self.flows.step(class.flow, class.dir, fields, p, out) {
            Ok(()) => Ok(()),
            Err(NoMemory) => {
                self.failed = true;
                Err(NoMemory)
            }
        }
    }

    fn end(&mut self, class: &Class, records: u32, out: &mut Outlet) -> Result<(), NoMemory> {
        if self.failed {
            return Err(NoMemory);
        }
        let a = u64::from(records) + u64::from(class.flow);
        self.flows.end(class.flow, a, out);
        Ok(())
    }
}

impl Staged for WindowStage {
    ghost use Rattle.window_stage.specs.MeaningLaw.{window_means};

    ghost means = { window_means };
}
