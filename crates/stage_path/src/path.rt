ghost use Rattle.std.specs.Prelude.{◌≡◌, ◌≤◌, None, false, IfOk, IsSomeAnd};

use crate::Direct;
use batch_ops::{Dropped, Operator, Outlet, Staged, Then};
use brick_base::{Class, NoMemory, Raw};
use packet_owner::Packet;
use read_row::{ReadRow, TreatRead};
use std::alloc::Global;

/// A row of stages, and an operator behind it.
#[derive(Debug, Drop)]
pub struct Path<S, B> {
    /// The stages.
    pub before: ReadRow<S>,
    /// What the packets that pass them come to.
    pub behind: B,
    /// Memory ran out.
    pub failed: bool,
}

/// A path of stages with at most one operator `W` among them that adds packets.
pub type StagePath<S, W> = Path<S, Option<Then<W, ReadRow<S>>>>;

impl<S: TreatRead + Drop, W: Operator + Drop> Path<S, Option<Then<W, ReadRow<S>>>> {
    /// The path of a row alone.
    pub fn straight(stages: Vec<S>) -> Path<S, Option<Then<W, ReadRow<S>>>>
        ensures stages { result.before.stages ≡ stages }
        ensures behind { result.behind ≡ None }
        ensures works { result.failed ≡ false }
    {
        Path {
            before: ReadRow::new(stages),
            behind: None,
            failed: false,
        }
    }

    /// The path of a row, an operator that needs at most so many spare buffers, and the stages behind it.
    pub fn bent(
        alloc: Global,
        stages: Vec<S>,
        window: W,
        after: Vec<S>,
        spare_count: u32,
    ) -> Result<Path<S, Option<Then<W, ReadRow<S>>>>, NoMemory>
        requires { W.meaning.spares window ≤ spare_count }
        ensures stages { IfOk result (λ p. p.before.stages ≡ stages) }
        ensures behind { IfOk result (λ p. IsSomeAnd p.behind (λ t. (t.first ≡ window) × (t.second.stages ≡ after))) }
        ensures works { IfOk result (λ p. p.failed ≡ false) }
    {
        let behind = Then::new(alloc, window, ReadRow::new(after), spare_count)?;
        Ok(Path {
            before: ReadRow::new(stages),
            behind: Some(behind),
            failed: false,
        })
    }
}

impl<S: TreatRead, B: Operator> Operator for Path<S, B> {
    ghost use Rattle.stage_path.specs.Path.{path};

    ghost meaning = { path S.kind B.meaning (λ p. p.before.stages.items) (λ p. p.behind) (λ p. p.failed) };

    fn step(&mut self, class: &Class, p: Packet<Raw>, out: &mut Outlet) -> Result<(), NoMemory> {
        if self.failed {
            out.lose(p);
            return Err(NoMemory);
        }
        let outcome = match self.before.treat(class, p) {
            Ok(p) => self.behind.step(class, p, out),
            Err(dropped) => out.settle(class.dir, Err(dropped)),
        };
        self.failed = outcome.is_err();
        outcome
    }

    fn end(&mut self, class: &Class, records: u32, out: &mut Outlet) -> Result<(), NoMemory> {
        if self.failed {
            return Err(NoMemory);
        }
        let outcome = self.behind.end(class, records, out);
        self.failed = outcome.is_err();
        outcome
    }
}

impl<S: TreatRead, W: Staged> Staged for Path<S, Option<Then<W, ReadRow<S>>>> {
    ghost use Rattle.batch_ops.specs.Maybe.{maybe};
    ghost use Rattle.batch_ops.specs.Then.{in_turn};
    ghost use Rattle.batch_ops.specs.Treat.{in_row};
    ghost use Rattle.stage_path.specs.Means.{row_law, then_law, maybe_law, path_law};

    ghost means = { path_law S.kind ⟦<Option<Then<W, ReadRow<S>>> as Operator>⟧.meaning (λ p. p.before.stages.items)
        (λ p. p.behind) (λ p. p.failed)
        (maybe_law ⟦<Then<W, ReadRow<S>> as Operator>⟧.meaning
        (then_law W.meaning ⟦<ReadRow<S> as Operator>⟧.meaning (λ t. t.first) (λ t. t.second) (λ t. t.failed) W.means
        (row_law S.kind (λ r. r.stages.items) (λ r. r.failed)))) };
}

impl<S: TreatRead, W: Staged> Direct for Path<S, Option<Then<W, ReadRow<S>>>> {
    ghost direct = { λ p. p.behind ≡ None };

    fn is_direct(&self) -> bool {
        self.behind.is_none()
    }

    fn treat(&mut self, class: &Class, packet: Packet<Raw>) -> Result<Packet<Raw>, Dropped> {
        if self.failed {
            return Err(Dropped {
                reason: None,
                packet,
            });
        }
        match self.before.treat(class, packet) {
            Ok(packet) => Ok(packet),
            Err(dropped) => {
                self.failed = self.before.failed;
                Err(dropped)
            }
        }
    }
}
