ghost use Rattle.std.specs.Prelude.{◌≡◌, ℕ, List, [], Option, None, Bool, true, IfOk, IsErr};
ghost use Rattle.std.specs.List.{AllByRecursion};
ghost use Rattle.flow_spec.specs.Answer.{ClassedItem, Answer};
ghost use Rattle.flow_spec.specs.Plan.{Plan};
ghost use Rattle.flow_work.specs.Buffers.{is_own, work_buffer};
ghost use Rattle.work_core.specs.ChainWork.{TookTurn, TookEnd, GivesAnswer, HasLists, HasRisingLists, HasOwnKeys};
ghost use Rattle.work_core.specs.ChainWork.{HasCappedCounts};

use crate::{Returned, WorkResult};
use batch_ops::Batch;
use brick_base::NoMemory;
use std::alloc::Global;

/// What handles the packets of a tenant at one worker, turn after turn.
///
/// A value stands for the list of packets that came, with their classes, until it runs out of memory: then it has
/// failed, and gives all buffers back unread.
pub trait ChainWork: Drop + Send {
    /// It follows this plan, which no call changes.
    ghost follows: { Self → Plan → Type 0 };

    /// It may be used.
    ghost ready: { Self → Type 0 };

    /// It stands for these items with their classes.
    ghost stands: { Self → List ClassedItem → Type 0 };

    /// It stands for these items, and for the end of all flows, in a capture of so many records.
    ghost finished: { Self → ℕ → List ClassedItem → Type 0 };

    /// How many records the capture has, once the flows ended.
    ghost ended: { Self → Option ℕ };

    /// It ran out of memory.
    ghost broken: { Self → Bool };

    /// What a plan gives for these items, in a capture of so many records.
    ghost answer: { Plan → List ClassedItem → ℕ → Answer };

    /// Takes the packets of a batch, which is empty then, and gives their buffers back in place of those that stood
    /// there. Their slots are those of a lane, below 1,024.
    fn turn(&mut self, alloc: Global, batch: &mut Batch, back: &mut Returned)
        requires ready { ready self.old }
        requires open_work { ended self.old ≡ None }
        requires own { AllByRecursion (λ w. is_own (work_buffer w) ≡ true) batch.old }
        ensures took { TookTurn follows ready stands ended broken self.old self.new batch.old back.new }
        ensures empty { batch.new ≡ [] };

    /// Whether it ran out of memory.
    fn failed(&self) -> bool
        ensures { result ≡ broken self.now };

    /// Ends all flows, in a capture of so many records.
    fn end(&mut self, alloc: Global, records: u32)
        requires ready { ready self.old }
        requires open_work { ended self.old ≡ None }
        ensures { TookEnd follows stands finished ended broken self.old self.new records };

    /// The items of each leaf group in the order of their keys, and the counts. It answers NoMemory also where it has
    /// failed.
    fn take_results(self, alloc: Global) -> Result<WorkResult, NoMemory>
        ensures answer { IfOk result (λ r. GivesAnswer follows answer finished self r) }
        ensures failed { broken self ≡ true → IsErr result };

    /// A law: there are as many lists as leaf groups.
    ghost has_lists: { HasLists answer };

    /// A law: each list rises by key.
    ghost rises: { HasRisingLists answer };

    /// A law: lists of one capture without a common flow have no common key in a leaf group.
    ghost own_keys: { HasOwnKeys answer };

    /// A law: there are nine counts, each up to 4,294,967,295.
    ghost capped: { HasCappedCounts answer };
}
