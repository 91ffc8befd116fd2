ghost use Rattle.std.specs.Prelude.{◌≡◌, ◌≤◌, ℕ, [], List, length, map, None, IfOk};
ghost use Rattle.std.specs.List.{AllByRecursion};
ghost use Rattle.brick_spec.specs.Flow.{Class as ClassMeaning};
ghost use Rattle.brick_spec.specs.GroupOutput.{all_of};
ghost use Rattle.flow_spec.specs.Answer.{answer};
ghost use Rattle.flow_spec.specs.Plan.{Plan, flow_meaning, leaf_count};
ghost use Rattle.flow_work.specs.Buffers.{is_own, work_buffer};
ghost use Rattle.flow_work.specs.Log.{OwnsKeys, AreRecords};
ghost use Rattle.chain_nodes.specs.Work.{IsReady, StandsFor};
ghost use Rattle.work_core.specs.Classed.{classed};
ghost use Rattle.work_core.specs.Result.{result_view};
ghost use Rattle.chain_nodes.specs.Run.{HasTurned, AreLent};

use crate::{Node, NodeWork};
use batch_ops::Batch;
use brick_base::NoMemory;
use std::alloc::Global;
use work_core::{Returned, WorkResult};

/// Takes the turns of these batches.
fn take_turns<N: Node>(alloc: Global, work: NodeWork<N>, batches: Vec<Batch>) -> NodeWork<N>
    requires ready { IsReady N.stands N.makes N.results N.serves work }
    requires none_left { work.desk.back ≡ [] }
    requires lent { AllByRecursion AreLent batches.items }
    ensures { HasTurned N.stands N.makes N.results N.serves work result (all_of batches.items) }
{
    let mut work = work;
    let mut back = Returned::new();
    for batch in batches {
        let mut batch = batch;
        work.turn(alloc, &mut batch, &mut back);
    }
    work
}

/// A chain's work from its beginning to its results: the batches are of records of one capture, of so many. The results
/// are what the chain makes of each flow, joined for each leaf group in the order of keys, and how many it dropped.
pub fn run_tenant<N: Node>(
    alloc: Global,
    work: NodeWork<N>,
    batches: Vec<Batch>,
    records: u32,
) -> Result<WorkResult, NoMemory>
    requires ready { IsReady N.stands N.makes N.results N.serves work }
    requires none_left { work.desk.back ≡ [] }
    requires open_work { work.ended ≡ None }
    requires begins { StandsFor N.stands N.makes N.results N.serves work [] }
    requires lent { AllByRecursion AreLent batches.items }
    ensures { IfOk result (λ r. (plan : Plan) (class_at : ℕ → ClassMeaning) → N.makes work.root ≡ flow_meaning plan
        → length (N.results work.root) ≡ leaf_count plan → OwnsKeys (flow_meaning plan)
        → AreRecords class_at records (map classed (all_of batches.items))
        → result_view r ≡ answer plan (map classed (all_of batches.items)) records) }
{
    let mut work = take_turns(alloc, work, batches);
    work.end(alloc, records);
    work.take_results(alloc)
}
