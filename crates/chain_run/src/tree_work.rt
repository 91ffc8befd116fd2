ghost use Rattle.std.specs.Prelude.{◌≡◌, [], length, refl};
ghost use Rattle.flow_spec.specs.Plan.{leaf_count, flow_meaning};
ghost use Rattle.chain_nodes.specs.Work.{StandsFor, EndedWith, IsReady};
ghost use Rattle.chain_run.specs.Tree.{root_stands, root_makes, root_results, root_serves};
ghost use Rattle.work_core.specs.AnswerLaws.{plan_answer, plan_lists, plan_rises, plan_keys, plan_counts};

use crate::need::need_of;
use crate::paths::StagesPath;
use crate::places::RootPlace;
use crate::root::build_root;
use batch_ops::Batch;
use brick_base::NoMemory;
use chain_nodes::NodeWork;
use chain_types::Chain;
use packet_owner::Spare;
use std::alloc::Global;
use std::fmt;
use work_core::{ChainWork, NewWork, Returned, WorkResult};

/// A tenant's chain at work, over paths of one kind.
#[derive(Drop)]
pub struct TreeWork<P: StagesPath> {
    work: NodeWork<RootPlace<P>>,
}

/// The name of its type alone: what it keeps has the form of its chain.
impl<P: StagesPath> fmt::Debug for TreeWork<P> {
    fn fmt<W: fmt::Write>(&self, f: &mut fmt::Formatter<W>) -> fmt::Result {
        f.debug_struct("TreeWork").finish_non_exhaustive()
    }
}

impl<P: StagesPath + Send> ChainWork for TreeWork<P> {
    ghost follows = { λ w p. (root_makes P.Operator.meaning w.work.root ≡ flow_meaning p)
        × (length (root_results P.Operator.meaning w.work.root) ≡ leaf_count p) };

    ghost ready = { λ w. IsReady (root_stands P.Operator.meaning) (root_makes P.Operator.meaning)
        (root_results P.Operator.meaning) (root_serves P.Operator.meaning) w.work × (w.work.desk.back ≡ []) };

    ghost stands = { λ w list. StandsFor (root_stands P.Operator.meaning) (root_makes P.Operator.meaning)
        (root_results P.Operator.meaning) (root_serves P.Operator.meaning) w.work list };

    ghost finished = { λ w n list. EndedWith (root_stands P.Operator.meaning) (root_makes P.Operator.meaning)
        (root_results P.Operator.meaning) (root_serves P.Operator.meaning) n w.work list };

    ghost ended = { λ w. w.work.ended };

    ghost broken = { λ w. w.work.failed };

    ghost answer = { plan_answer };

    fn turn(&mut self, alloc: Global, batch: &mut Batch, back: &mut Returned) {
        self.work.turn(alloc, batch, back);
    }

    fn failed(&self) -> bool {
        self.work.failed()
    }

    fn end(&mut self, alloc: Global, records: u32) {
        self.work.end(alloc, records);
    }

    fn take_results(self, alloc: Global) -> Result<WorkResult, NoMemory> {
        self.work.take_results(alloc)
    }

    ghost has_lists = { plan_lists };

    ghost rises = { plan_rises };

    ghost own_keys = { plan_keys };

    ghost capped = { plan_counts };
}

impl<P: StagesPath + Send> NewWork for TreeWork<P> {
    fn of_chain(alloc: Global, chain: &Chain) -> Result<TreeWork<P>, NoMemory> {
        let need = need_of(chain);
        let root = build_root(alloc, chain, need.count, need.bytes)?;
        let spare = Spare::new(alloc, need.count, need.bytes)?;
        let work = NodeWork::new(alloc, root, spare)?;
        Ok(TreeWork { work })
    }

    ghost means = { λ p list n. refl };
}
