ghost use Rattle.std.specs.Prelude.{◌≡◌, ℕ, [], List, None, false, IfOk};
ghost use Rattle.flow_spec.specs.Answer as flows;
ghost use Rattle.flow_spec.specs.Answer.{ClassedItem};
ghost use Rattle.flow_spec.specs.Plan.{Plan};
ghost use Rattle.chain_types.specs.View.{chain_view};
ghost use Rattle.tenant_spec.specs.ChainPlan.{plan_of};

use crate::ChainWork;
use brick_base::NoMemory;
use chain_types::Chain;
use std::alloc::Global;

/// What handles packets as a chain means it.
pub trait NewWork: ChainWork {
    /// The work of a chain, to which nothing came.
    fn of_chain(alloc: Global, chain: &Chain) -> Result<Self, NoMemory>
        ensures follows { IfOk result (λ w. Self.ChainWork.follows w (plan_of (chain_view chain.now))) }
        ensures ready { IfOk result (λ w. Self.ChainWork.ready w) }
        ensures begins { IfOk result (λ w. Self.ChainWork.stands w []) }
        ensures open_work { IfOk result (λ w. Self.ChainWork.ended w ≡ None) }
        ensures works { IfOk result (λ w. Self.ChainWork.broken w ≡ false) };

    /// A law: its answers are those that the plan means.
    ghost means: { (p : Plan) (list : List ClassedItem) (n : ℕ)
        → Self.ChainWork.answer p list n ≡ flows.answer p list n };
}
