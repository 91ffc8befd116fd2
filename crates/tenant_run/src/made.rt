ghost use Rattle.std.specs.Prelude.{◌≡◌, ℕ, List, [], IfOk};
ghost use Rattle.flow_spec.specs.Answer as flows;
ghost use Rattle.flow_spec.specs.Answer.{ClassedItem};
ghost use Rattle.flow_spec.specs.Plan.{Plan};
ghost use Rattle.chain_types.specs.View.{chain_view};
ghost use Rattle.work_core.specs.Made.{IsMade};

use crate::records::{Counts, take_record};
use crate::tally::with_big;
use crate::turns::{Turns, take_turn};
use batch_ops::Batch;
use brick_base::{NoMemory, Numbers};
use chain_types::Chain;
use flow_key::Classifier;
use pcap_io::Capture;
use std::alloc::Global;
use work_core::{NewWork, Returned, TenantDone, chains_own_keys, join_outputs};

/// A law of each work: it answers what the plan means.
fn answers_mean<W: NewWork>()
    ensures { (p : Plan) (list : List ClassedItem) (n : ℕ) → W.ChainWork.answer p list n ≡ flows.answer p list n }
{}

/// What the chain makes of the capture, where no record is refused. All records are classified, also those that are
/// longer than the chain's buffers; the others pass through one work, in the order of the capture.
pub fn make_tenant<W: NewWork>(
    alloc: Global,
    chain: &Chain,
    capture: &Capture,
) -> Result<TenantDone, NoMemory>
    ensures { IfOk result (IsMade (chain_view chain.now) [] capture.now) }
{
    let mut classifier = Classifier::new(alloc, chain.nat)?;
    let work: W = W::of_chain(alloc, chain)?;
    let mut turns = Turns {
        work,
        batch: Batch::new(),
        ready: Returned::new(),
    };
    let mut counts = Counts {
        accepted: 0,
        big: 0,
    };
    for k in 0..capture.count() {
        take_record(
            alloc,
            chain,
            capture,
            k,
            &mut classifier,
            &mut turns,
            &mut counts,
        )?;
    }
    take_turn(alloc, &mut turns)?;
    chains_own_keys();
    answers_mean::<W>();
    let mut work = turns.work;
    work.end(alloc, capture.count());
    let result = work.take_results(alloc)?;
    Ok(TenantDone {
        accepted: counts.accepted,
        refused: Numbers::of(Vec::new(alloc)),
        outputs: join_outputs(alloc, chain, result.groups)?,
        drops: with_big(result.drops, counts.big)?,
    })
}
