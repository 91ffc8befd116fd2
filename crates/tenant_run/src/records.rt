ghost use Rattle.std.specs.Prelude.{◌≡◌, ◌<◌, ◌+◌, ◌^◌, ◌++◌, ◌∷◌, [], ℕ, List, Option, length, take, OnOk};
ghost use Rattle.brick_spec.specs.FlowClass.{NatPlan};
ghost use Rattle.flow_spec.specs.Plan.{Plan};
ghost use Rattle.flow_key.specs.Frames.{frames_of};
ghost use Rattle.flow_key.specs.Maps.{after_frames};
ghost use Rattle.chain_types.specs.View.{chain_view};
ghost use Rattle.tenant_run.specs.Turns.{Carries, Waits};
ghost use Rattle.tenant_run.specs.Made.{AreCounted, accepted_upto};

use crate::turns::{Turns, let_wait, take_packet};
use brick_base::NoMemory;
use chain_types::Chain;
use flow_key::Classifier;
use pcap_io::Capture;
use std::alloc::Global;
use work_core::ChainWork;

/// How many records were accepted, and how many were Big.
#[derive(Clone, Copy, Debug, PartialEq, Eq)]
pub struct Counts {
    pub accepted: u32,
    pub big: u32,
}

/// Tells the classifier of a record that is longer than the chain's buffers. There are few of them: this stays out of the
/// loop.
#[cold]
#[inline(never)]
fn note_big(classifier: &mut Classifier, frame: &[u8]) -> Result<(), NoMemory>
    requires { classifier.old.known.records < 2 ^ 32 }
    ensures { (plan : Option NatPlan) (frames : List (List ℕ)) → classifier.old ≡ after_frames plan frames
        → OnOk result (classifier.new ≡ after_frames plan (frames ++ frame.now ∷ [])) }
{
    let _class = classifier.classify(frame)?;
    Ok(())
}

/// Takes the record of a number, with those before it taken: its class is told, and it is counted as Big, or its packet
/// waits.
pub fn take_record<W: ChainWork>(
    alloc: Global,
    chain: &Chain,
    capture: &Capture,
    k: u32,
    classifier: &mut Classifier,
    turns: &mut Turns<W>,
    counts: &mut Counts,
) -> Result<(), NoMemory>
    requires there { k < length capture.now.entries }
    requires below { k + 1 < 2 ^ 32 }
    requires known { classifier.old ≡ after_frames (chain_view chain.now).nat (take k (frames_of capture.now)) }
    requires carries { Carries W.ready W.ended W.broken chain.now.bytes turns.old }
    requires counted { AreCounted (chain_view chain.now) capture.now k counts.old }
    ensures known { OnOk result (classifier.new
        ≡ after_frames (chain_view chain.now).nat (take (k + 1) (frames_of capture.now))) }
    ensures carries { OnOk result (Carries W.ready W.ended W.broken chain.now.bytes turns.new) }
    ensures waits { OnOk result (Waits W.stands (accepted_upto (chain_view chain.now) capture.now k) turns.old
        → Waits W.stands (accepted_upto (chain_view chain.now) capture.now (k + 1)) turns.new) }
    ensures counted { OnOk result (AreCounted (chain_view chain.now) capture.now (k + 1) counts.new) }
    ensures same { (p : Plan) → W.follows turns.old.work p → W.follows turns.new.work p }
{
    let entry = capture.entry(k);
    if entry.frame.len() > chain.bytes as usize {
        note_big(classifier, entry.frame)?;
        counts.big += 1;
        return Ok(());
    }
    let packet = take_packet(alloc, turns, chain.bytes, k, entry)?;
    let class = classifier.classify(entry.frame)?;
    counts.accepted += 1;
    let_wait(turns, class, packet);
    Ok(())
}
