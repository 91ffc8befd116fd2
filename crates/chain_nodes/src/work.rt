ghost use Rattle.std.specs.Prelude.{◌≡◌, ◌≤◌, ℕ, [], ◌∷◌, ◌++◌, map, length, true, false, Some, None, IfOk, IsErr};
ghost use Rattle.std.specs.List.{AllByRecursion};
ghost use Rattle.brick_base.specs.Flow.{flow_of};
ghost use Rattle.batch_ops.specs.Outlet.{buffer_of};
ghost use Rattle.flow_work.specs.Buffers.{AreOut, is_own, work_buffer};
ghost use Rattle.chain_nodes.specs.Work.{IsNewNode, StandsFor, IsReady, Handled, Turned, FlowEnded, Ended};
ghost use Rattle.chain_nodes.specs.Answers.{Answers};

use crate::flows::Flows;
use crate::pipe::both;
use crate::{Desk, Node};
use batch_ops::{Batch, Outlet, Work};
use brick_base::{Class, NoMemory};
use packet_owner::Spare;
use std::alloc::Global;
use work_core::{Returned, WorkResult};

/// A tenant's chain at work, with all that came of its flows.
#[derive(Debug, Drop)]
pub struct NodeWork<N: Node> {
    /// The chain: its first stages, and all that is behind them.
    pub root: N,
    /// Where packets come to rest.
    pub desk: Desk,
    /// The flows of which packets came.
    pub flows: Flows,
    /// How many records the capture has, once all flows ended.
    pub ended: Option<u32>,
    /// It ran out of memory.
    pub failed: bool,
}

impl<N: Node> NodeWork<N> {
    /// A work to which nothing came.
    pub fn new(alloc: Global, root: N, spare: Spare) -> Result<NodeWork<N>, NoMemory>
        requires serves { N.serves root spare.count spare.bytes (length spare.free) }
        requires new { IsNewNode N.stands N.results root }
        ensures ready { IfOk result (IsReady N.stands N.makes N.results N.serves) }
        ensures none_left { IfOk result (λ w. w.desk.back ≡ []) }
        ensures begins { IfOk result (λ w. StandsFor N.stands N.makes N.results N.serves w []) }
        ensures fresh { IfOk result (λ w. (w.ended ≡ None) × (w.failed ≡ false) × (w.root ≡ root)) }
    {
        let _count = spare.count();
        Ok(NodeWork {
            root,
            desk: Desk {
                out: Outlet::new(alloc, spare)?,
                counts: [0; 9],
                back: Returned::new(),
            },
            flows: Flows {
                seen: Vec::new(alloc),
                list: Vec::new(alloc),
            },
            ended: None,
            failed: false,
        })
    }

    /// Handles a packet. The buffer waits to go back.
    fn handle(&mut self, alloc: Global, work: Work)
        requires ready { IsReady N.stands N.makes N.results N.serves self.old }
        requires out { AreOut (work_buffer work ∷ []) self.old.desk.back self.old.desk.out.spare }
        ensures { Handled N.stands N.makes N.results N.serves self.old self.new (work ∷ []) }
    {
        let packet = work.packet;
        if self.failed {
            self.desk.put_back(packet);
            return;
        }
        let noted = self.flows.note(&work.class);
        let taken = self.root.take(alloc, &work.class, packet, &mut self.desk);
        if both(noted, taken).is_err() {
            self.failed = true;
        }
    }

    /// Takes the packets of a batch through the chain, and gives their buffers back in place of those that stood there.
    /// A work that ran out of memory has failed, and from then on gives all buffers back unread.
    pub fn turn(&mut self, alloc: Global, batch: &mut Batch, back: &mut Returned)
        requires ready { IsReady N.stands N.makes N.results N.serves self.old }
        requires none_left { self.old.desk.back ≡ [] }
        requires own { AllByRecursion (λ w. is_own (work_buffer w) ≡ true) batch.old }
        ensures turned { Turned N.stands N.makes N.results N.serves self.old self.new batch.old back.new }
        ensures empty { batch.new ≡ [] }
    {
        let _packets = batch.len();
        'each: while let Some(work) = batch.pop_front() {
            self.handle(alloc, work);
        }
        back.take_over(&mut self.desk.back);
    }

    /// Whether it ran out of memory.
    pub fn failed(&self) -> bool
        ensures { result ≡ self.now.failed }
    {
        self.failed
    }

    /// Ends a flow.
    fn end_flow(&mut self, alloc: Global, class: Class, records: u32)
        requires ready { IsReady N.stands N.makes N.results N.serves self.old }
        requires out { AreOut [] self.old.desk.back self.old.desk.out.spare }
        ensures { FlowEnded N.stands N.makes N.results N.serves self.old self.new (flow_of class) records }
    {
        if self.failed {
            return;
        }
        let ended = self.root.end(alloc, &class, records, &mut self.desk);
        self.failed = ended.is_err();
    }

    /// Ends all flows, in a capture of so many records.
    pub fn end(&mut self, alloc: Global, records: u32)
        requires ready { IsReady N.stands N.makes N.results N.serves self.old }
        requires none_left { self.old.desk.back ≡ [] }
        requires open_work { self.old.ended ≡ None }
        ensures { Ended N.stands N.makes N.results N.serves self.old self.new records }
    {
        let many = self.flows.list.len();
        'each: for k in 0..many {
            let class = self.flows.list[k];
            self.end_flow(alloc, class, records);
        }
        self.ended = Some(records);
    }

    /// The items of each leaf group in the order of their keys, and the counts.
    pub fn take_results(self, alloc: Global) -> Result<WorkResult, NoMemory>
        ensures answer { IfOk result (λ r. Answers N.stands N.makes N.results N.serves self r) }
        ensures failed { self.failed ≡ true → IsErr result }
    {
        if self.failed {
            return Err(NoMemory);
        }
        let drops = nine(&self.desk.counts);
        let groups = self.root.hand_over(alloc, Vec::new(alloc))?;
        Ok(WorkResult { groups, drops })
    }
}

/// Nine counts.
fn nine(counts: &[u32; 9]) -> [u32; 9]
    ensures same { result ≡ counts.now }
    ensures long { length result ≡ 9 }
{
    *counts
}
