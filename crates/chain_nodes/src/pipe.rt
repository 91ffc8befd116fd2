ghost use Rattle.std.specs.Prelude.{◌≡◌, ◌<◌, IfOk, ℕ, List, [], ◌++◌, map, flat_map, length, None, vec_capacity};
ghost use Rattle.brick_base.specs.Flow.{flow_of};
ghost use Rattle.batch_ops.specs.Outlet.{IsEmptied, buffer_of, passed_item, drops_of};
ghost use Rattle.chain_nodes.specs.Desk.{passed_buffer, dropped_buffer};
ghost use Rattle.batch_ops.proofs.Calls.{joined};
ghost use Rattle.flow_work.specs.Node.{PipeStands, pipe_makes};
ghost use Rattle.flow_work.specs.Buffers.{AreOut, Recycled};
ghost use Rattle.flow_work.specs.Log.{CountsMore};
ghost use Rattle.flow_work.proofs.Nodes.{piped_node};
ghost use Rattle.chain_nodes.specs.Node.{Took, PipeServes};
ghost use Rattle.chain_nodes.specs.NodeLaws.{pipe_more};

use crate::{Desk, Node};
use batch_ops::Passed;
use brick_base::{Class, NoMemory, Raw};
use packet_owner::Packet;
use pcap_io::Items;
use stage_path::Direct;
use std::alloc::Global;
use std::mem::swap;

/// The outcome of two calls.
pub(crate) fn both(
    first: Result<(), NoMemory>,
    second: Result<(), NoMemory>,
) -> Result<(), NoMemory>
    ensures { result ≡ joined first second }
{
    match second {
        Ok(()) => first,
        Err(fault) => Err(fault),
    }
}

/// Hands packets that wait to a place, in order, where some wait.
#[inline(never)]
fn pass_each<N: Node>(
    alloc: Global,
    class: &Class,
    waiting: &mut Vec<Passed>,
    next: &mut N,
    desk: &mut Desk,
) -> Result<(), NoMemory>
    requires serves { N.serves next.old desk.old.out.spare.count desk.old.out.spare.bytes
        (length desk.old.out.spare.free) }
    requires rest { IsEmptied desk.old.out }
    requires out { AreOut (map passed_buffer waiting.old.items) desk.old.back desk.old.out.spare }
    ensures took { Took N.stands N.makes N.results N.serves next.old next.new (flow_of class.now)
        (map passed_buffer waiting.old.items) (map passed_item waiting.old.items) None desk.old desk.new result }
    ensures none { waiting.new.items ≡ [] }
    ensures room { vec_capacity waiting.new ≡ vec_capacity waiting.old }
{
    waiting.reverse();
    let mut outcome = Ok(());
    'each: while let Some(Passed { dir, packet }) = waiting.pop() {
        let class = Class { dir, ..*class };
        let taken = next.take(alloc, &class, packet, desk);
        outcome = both(outcome, taken);
    }
    outcome
}

/// Hands packets that wait to a place, in order. A stage that keeps packets lets none wait most of the time.
#[inline]
fn pass_on<N: Node>(
    alloc: Global,
    class: &Class,
    waiting: &mut Vec<Passed>,
    next: &mut N,
    desk: &mut Desk,
) -> Result<(), NoMemory>
    requires serves { N.serves next.old desk.old.out.spare.count desk.old.out.spare.bytes
        (length desk.old.out.spare.free) }
    requires rest { IsEmptied desk.old.out }
    requires out { AreOut (map passed_buffer waiting.old.items) desk.old.back desk.old.out.spare }
    ensures took { Took N.stands N.makes N.results N.serves next.old next.new (flow_of class.now)
        (map passed_buffer waiting.old.items) (map passed_item waiting.old.items) None desk.old desk.new result }
    ensures none { waiting.new.items ≡ [] }
    ensures room { vec_capacity waiting.new ≡ vec_capacity waiting.old }
{
    if waiting.is_empty() {
        return Ok(());
    }
    pass_each(alloc, class, waiting, next, desk)
}

/// A row of stages, and a place behind it.
#[derive(Debug, Drop)]
pub struct Pipe<P: Direct + Drop, N: Node> {
    pub path: P,
    pub next: N,
    // the packets on their way from the one to the other: none between calls
    pub waiting: Vec<Passed>,
}

impl<P: Direct + Drop, N: Node> Pipe<P, N> {
    /// The row and the place, beside a store of so many spare buffers.
    pub fn new(alloc: Global, path: P, next: N, count: u32) -> Result<Pipe<P, N>, NoMemory>
        ensures path { IfOk result (λ t. t.path ≡ path) }
        ensures next { IfOk result (λ t. t.next ≡ next) }
        ensures none_waits { IfOk result (λ t. t.waiting.items ≡ []) }
        ensures has_room { IfOk result (λ t. count < vec_capacity t.waiting) }
    {
        Ok(Pipe {
            path,
            next,
            waiting: Vec::with_capacity(alloc, count as usize + 1)?,
        })
    }
}

impl<P: Direct + Drop, N: Node> Node for Pipe<P, N> {
    ghost stands = { λ t flow came parts. PipeStands P.meaning.stands N.stands t.path t.next flow came parts };

    ghost makes = { λ t. pipe_makes P.meaning.row N.makes t.path t.next };

    ghost results = { λ t. N.results t.next };

    ghost serves = { λ t count bytes free. PipeServes P.meaning.ready P.meaning.spares P.meaning.least_room N.serves
        t.path t.next t.waiting.items (vec_capacity t.waiting) count bytes free };

    fn take(
        &mut self,
        alloc: Global,
        class: &Class,
        packet: Packet<Raw>,
        desk: &mut Desk,
    ) -> Result<(), NoMemory> {
        if self.path.is_direct() {
            return match self.path.treat(class, packet) {
                Ok(packet) => self.next.take(alloc, class, packet, desk),
                Err(dropped) => desk.take_dropped(dropped),
            };
        }
        let stepped = self.path.step(class, packet, &mut desk.out);
        desk.settle();
        swap(&mut self.waiting, &mut desk.out.passed);
        let passed = pass_on(alloc, class, &mut self.waiting, &mut self.next, desk);
        both(stepped, passed)
    }

    fn end(
        &mut self,
        alloc: Global,
        class: &Class,
        records: u32,
        desk: &mut Desk,
    ) -> Result<(), NoMemory> {
        let finished = self.path.end(class, records, &mut desk.out);
        desk.settle();
        swap(&mut self.waiting, &mut desk.out.passed);
        let passed = pass_on(alloc, class, &mut self.waiting, &mut self.next, desk);
        let ended = self.next.end(alloc, class, records, desk);
        both(finished, both(passed, ended))
    }

    fn hand_over(self, alloc: Global, lists: Vec<Items>) -> Result<Vec<Items>, NoMemory> {
        let Pipe {
            path: _path,
            next,
            waiting: _waiting,
        } = self;
        next.hand_over(alloc, lists)
    }

    ghost holds = { piped_node P.meaning.stands P.meaning.row N.stands N.makes N.results (λ t. t.path)
        (λ t. t.next) P.means N.holds };

    ghost more = { λ t count bytes free all fits was. pipe_more P.meaning.ready P.meaning.spares P.meaning.least_room
        N.serves N.more t.path t.next t.waiting.items (vec_capacity t.waiting) count bytes free all fits was };
}
