//! The places of a chain that stand for many: a group, and the whole chain. Each is one type, so that what speaks of it
//! need not speak of all that is in it.

ghost use Rattle.chain_run.specs.Tree.{group_stands, group_makes, group_results, group_serves};
ghost use Rattle.chain_run.specs.Tree.{root_stands, root_makes, root_results, root_serves};
ghost use Rattle.chain_run.specs.TreeLaws.{group_node, group_more, root_node, root_more};

use crate::paths::StagesPath;
use brick_base::{Class, NoMemory, Raw};
use chain_nodes::{Desk, Either, Fan, LeafList, Node, Pipe};
use packet_owner::Packet;
use pcap_io::Items;
use std::alloc::Global;
use std::fmt;

/// A group: where it has no stages, what stands behind them.
#[derive(Drop)]
pub struct GroupPlace<P: StagesPath> {
    pub place: Either<
        Either<LeafList, Fan<Pipe<P, LeafList>>>,
        Pipe<P, Either<LeafList, Fan<Pipe<P, LeafList>>>>,
    >,
}

/// The name of its type alone: what it keeps has the form of its chain.
impl<P: StagesPath> fmt::Debug for GroupPlace<P> {
    fn fmt<W: fmt::Write>(&self, f: &mut fmt::Formatter<W>) -> fmt::Result {
        f.debug_struct("GroupPlace").finish_non_exhaustive()
    }
}

impl<P: StagesPath> Node for GroupPlace<P> {
    ghost stands = { group_stands P.Operator.meaning };

    ghost makes = { group_makes P.Operator.meaning };

    ghost results = { group_results P.Operator.meaning };

    ghost serves = { group_serves P.Operator.meaning };

    #[inline(always)]
    fn take(
        &mut self,
        alloc: Global,
        class: &Class,
        packet: Packet<Raw>,
        desk: &mut Desk,
    ) -> Result<(), NoMemory> {
        self.place.take(alloc, class, packet, desk)
    }

    fn end(
        &mut self,
        alloc: Global,
        class: &Class,
        records: u32,
        desk: &mut Desk,
    ) -> Result<(), NoMemory> {
        self.place.end(alloc, class, records, desk)
    }

    fn hand_over(self, alloc: Global, lists: Vec<Items>) -> Result<Vec<Items>, NoMemory> {
        self.place.hand_over(alloc, lists)
    }

    ghost holds = { group_node P.Operator.meaning P.Staged.means };

    ghost more = { group_more P.Operator.meaning };
}

/// A chain: its first stages, and its groups behind them.
#[derive(Drop)]
pub struct RootPlace<P: StagesPath> {
    pub place: Pipe<P, Fan<GroupPlace<P>>>,
}

/// The name of its type alone: what it keeps has the form of its chain.
impl<P: StagesPath> fmt::Debug for RootPlace<P> {
    fn fmt<W: fmt::Write>(&self, f: &mut fmt::Formatter<W>) -> fmt::Result {
        f.debug_struct("RootPlace").finish_non_exhaustive()
    }
}

impl<P: StagesPath> Node for RootPlace<P> {
    ghost stands = { root_stands P.Operator.meaning };

    ghost makes = { root_makes P.Operator.meaning };

    ghost results = { root_results P.Operator.meaning };

    ghost serves = { root_serves P.Operator.meaning };

    #[inline(always)]
    fn take(
        &mut self,
        alloc: Global,
        class: &Class,
        packet: Packet<Raw>,
        desk: &mut Desk,
    ) -> Result<(), NoMemory> {
        self.place.take(alloc, class, packet, desk)
    }

    fn end(
        &mut self,
        alloc: Global,
        class: &Class,
        records: u32,
        desk: &mut Desk,
    ) -> Result<(), NoMemory> {
        self.place.end(alloc, class, records, desk)
    }

    fn hand_over(self, alloc: Global, lists: Vec<Items>) -> Result<Vec<Items>, NoMemory> {
        self.place.hand_over(alloc, lists)
    }

    ghost holds = { root_node P.Operator.meaning P.Staged.means };

    ghost more = { root_more P.Operator.meaning };
}
