ghost use Rattle.std.specs.Prelude.{ℕ, List};
ghost use Rattle.chain_nodes.specs.Either.{either_stands, either_makes, either_results, either_serves, either_node};
ghost use Rattle.chain_nodes.specs.Either.{either_more};

use crate::{Desk, Node};
use brick_base::{Class, NoMemory, Raw};
use packet_owner::Packet;
use pcap_io::Items;
use std::alloc::Global;

/// A place of one kind or of another.
#[derive(Debug, Drop)]
pub enum Either<A: Node, B: Node> {
    First(A),
    Second(B),
}

impl<A: Node, B: Node> Node for Either<A, B> {
    ghost stands = { either_stands A.stands B.stands };

    ghost makes = { either_makes A.makes B.makes };

    ghost results = { either_results A.results B.results };

    ghost serves = { either_serves A.serves B.serves };

    #[inline(always)]
    fn take(
        &mut self,
        alloc: Global,
        class: &Class,
        packet: Packet<Raw>,
        desk: &mut Desk,
    ) -> Result<(), NoMemory> {
        match self {
            Either::First(place) => place.take(alloc, class, packet, desk),
            Either::Second(place) => place.take(alloc, class, packet, desk),
        }
    }

    fn end(
        &mut self,
        alloc: Global,
        class: &Class,
        records: u32,
        desk: &mut Desk,
    ) -> Result<(), NoMemory> {
        match self {
            Either::First(place) => place.end(alloc, class, records, desk),
            Either::Second(place) => place.end(alloc, class, records, desk),
        }
    }

    fn hand_over(self, alloc: Global, lists: Vec<Items>) -> Result<Vec<Items>, NoMemory> {
        match self {
            Either::First(place) => place.hand_over(alloc, lists),
            Either::Second(place) => place.hand_over(alloc, lists),
        }
    }

    ghost holds = { either_node A.stands A.makes A.results A.holds B.stands B.makes B.results B.holds };

    ghost more = { either_more A.serves A.more B.serves B.more };
}
