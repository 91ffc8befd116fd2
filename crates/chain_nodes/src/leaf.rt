ghost use Rattle.std.specs.Prelude.{◌≡◌, ℕ, List, [], ◌∷◌, map};
ghost use Rattle.std.proofs.Common.{rules};
ghost use Rattle.flow_spec.specs.Parts.{whole};
ghost use Rattle.flow_work.specs.Node.{ListStands};
ghost use Rattle.flow_work.proofs.Nodes.{list_node};
ghost use Rattle.pcap_io.specs.View.{item_view};

use crate::{Desk, Node};
use brick_base::{Class, NoMemory, Raw};
use packet_owner::Packet;
use pcap_io::{Items, ItemsBuilder};
use std::alloc::Global;
use work_core::sort_items;

/// The items of a leaf group, in the order in which they came. Their frames share one piece of memory.
#[derive(Debug, Drop)]
pub struct LeafList {
    pub items: ItemsBuilder,
}

impl LeafList {
    /// A list without items.
    pub fn new(alloc: Global) -> LeafList
        ensures { result.items.items ≡ [] }
    {
        LeafList {
            items: ItemsBuilder::new(alloc),
        }
    }
}

impl Node for LeafList {
    ghost stands = { λ l flow came parts. ListStands came parts };

    ghost makes = { λ l flow came. whole came };

    ghost results = { λ l. map item_view l.items.items ∷ [] };

    ghost serves = { λ l count bytes free. Unit {0} };

    #[inline(always)]
    fn take(
        &mut self,
        _alloc: Global,
        _class: &Class,
        packet: Packet<Raw>,
        desk: &mut Desk,
    ) -> Result<(), NoMemory> {
        let pushed = self.items.push(packet.lend());
        desk.put_back(packet);
        pushed
    }

    fn end(
        &mut self,
        _alloc: Global,
        _class: &Class,
        _records: u32,
        _desk: &mut Desk,
    ) -> Result<(), NoMemory> {
        Ok(())
    }

    fn hand_over(self, alloc: Global, lists: Vec<Items>) -> Result<Vec<Items>, NoMemory> {
        let LeafList { items } = self;
        let mut items = items.into_items(alloc)?;
        sort_items(&mut items)?;
        let mut lists = lists;
        lists.push(Items::of(items))?;
        Ok(lists)
    }

    ghost holds = { list_node (λ l. map item_view l.items.items) };

    ghost more = { λ n count bytes free all fits was. was };
}
