ghost use Rattle.std.specs.Prelude.{◌≡◌, ℕ, List, length, Some, None};
ghost use Rattle.flow_work.specs.Node.{fan_makes, fan_results};
ghost use Rattle.chain_nodes.specs.Fan.{PlacesStand, FanServes, fan_node, fan_more};

use crate::pipe::both;
use crate::{Desk, Node};
use brick_base::{Class, NoMemory, Raw, Reason};
use group_merge::Groups;
use packet_owner::Packet;
use pcap_io::Items;
use std::alloc::Global;

/// Groups beside one another: a packet goes to the first that takes it.
#[derive(Debug, Drop)]
pub struct Fan<N: Node> {
    /// Which packets each group takes.
    pub groups: Groups,
    /// The place of each group.
    pub places: Vec<N>,
}

impl<N: Node> Node for Fan<N> {
    ghost stands = { λ t flow came parts. PlacesStand N.stands t.groups t.places.items flow came parts };

    ghost makes = { λ t. fan_makes N.makes t.groups t.places.items };

    ghost results = { λ t. fan_results N.results t.places.items };

    ghost serves = { λ t count bytes free. FanServes N.serves t.groups t.places.items count bytes free };

    #[inline(always)]
    fn take(
        &mut self,
        alloc: Global,
        class: &Class,
        packet: Packet<Raw>,
        desk: &mut Desk,
    ) -> Result<(), NoMemory> {
        let picked = self.groups.pick(packet.frame());
        match picked {
            None => {
                desk.drop_for(Reason::NoGroup, packet);
                Ok(())
            }
            Some(k) => self.places[k as usize].take(alloc, class, packet, desk),
        }
    }

    fn end(
        &mut self,
        alloc: Global,
        class: &Class,
        records: u32,
        desk: &mut Desk,
    ) -> Result<(), NoMemory> {
        let mut outcome = Ok(());
        let many = self.places.len();
        'each: for k in 0..many {
            let ended = self.places[k].end(alloc, class, records, desk);
            outcome = both(outcome, ended);
        }
        outcome
    }

    fn hand_over(self, alloc: Global, lists: Vec<Items>) -> Result<Vec<Items>, NoMemory> {
        let mut lists = lists;
        for place in self.places {
            lists = place.hand_over(alloc, lists)?;
        }
        Ok(lists)
    }

    ghost holds = { fan_node N.stands N.makes N.results (λ t. t.groups) (λ t. t.places.items) N.holds };

    ghost more = { λ t count bytes free all fits was. fan_more N.serves N.more t.groups t.places.items count bytes free
        all fits was };
}
