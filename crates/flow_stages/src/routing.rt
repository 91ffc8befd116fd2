//! Routing by the longest prefix.

ghost use Rattle.std.specs.Prelude.{map, refl};
ghost use Rattle.std.specs.Arc.{arc_value};
ghost use Rattle.flow_spec.specs.Addressed.{item_stage};
ghost use Rattle.flow_spec.specs.Routing.{route_stage};
ghost use Rattle.batch_ops.specs.Treat.{as_operator, keeps_nothing};
ghost use Rattle.lpm_fw.specs.RouteView.{route_view};

use crate::addresses::{send_from, send_to};
use batch_ops::{Dropped, Operator, Outlet, Treat};
use brick_base::{Class, NoMemory, Raw, Reason};
use lpm_fw::Routes;
use map_filter::lower_ttl;
use packet_owner::Packet;
use read_row::{ReadPacket, TreatRead, treat_packet};
use std::sync::Arc;

/// Forwards each packet to the next hop of the longest prefix that contains its destination.
#[derive(Debug, Drop)]
pub struct RouteStage {
    /// The rows, which stages share.
    pub routes: Arc<Routes>,
    /// The stage's own Ethernet address.
    pub mac: [u8; 6],
}

impl TreatRead for RouteStage {
    ghost kind = { keeps_nothing (λ s _. item_stage (route_stage s.mac (map route_view (arc_value s.routes)))) };

    fn treat_read(
        &mut self,
        _class: &Class,
        packet: &mut ReadPacket,
    ) -> Result<(), Option<Reason>> {
        let tuple = packet.five_tuple();
        let Some(row) = self.routes.find(tuple.dst) else {
            return Err(Some(Reason::NoRoute));
        };
        let via = self.routes.via(row);
        if lower_ttl(&mut packet.packet) {
            send_from(&mut packet.packet, self.mac);
            send_to(&mut packet.packet, via);
            return Ok(());
        }
        Err(Some(Reason::Ttl))
    }

    fn treat_other(&mut self, _class: &Class, _packet: &Packet<Raw>) -> Result<(), Option<Reason>> {
        Ok(())
    }

    ghost no_rest = { λ _ _ _ _. refl };
}

impl Treat for RouteStage {
    ghost kind = { ⟦<RouteStage as TreatRead>⟧.kind };

    fn treat(&mut self, class: &Class, packet: Packet<Raw>) -> Result<Packet<Raw>, Dropped> {
        treat_packet(self, class, packet)
    }

    ghost no_rest = { λ _ _ _ _. refl };
}

impl Operator for RouteStage {
    ghost meaning = { as_operator ⟦<RouteStage as Treat>⟧.kind };

    fn step(&mut self, class: &Class, p: Packet<Raw>, out: &mut Outlet) -> Result<(), NoMemory> {
        let treated = self.treat(class, p);
        out.settle(class.dir, treated)
    }

    fn end(&mut self, _class: &Class, _records: u32, _out: &mut Outlet) -> Result<(), NoMemory> {
        Ok(())
    }
}
