//! The balance of flows over backends.

ghost use Rattle.std.specs.Prelude.{◌≡◌, ◌≤◌, map, length, refl, IfOk};
ghost use Rattle.std.specs.List.{AllByRecursion};
ghost use Rattle.brick_spec.specs.Flow.{Flow};
ghost use Rattle.flow_spec.specs.Balancing.{balance_stage};
ghost use Rattle.batch_ops.specs.Treat.{as_operator, keeps_nothing};
ghost use Rattle.chain_types.specs.StageView.{backends_view, change_view};
ghost use Rattle.flow_stages.specs.EpochMacs.{HasMacs, flow_mac, balance_by};
ghost use Rattle.flow_stages.specs.Rows.{AreFew, change_few};

use crate::addresses::send_to;
use crate::backends::{addresses_of, epochs_of};
use batch_ops::{Dropped, Operator, Outlet, Treat};
use brick_base::{Class, NoMemory, Raw, Reason};
use chain_types::{Backend, Change};
use lb_maglev::Epochs;
use packet_owner::Packet;
use read_row::{ReadPacket, TreatRead, treat_packet};
use std::alloc::Global;

/// Sends each flow to the backend that the balance table of its epoch has for the hash of its key: the epoch in which
/// it was opened.
#[derive(Debug, Drop)]
pub struct BalanceStage {
    /// Which backend a flow goes to.
    pub epochs: Epochs,
    /// The backends' Ethernet addresses, epoch by epoch, by their numbers in the table.
    pub macs: Vec<Vec<[u8; 6]>>,
    // each backend has one
    pub ghost each: { HasMacs epochs macs.items },
}

impl BalanceStage {
    /// The stage of 1 to 64 backends with distinct names, and of at most 15 changes of them, each to as many.
    pub fn new(
        alloc: Global,
        backends: &[Backend],
        changes: &[Change],
    ) -> Result<BalanceStage, NoMemory>
        requires first { AreFew backends.now }
        requires later { AllByRecursion change_few changes.now }
        requires few { length changes.now ≤ 15 }
        ensures { IfOk result (λ s. (flow : Flow)
            → balance_by s.epochs s.macs.items flow
            ≡ balance_stage (backends_view backends.now) (map change_view changes.now) flow) }
    {
        let rows = epochs_of(alloc, backends, changes)?;
        let macs = addresses_of(alloc, backends, changes)?;
        let epochs = Epochs::build(alloc, rows)?;
        Ok(BalanceStage { epochs, macs })
    }

    /// The Ethernet address of the backend of a flow, by the number of its first record and by its hash.
    fn mac_for(&self, opened: u32, hash: u64) -> [u8; 6]
        ensures { result ≡ flow_mac self.now.epochs self.now.macs.items opened hash }
    {
        let (epoch, backend) = self.epochs.backend(opened, hash);
        self.macs[epoch as usize][backend as usize]
    }
}

impl TreatRead for BalanceStage {
    ghost kind = { keeps_nothing (λ s flow. balance_by s.epochs s.macs.items flow) };

    fn treat_read(&mut self, class: &Class, packet: &mut ReadPacket) -> Result<(), Option<Reason>> {
        send_to(&mut packet.packet, self.mac_for(class.opened, class.hash));
        Ok(())
    }

    fn treat_other(&mut self, _class: &Class, _packet: &Packet<Raw>) -> Result<(), Option<Reason>> {
        Ok(())
    }

    ghost no_rest = { λ _ _ _ _. refl };
}

impl Treat for BalanceStage {
    ghost kind = { ⟦<BalanceStage as TreatRead>⟧.kind };

    fn treat(&mut self, class: &Class, packet: Packet<Raw>) -> Result<Packet<Raw>, Dropped> {
        treat_packet(self, class, packet)
    }

    ghost no_rest = { λ _ _ _ _. refl };
}

impl Operator for BalanceStage {
    ghost meaning = { as_operator ⟦<BalanceStage as Treat>⟧.kind };

    fn step(&mut self, class: &Class, p: Packet<Raw>, out: &mut Outlet) -> Result<(), NoMemory> {
        let treated = self.treat(class, p);
        out.settle(class.dir, treated)
    }

    fn end(&mut self, _class: &Class, _records: u32, _out: &mut Outlet) -> Result<(), NoMemory> {
        Ok(())
    }
}
