use batch_ops::{Dropped, Treat};
use brick_base::{Class, Raw, Reason};
use flow_stages::{BalanceStage, FirewallStage, NatStage, RouteStage};
use map_filter::{OnlyStage, ParsedStage, TosStage, TtlStage};
use packet_owner::Packet;
use read_row::{ReadPacket, ReadRow, TreatRead, treat_packet};
use scan_stage::ScanStage;

/// A stage that is chosen when the program runs, and makes at most one packet of a packet.
#[derive(Debug, Drop)]
pub enum PlainStage {
    /// Drops what has no IPv4 layer.
    Parsed(ParsedStage),
    /// Takes 1 from each time to live.
    Ttl(TtlStage),
    /// Sets each type of service.
    Tos(TosStage),
    /// Drops what does not meet a match.
    Only(OnlyStage),
    /// Drops what rules deny.
    Firewall(FirewallStage),
    /// Forwards by the longest prefix.
    Route(RouteStage),
    /// Translates addresses.
    Nat(NatStage),
    /// Sends each flow to a backend.
    Balance(BalanceStage),
    /// Stops a flow whose streams contain a text.
    Scan(ScanStage),
}

/// Stages in a row: what one passes comes to the next, at once. A packet's headers are read once.
pub type PlainRow = ReadRow<PlainStage>;

impl TreatRead for PlainStage {
    ghost use Rattle.stage_row.specs.Plain.{plain_kind};

    ghost kind = { plain_kind };

    #[inline(always)]
    fn treat_read(&mut self, class: &Class, packet: &mut ReadPacket) -> Result<(), Option<Reason>> {
        match self {
            PlainStage::Parsed(stage) => stage.treat_read(class, packet),
            PlainStage::Ttl(stage) => stage.treat_read(class, packet),
            PlainStage::Tos(stage) => stage.treat_read(class, packet),
            PlainStage::Only(stage) => stage.treat_read(class, packet),
            PlainStage::Firewall(stage) => stage.treat_read(class, packet),
            PlainStage::Route(stage) => stage.treat_read(class, packet),
            PlainStage::Nat(stage) => stage.treat_read(class, packet),
            PlainStage::Balance(stage) => stage.treat_read(class, packet),
            PlainStage::Scan(stage) => stage.treat_read(class, packet),
        }
    }

    fn treat_other(&mut self, class: &Class, packet: &Packet<Raw>) -> Result<(), Option<Reason>> {
        match self {
            PlainStage::Parsed(stage) => stage.treat_other(class, packet),
            PlainStage::Ttl(stage) => stage.treat_other(class, packet),
            PlainStage::Tos(stage) => stage.treat_other(class, packet),
            PlainStage::Only(stage) => stage.treat_other(class, packet),
            PlainStage::Firewall(stage) => stage.treat_other(class, packet),
            PlainStage::Route(stage) => stage.treat_other(class, packet),
            PlainStage::Nat(stage) => stage.treat_other(class, packet),
            PlainStage::Balance(stage) => stage.treat_other(class, packet),
            PlainStage::Scan(stage) => stage.treat_other(class, packet),
        }
    }

    ghost use Rattle.stage_row.specs.PlainRest.{no_rest};

    ghost no_rest = { no_rest };
}

impl Treat for PlainStage {
    ghost use Rattle.stage_row.specs.PlainRest.{no_rest};

    ghost kind = { ⟦<PlainStage as TreatRead>⟧.kind };

    fn treat(&mut self, class: &Class, packet: Packet<Raw>) -> Result<Packet<Raw>, Dropped> {
        treat_packet(self, class, packet)
    }

    ghost no_rest = { no_rest };
}
