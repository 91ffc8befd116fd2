ghost use Rattle.std.specs.Prelude.{◌≡◌, None};
ghost use Rattle.brick_spec.specs.Layer.{ip4_layer};
ghost use Rattle.batch_ops.specs.Treat.{Kind, Treats, NoRest};
ghost use Rattle.read_row.specs.Read.{IsRead, treated};

use crate::packet::ReadPacket;
use batch_ops::Dropped;
use brick_base::{Class, Raw, Reason};
use packet_owner::Packet;

/// A stage that edits a packet where it lies, makes at most one packet of it, and nothing of the end of a flow.
pub trait TreatRead {
    ghost kind: { Kind Self };

    /// Treats a packet whose Ethernet and IPv4 headers were read. It goes on, or is to be dropped: with no reason where
    /// memory ran out. Then the stage has failed, and each packet is lost from then on.
    fn treat_read(&mut self, class: &Class, packet: &mut ReadPacket) -> Result<(), Option<Reason>>
        requires { IsRead packet.old.packet }
        ensures read { IsRead packet.new.packet }
        ensures treats { Treats kind self.old self.new class.now packet.old.packet (treated result packet.new.packet) };

    /// The same of a packet that has no IPv4 layer. It stays as it is.
    fn treat_other(&mut self, class: &Class, packet: &Packet<Raw>) -> Result<(), Option<Reason>>
        requires { ip4_layer packet.now.frame ≡ None }
        ensures { Treats kind self.old self.new class.now packet.now (treated result packet.now) };

    ghost no_rest: { NoRest kind };
}

/// The packet, as it goes on or is dropped.
pub(crate) fn settle(
    outcome: Result<(), Option<Reason>>,
    packet: Packet<Raw>,
) -> Result<Packet<Raw>, Dropped>
    ensures { result ≡ treated outcome packet }
{
    match outcome {
        Ok(()) => Ok(packet),
        Err(reason) => Err(Dropped { reason, packet }),
    }
}

/// Lets a stage treat a packet of which no layer was read, in its own buffer.
pub fn treat_packet<S: TreatRead>(
    stage: &mut S,
    class: &Class,
    packet: Packet<Raw>,
) -> Result<Packet<Raw>, Dropped>
    ensures { Treats S.kind stage.old stage.new class.now packet result }
{
    match ReadPacket::read(packet) {
        Ok(mut read) => {
            let outcome = stage.treat_read(class, &mut read);
            settle(outcome, read.close())
        }
        Err(packet) => {
            let outcome = stage.treat_other(class, &packet);
            settle(outcome, packet)
        }
    }
}
