//! The translation of a packet.

ghost use Rattle.std.specs.Prelude.{◌≡◌, ◌+◌, ◌≤◌, [], Ok, Err, IfOk, IfErr};
ghost use Rattle.brick_spec.specs.AddressTranslation as spec;
ghost use Rattle.brick_base.specs.Flow.{dir_view, ends_view};
ghost use Rattle.brick_base.specs.Reason.{reason_view};
ghost use Rattle.packet_owner.specs.Packet.{packet_item, with_frame};
ghost use Rattle.flow_key.specs.View.{plan_view};
ghost use Rattle.nat_port.specs.Translation.{translated_packet, translated_bytes};

use crate::ends::{set_destination_end, set_source_end};
use brick_base::{Class, Dir, Ends, Raw, Reason};
use flow_key::NatPlan;
use packet_owner::Packet;

/// Gives a frame of a flow with this rank its other end.
fn translate_frame(frame: &mut [u8], plan: &NatPlan, first: Ends, rank: u32, dir: Dir)
    requires { rank + 1 ≤ plan.now.ports }
    ensures { frame.new ≡ spec.translated_frame (plan_view plan.now) (ends_view first) rank (dir_view dir) frame.old }
{
    match dir {
        Dir::Forward => set_source_end(frame, plan.outside, (plan.base as u32 + rank) as u16),
        Dir::Reversed => set_destination_end(frame, first.src, first.sport),
    }
}

/// Translates the frame of a packet of a class, where it lies, as `translate` does. The IPv4 layer stays where it is.
pub fn translate_bytes(plan: &NatPlan, class: &Class, frame: &mut [u8]) -> Result<(), Reason>
    ensures ok { IfOk result (λ _. translated_bytes plan.now class.now frame.old ≡ Ok frame.new) }
    ensures err { IfErr result (λ e. (frame.new ≡ frame.old)
        × (translated_bytes plan.now class.now frame.old ≡ Err (reason_view e))) }
{
    let Some(rank) = class.rank else {
        return Ok(());
    };
    if rank >= plan.ports {
        return Err(Reason::NatFull);
    }
    translate_frame(frame, plan, class.first, rank, class.dir);
    Ok(())
}

/// Translates a packet of a class, in its own buffer. What goes forward gets as its source the address outside and the
/// port of its flow's rank; what comes back gets as its destination the source end of the flow's first record. A packet
/// without a rank or without ports stays as it is. `Err` is only `NatFull`, exactly where the rank is there and is at
/// least the number of ports; the packet is then unchanged.
pub fn translate(
    plan: &NatPlan,
    class: &Class,
    p: Packet<Raw>,
) -> Result<Packet<Raw>, (Packet<Raw>, Reason)>
    ensures ok { IfOk result (λ q. translated_packet plan.now class.now p ≡ Ok (packet_item q)) }
    ensures kept { IfOk result (λ q. (q.slot ≡ p.slot) × (q.room ≡ p.room) × (q.layers ≡ [])) }
    ensures err { IfErr result (λ e. (e.0 ≡ p) × (translated_packet plan.now class.now p ≡ Err (reason_view e.1))) }
{
    let mut p = p;
    match translate_bytes(plan, class, p.payload_mut()) {
        Ok(()) => Ok(p),
        Err(reason) => Err((p, reason)),
    }
}
