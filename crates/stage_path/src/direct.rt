ghost use Rattle.std.specs.Prelude.{◌≡◌, true};
ghost use Rattle.stage_path.specs.Direct.{TreatsDirectly};

use batch_ops::{Dropped, Staged};
use brick_base::{Class, Raw};
use packet_owner::Packet;

/// Stages that need no outlet as long as none of them makes further packets.
pub trait Direct: Staged {
    /// It makes at most one packet of a packet, in the packet's own buffer.
    ghost direct: { Self → Type 0 };

    /// Whether it makes at most one packet of each packet.
    fn is_direct(&self) -> bool
        ensures { result ≡ true → direct self.now };

    /// Treats a packet, in its own buffer. It goes on, or is dropped, as a step would put it into an outlet. Where
    /// memory runs out it is lost, and the stages have failed: they lose each packet from then on.
    fn treat(&mut self, class: &Class, packet: Packet<Raw>) -> Result<Packet<Raw>, Dropped>
        requires ready { Self.Operator.meaning.ready self.old }
        requires direct { direct self.old }
        ensures { TreatsDirectly Self.Operator.meaning self.old self.new class.now packet result };
}
