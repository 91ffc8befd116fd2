ghost use Rattle.std.specs.Prelude.{◌≡◌, None, Err, true, false};
ghost use Rattle.brick_spec.specs.Layer.{ip4_layer};
ghost use Rattle.batch_ops.specs.Treat.{RowTreats, in_row, was_lost};
ghost use Rattle.read_row.specs.Read.{IsRead, treated};

use crate::packet::ReadPacket;
use crate::stage::{TreatRead, settle};
use batch_ops::{Dropped, Operator, Outlet};
use brick_base::{Class, NoMemory, Raw, Reason};
use packet_owner::Packet;

/// Lets each stage treat what the one before let go on.
#[inline(always)]
fn read_in_turn<S: TreatRead>(
    stages: &mut [S],
    class: &Class,
    packet: &mut ReadPacket,
) -> Result<(), Option<Reason>>
    requires { IsRead packet.old.packet }
    ensures read { IsRead packet.new.packet }
    ensures treats { RowTreats S.kind stages.old stages.new class.now packet.old.packet
        (treated result packet.new.packet) }
{
    for at in 0..stages.len() {
        match stages[at].treat_read(class, packet) {
            Ok(()) => {}
            Err(reason) => return Err(reason),
        }
    }
    Ok(())
}

/// The same of a packet that has no IPv4 layer.
fn other_in_turn<S: TreatRead>(
    stages: &mut [S],
    class: &Class,
    packet: &Packet<Raw>,
) -> Result<(), Option<Reason>>
    requires { ip4_layer packet.now.frame ≡ None }
    ensures { RowTreats S.kind stages.old stages.new class.now packet.now (treated result packet.now) }
{
    for at in 0..stages.len() {
        match stages[at].treat_other(class, packet) {
            Ok(()) => {}
            Err(reason) => return Err(reason),
        }
    }
    Ok(())
}

/// Lets stages treat a packet, whose headers are read once.
#[inline(never)]
fn treat_in_turn<S: TreatRead>(
    stages: &mut [S],
    class: &Class,
    packet: Packet<Raw>,
) -> Result<Packet<Raw>, Dropped>
    ensures { RowTreats S.kind stages.old stages.new class.now packet result }
{
    match ReadPacket::read(packet) {
        Ok(mut read) => {
            let outcome = read_in_turn(stages, class, &mut read);
            settle(outcome, read.close())
        }
        Err(packet) => {
            let outcome = other_in_turn(stages, class, &packet);
            settle(outcome, packet)
        }
    }
}

/// Stages in a row: what one passes comes to the next, at once.
#[derive(Debug, Drop)]
pub struct ReadRow<S> {
    /// The stages, in order.
    pub stages: Vec<S>,
    /// Memory ran out in one of them.
    pub failed: bool,
}

impl<S> ReadRow<S> {
    /// The row of stages to which nothing came.
    pub fn new(stages: Vec<S>) -> ReadRow<S>
        ensures stages { result.stages ≡ stages }
        ensures works { result.failed ≡ false }
    {
        ReadRow {
            stages,
            failed: false,
        }
    }
}

impl<S: TreatRead> ReadRow<S> {
    /// Lets the stages treat a packet, in its own buffer. It goes on, or is dropped. Where memory runs out it is lost,
    /// and the row has failed: it loses each packet from then on.
    #[inline(always)]
    pub fn treat(&mut self, class: &Class, packet: Packet<Raw>) -> Result<Packet<Raw>, Dropped>
        ensures treats { RowTreats S.kind self.old.stages.items self.new.stages.items class.now packet result }
        ensures lost { self.new.failed ≡ was_lost result }
        ensures stays_failed { self.old.failed ≡ true → result ≡ Err (record { reason = None; packet = packet }) }
    {
        if self.failed {
            return Err(Dropped {
                reason: None,
                packet,
            });
        }
        if self.stages.is_empty() {
            return Ok(packet);
        }
        match treat_in_turn(&mut self.stages, class, packet) {
            Ok(packet) => Ok(packet),
            Err(dropped) => {
                self.failed = dropped.reason.is_none();
                Err(dropped)
            }
        }
    }
}

impl<S: TreatRead> Operator for ReadRow<S> {
    ghost meaning = { in_row S.kind (λ r. r.stages.items) (λ r. r.failed) };

    fn step(&mut self, class: &Class, p: Packet<Raw>, out: &mut Outlet) -> Result<(), NoMemory> {
        let treated = self.treat(class, p);
        out.settle(class.dir, treated)
    }

    fn end(&mut self, _class: &Class, _records: u32, _out: &mut Outlet) -> Result<(), NoMemory> {
        if self.failed {
            return Err(NoMemory);
        }
        Ok(())
    }
}
