ghost use Rattle.std.specs.Prelude.{◌≡◌, ◌++◌, ◌∷◌, ◌≤◌, ◌<◌, ℕ, List, [], length, IfOk, OnOk};
ghost use Rattle.brick_base.specs.Flow.{class_view};
ghost use Rattle.brick_spec.specs.Item.{item_of};
ghost use Rattle.batch_ops.specs.Outlet.{buffer_of};
ghost use Rattle.packet_owner.specs.Packet.{packet_item};
ghost use Rattle.pcap_io.specs.View.{entry_view};
ghost use Rattle.flow_spec.specs.Answer.{ClassedItem};
ghost use Rattle.flow_spec.specs.Plan.{Plan};
ghost use Rattle.tenant_run.specs.Turns.{AreOf, IsOf, Carries, Waits};

use batch_ops::{Batch, Work};
use brick_base::{Class, NoMemory, Raw};
use packet_owner::{Buffer, Packet};
use pcap_io::Entry;
use std::alloc::Global;
use work_core::{ChainWork, Returned};

/// The most packets of a batch.
const MOST: usize = 32;

/// A work, and the packets that wait for their turn. Their buffers serve the whole capture.
#[derive(Debug, Drop)]
pub struct Turns<W: ChainWork> {
    pub work: W,
    /// The packets that wait.
    pub batch: Batch,
    /// The buffers that lie ready: those that the last turn gave back.
    pub ready: Returned,
}

/// Hands the packets that wait to the work. Their buffers lie ready again.
pub fn take_turn<W: ChainWork>(alloc: Global, turns: &mut Turns<W>) -> Result<(), NoMemory>
    requires carries { (room : ℕ) × Carries W.ready W.ended W.broken room turns.old }
    ensures carries { OnOk result ((room : ℕ) → Carries W.ready W.ended W.broken room turns.old
        → Carries W.ready W.ended W.broken room turns.new) }
    ensures waits { OnOk result ((list : List ClassedItem) → Waits W.stands list turns.old
        → Waits W.stands list turns.new) }
    ensures empty { turns.new.batch ≡ [] }
    ensures same { (p : Plan) → W.follows turns.old.work p → W.follows turns.new.work p }
{
    turns.work.turn(alloc, &mut turns.batch, &mut turns.ready);
    if turns.work.failed() {
        return Err(NoMemory);
    }
    Ok(())
}

/// Makes way for one packet more: where 32 wait, they have their turn.
fn make_way<W: ChainWork>(alloc: Global, turns: &mut Turns<W>) -> Result<(), NoMemory>
    requires carries { (room : ℕ) × Carries W.ready W.ended W.broken room turns.old }
    ensures carries { OnOk result ((room : ℕ) → Carries W.ready W.ended W.broken room turns.old
        → Carries W.ready W.ended W.broken room turns.new) }
    ensures waits { OnOk result ((list : List ClassedItem) → Waits W.stands list turns.old
        → Waits W.stands list turns.new) }
    ensures place { OnOk result (length turns.new.batch < 32) }
    ensures same { (p : Plan) → W.follows turns.old.work p → W.follows turns.new.work p }
{
    if turns.batch.len() < MOST {
        return Ok(());
    }
    take_turn(alloc, turns)
}

/// A buffer that lies ready, or a new one.
fn take_buffer(
    alloc: Global,
    slot: u32,
    bytes: u32,
    ready: &mut Returned,
) -> Result<Buffer, NoMemory>
    requires slot { slot < 1024 }
    requires ready { AreOf bytes ready.old }
    ensures buffer { IfOk result (λ b. IsOf bytes b) }
    ensures ready { AreOf bytes ready.new }
{
    match ready.pop() {
        Some(buffer) => Ok(buffer),
        None => {
            let buffer = Buffer::new(alloc, slot, bytes)?;
            Ok(buffer)
        }
    }
}

/// The packet of a record that is no longer than a buffer, in a buffer that lies ready or a new one, and a place for it in
/// the batch: where 32 wait, they have their turn before.
pub fn take_packet<W: ChainWork>(
    alloc: Global,
    turns: &mut Turns<W>,
    bytes: u32,
    number: u32,
    entry: Entry<'_>,
) -> Result<Packet<Raw>, NoMemory>
    requires carries { Carries W.ready W.ended W.broken bytes turns.old }
    requires small { length entry.frame.now ≤ bytes }
    ensures carries { OnOk result (Carries W.ready W.ended W.broken bytes turns.new) }
    ensures waits { OnOk result ((list : List ClassedItem) → Waits W.stands list turns.old
        → Waits W.stands list turns.new) }
    ensures place { OnOk result (length turns.new.batch < 32) }
    ensures buffer { IfOk result (λ p. IsOf bytes (buffer_of p)) }
    ensures item { IfOk result (λ p. packet_item p ≡ item_of number (entry_view entry.entry)) }
    ensures same { (p : Plan) → W.follows turns.old.work p → W.follows turns.new.work p }
{
    make_way(alloc, turns)?;
    let slot = turns.batch.len() as u32;
    let buffer = take_buffer(alloc, slot, bytes, &mut turns.ready)?;
    Ok(Packet::fill(buffer, number, entry))
}

/// Lets a packet wait.
pub fn let_wait<W: ChainWork>(turns: &mut Turns<W>, class: Class, packet: Packet<Raw>)
    requires place { length turns.old.batch < 32 }
    ensures carries { (room : ℕ) → IsOf room (buffer_of packet) → Carries W.ready W.ended W.broken room turns.old
        → Carries W.ready W.ended W.broken room turns.new }
    ensures waits { (list : List ClassedItem) → Waits W.stands list turns.old
        → Waits W.stands (list ++ record { class = class_view class; item = packet_item packet } ∷ []) turns.new }
    ensures same { turns.new.work ≡ turns.old.work }
{
    turns.batch.push(Work { class, packet });
}
