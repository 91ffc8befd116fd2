ghost use Rattle.std.specs.Prelude.{◌≡◌, ◌≤◌, ◌%◌, ℕ, List, length, false};
ghost use Rattle.std.specs.Borrow.{MutBor};
ghost use Rattle.brick_spec.specs.FlowStage.{FlowInput, FlowOutput};
ghost use Rattle.packet_owner.specs.Packet.{PacketModel, packet_item, here_of, header_of, with_bytes};
ghost use Rattle.eth_ip.specs.declared.view.Ip4Mut.{Ip4Mut as Header};
ghost use Rattle.batch_ops.specs.Outlet.{keyed};
ghost use Rattle.batch_ops.specs.Operator.{never_fails};
ghost use Rattle.batch_ops.specs.Stage.{EachMade};
ghost use Rattle.map_filter.specs.Closures.{Transformed, Transforms};

use batch_ops::{Operator, Outlet};
use brick_base::{Class, NoMemory, Raw};
use eth_ip::{Ip4, Ip4Mut};
use packet_owner::Packet;
use read_row::{close_ip4, read_ip4};
use std::fmt;

/// Lets a closure edit a header.
fn call<F: Fn(&mut Ip4Mut<'_>)>(f: &F, ip4: &mut Ip4Mut<'_>)
    requires callable { F.IsAlwaysCallable f.now }
    requires keeps { (p q : MutBor Header) → F.post f.now p tt q → q.now.header.ghost_name ≡ p.now.header.ghost_name }
    ensures same_reference { ip4.new.header.ghost_name ≡ ip4.old.header.ghost_name }
    ensures called { (p : MutBor Header) × (q : MutBor Header) × (p.now ≡ ip4.old) × F.post f.now p tt q
        × (ip4.new ≡ q.now) }
{
    f(ip4);
}

/// Lets a closure edit the bytes of a header.
fn edit_header<F: Fn(&mut Ip4Mut<'_>)>(f: &F, header: &mut [u8])
    requires long { 20 ≤ length header.old }
    requires even { length header.old % 2 ≡ 0 }
    requires callable { F.IsAlwaysCallable f.now }
    requires keeps { (p q : MutBor Header) → F.post f.now p tt q → q.now.header.ghost_name ≡ p.now.header.ghost_name }
    ensures { (p : MutBor Header) × (q : MutBor Header) × (p.now.header.now ≡ header.old) × F.post f.now p tt q
        × (q.now.header.now ≡ header.new) }
{
    let mut ip4 = Ip4Mut::of(header);
    call(f, &mut ip4);
}

/// Lets a closure edit the header of the packet's layer.
fn edit_packet<F: Fn(&mut Ip4Mut<'_>)>(f: &F, packet: &mut Packet<Ip4>)
    requires long { 20 ≤ length (header_of packet.old) }
    requires even { length (header_of packet.old) % 2 ≡ 0 }
    requires callable { F.IsAlwaysCallable f.now }
    requires keeps { (p q : MutBor Header) → F.post f.now p tt q → q.now.header.ghost_name ≡ p.now.header.ghost_name }
    ensures { (h : List ℕ) × (length h ≡ length (header_of packet.old))
        × ((p : MutBor Header) × (q : MutBor Header) × (p.now.header.now ≡ header_of packet.old) × F.post f.now p tt q
        × (q.now.header.now ≡ h)) × (packet.new ≡ with_bytes packet.old (here_of packet.old).start h) }
{
    edit_header(f, packet.header_mut());
}

/// Lets a closure edit the IPv4 header of a packet. A packet that has none comes back as it came.
fn edit_ip4<F: Fn(&mut Ip4Mut<'_>)>(f: &F, packet: Packet<Raw>) -> Packet<Raw>
    requires callable { F.IsAlwaysCallable f.now }
    requires keeps { (p q : MutBor Header) → F.post f.now p tt q → q.now.header.ghost_name ≡ p.now.header.ghost_name }
    ensures item { Transformed (λ old new. (p : MutBor Header) × (q : MutBor Header) × (p.now.header.now ≡ old)
        × F.post f.now p tt q × (q.now.header.now ≡ new)) (packet_item packet) (packet_item result) }
    ensures buffer { keyed result ≡ keyed packet }
{
    match read_ip4(packet) {
        Err(packet) => packet,
        Ok(mut ip4) => {
            edit_packet(f, &mut ip4);
            close_ip4(ip4)
        }
    }
}

/// A stage that lets a closure edit each IPv4 header.
#[derive(Drop)]
pub struct Transform<F> {
    f: F,
}

/// Its name alone: a closure shows nothing.
impl<F> fmt::Debug for Transform<F> {
    fn fmt<W: fmt::Write>(&self, f: &mut fmt::Formatter<W>) -> fmt::Result {
        f.debug_struct("Transform").finish_non_exhaustive()
    }
}

impl<F> Transform<F> {
    /// The stage of a closure.
    pub fn new(f: F) -> Transform<F>
        ensures { result.f ≡ f }
    {
        Transform { f }
    }
}

impl<F: Fn(&mut Ip4Mut<'_>)> Operator for Transform<F> {
    // The closure may be called on any header, and leaves the header where it lies.
    ghost meaning = { never_fails (λ t flow came left. EachMade (Transforms (λ old new. (p : MutBor Header)
        × (q : MutBor Header) × (p.now.header.now ≡ old) × F.post t.f p tt q
        × (q.now.header.now ≡ new))) came.items left) (λ t. F.IsAlwaysCallable t.f
        × ((p q : MutBor Header) → F.post t.f p tt q → q.now.header.ghost_name ≡ p.now.header.ghost_name)) };

    fn step(&mut self, class: &Class, p: Packet<Raw>, out: &mut Outlet) -> Result<(), NoMemory> {
        let packet = edit_ip4(&self.f, p);
        out.pass(class.dir, packet);
        Ok(())
    }

    fn end(&mut self, _class: &Class, _records: u32, _out: &mut Outlet) -> Result<(), NoMemory> {
        Ok(())
    }
}
