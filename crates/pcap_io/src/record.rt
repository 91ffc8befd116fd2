ghost use Rattle.std.specs.Prelude.{◌≡◌, ◌+◌, ◌<◌, ◌≤◌, length, drop, IfOk, IfErr};
ghost use Rattle.brick_spec.specs.CaptureFault.{captured_length};
ghost use Rattle.pcap_io.specs.Reading.{front_entry, IsRecord};
ghost use Rattle.pcap_io.specs.View.{entry_view, order_view, IsStuckBy};

use crate::Entry;
use crate::number::{Order, four_at};

/// The four numbers in front of a record's captured bytes.
pub const HEAD: usize = 16;

/// The most bytes that a record may have captured.
pub const LONGEST: u32 = 262_144;

/// Why no whole record is at the front of bytes.
#[derive(Clone, Copy, Debug, PartialEq, Eq)]
pub enum Stuck {
    /// They end within it.
    Cut,
    /// It has more captured bytes than a record may have, and how many.
    Long { len: u32 },
}

/// The size in bytes of the whole record at the front.
#[tactic(auto, using(crate::proofs::Places::captured_at))]
pub fn record_size(order: Order, bytes: &[u8]) -> Result<usize, Stuck>
    requires { 0 < length bytes.now }
    ensures whole { IfOk result (λ n. IsRecord (order_view order) bytes.now
        × (n ≡ 16 + captured_length (order_view order) bytes.now)) }
    ensures stuck { IfErr result (IsStuckBy (order_view order) bytes.now) }
{
    if bytes.len() < HEAD {
        return Err(Stuck::Cut);
    }
    let captured = four_at(order, bytes, 8);
    if captured > LONGEST {
        return Err(Stuck::Long { len: captured });
    }
    let size = HEAD + captured as usize;
    if bytes.len() < size {
        Err(Stuck::Cut)
    } else {
        Ok(size)
    }
}

/// The whole record at the front.
#[inline]
pub fn record_at_front(order: Order, bytes: &[u8]) -> Entry<'_>
    requires { IsRecord (order_view order) bytes.now }
    ensures entry { entry_view result ≡ front_entry (order_view order) bytes.now }
    ensures short { length result.frame.now ≤ 262144 }
{
    // The byte order is looked at once for all four numbers.
    match order {
        Order::Little => entry_at_front(Order::Little, bytes),
        Order::Big => entry_at_front(Order::Big, bytes),
    }
}

/// The same, where the byte order is a constant.
#[tactic(auto, using(crate::proofs::Places::fields_at))]
#[inline(always)]
fn entry_at_front(order: Order, bytes: &[u8]) -> Entry<'_>
    requires { IsRecord (order_view order) bytes.now }
    ensures entry { entry_view result ≡ front_entry (order_view order) bytes.now }
    ensures short { length result.frame.now ≤ 262144 }
{
    let captured = four_at(order, bytes, 8) as usize;
    let (_, body) = bytes.split_at(HEAD);
    let (frame, _) = body.split_at(captured);
    Entry {
        seconds: four_at(order, bytes, 0),
        fraction: four_at(order, bytes, 4),
        original: four_at(order, bytes, 12),
        frame,
    }
}
