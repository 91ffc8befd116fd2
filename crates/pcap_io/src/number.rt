ghost use Rattle.std.specs.Prelude.{◌≡◌, ◌+◌, ◌≤◌, length, drop};
ghost use Rattle.brick_spec.specs.Bytes.{number_of_four};
ghost use Rattle.pcap_io.specs.Reading.{number_of_two};
ghost use Rattle.pcap_io.specs.View.{order_view};

use byteorder::{BigEndian, ByteOrder, LittleEndian};

/// The byte order of a capture's numbers.
#[derive(Clone, Copy, Debug)]
pub enum Order {
    Little,
    Big,
}

/// The number in the two bytes at a place.
#[tactic(auto, unfolding(crate::specs::Reading::number_of_two))]
pub fn two_at(order: Order, bytes: &[u8], at: usize) -> u16
    requires { at + 2 ≤ length bytes.now }
    ensures { result ≡ number_of_two (order_view order) (drop at bytes.now) }
{
    let (_, rest) = bytes.split_at(at);
    match order {
        Order::Little => LittleEndian::read_u16(rest),
        Order::Big => BigEndian::read_u16(rest),
    }
}

/// The number in the four bytes at a place.
#[tactic(auto, unfolding(brick_spec::specs::Bytes::number_of_four))]
pub fn four_at(order: Order, bytes: &[u8], at: usize) -> u32
    requires { at + 4 ≤ length bytes.now }
    ensures { result ≡ number_of_four (order_view order) (drop at bytes.now) }
{
    let (_, rest) = bytes.split_at(at);
    match order {
        Order::Little => LittleEndian::read_u32(rest),
        Order::Big => BigEndian::read_u32(rest),
    }
}
