//! The ends of a frame, its key and the hash of that.

ghost use Rattle.std.specs.Prelude.{◌≡◌, option_map};
ghost use Rattle.brick_spec.specs.FlowClass as spec;
ghost use Rattle.brick_spec.specs.Hash as fnv;
ghost use Rattle.brick_base.specs.Flow.{ends_view};
ghost use Rattle.tcp_udp.specs.View.{tuple_view};
ghost use Rattle.flow_key.specs.View.{end_view, key_view};

use crate::key::{End, Key};
use brick_base::{Ends, fnv1a};
use tcp_udp::Tuple;

/// Where the frame comes from.
pub(crate) fn source_end(tuple: &Tuple) -> End
    ensures { end_view result ≡ spec.source_end (tuple_view tuple.now) }
{
    let port = match tuple.ports {
        Some((sport, _)) => sport,
        None => 0,
    };
    End {
        address: tuple.src,
        port,
    }
}

/// Where it goes to.
pub(crate) fn destination_end(tuple: &Tuple) -> End
    ensures { end_view result ≡ spec.destination_end (tuple_view tuple.now) }
{
    let port = match tuple.ports {
        Some((_, dport)) => dport,
        None => 0,
    };
    End {
        address: tuple.dst,
        port,
    }
}

/// Whether two ends are one.
pub(crate) fn is_same_end(a: End, b: End) -> bool
    ensures { result ≡ spec.is_same_end (end_view a) (end_view b) }
{
    a.address == b.address && a.port == b.port
}

/// Whether an end is at most another, by address and then port.
fn is_at_most(a: End, b: End) -> bool
    ensures { result ≡ spec.is_at_most (end_view a) (end_view b) }
{
    a.address < b.address || a.address == b.address && a.port <= b.port
}

/// The ends of a flow, by its first frame.
pub(crate) fn ends_of(first: &Option<Tuple>) -> Ends
    ensures { ends_view result ≡ spec.ends_of (option_map tuple_view first.now) }
{
    match first {
        Some(tuple) => Ends {
            src: tuple.src,
            sport: source_end(tuple).port,
            dst: tuple.dst,
            dport: destination_end(tuple).port,
        },
        None => Ends {
            src: 0,
            sport: 0,
            dst: 0,
            dport: 0,
        },
    }
}

/// The key of a frame.
pub(crate) fn key_of(tuple: &Tuple) -> Key
    ensures { key_view result ≡ spec.key_of (tuple_view tuple.now) }
{
    let source = source_end(tuple);
    let destination = destination_end(tuple);
    if is_at_most(source, destination) {
        Key {
            proto: tuple.proto,
            low: source,
            high: destination,
        }
    } else {
        Key {
            proto: tuple.proto,
            low: destination,
            high: source,
        }
    }
}

/// The bytes of an end: the address and the port, the highest byte first.
fn end_bytes(end: End) -> [u8; 6]
    ensures { result ≡ spec.end_bytes (end_view end) }
{
    let address = end.address.to_be_bytes();
    let port = end.port.to_be_bytes();
    [
        address[0], address[1], address[2], address[3], port[0], port[1],
    ]
}

/// The hash of a key.
fn hash_key(key: Key) -> u64
    ensures { result ≡ fnv.hash_of (spec.hash_bytes (key_view key)) }
{
    let mut bytes = [0; 13];
    bytes[0] = key.proto;
    bytes[1..7].copy_from_slice(&end_bytes(key.low));
    bytes[7..].copy_from_slice(&end_bytes(key.high));
    fnv1a(&bytes)
}

/// The hash of the key of a flow, by its first record.
pub(crate) fn flow_hash(first: &Option<Tuple>) -> u64
    ensures { result ≡ spec.flow_hash (option_map tuple_view first.now) }
{
    match first {
        Some(tuple) => hash_key(key_of(tuple)),
        None => fnv1a(&[]),
    }
}
