//! What a rule or a group asks of a frame.

ghost use Rattle.std.specs.Prelude.{◌≡◌, ℕ, Option, Some, None, option_map, nat_eq};
ghost use Rattle.brick_spec.specs.Match.{meets_number, meets_prefix, meets_port, is_source, is_destination, is_either};
ghost use Rattle.brick_spec.specs.Match.{has_no_key, meets_tuple, meets};
ghost use Rattle.tcp_udp.specs.View.{tuple_view};
ghost use Rattle.brick_base.specs.PrefixView.{prefix_view};

use crate::tuple::Tuple;
use brick_base::Prefix;

/// What a rule or a group asks of a frame. A key that is not there is met by every frame.
#[derive(Clone, Copy, Debug, PartialEq, Eq)]
pub struct Match {
    /// The number of the protocol.
    pub proto: Option<u8>,
    /// Where the source address lies.
    pub src: Option<Prefix>,
    /// Where the destination address lies.
    pub dst: Option<Prefix>,
    /// The source port.
    pub sport: Option<u16>,
    /// The destination port.
    pub dport: Option<u16>,
    /// One of the two ports.
    pub port: Option<u16>,
}

impl Match {
    ghost use Rattle.tcp_udp.specs.MatchView.{match_view, meets_ports};

    /// Whether a frame of this five-tuple meets every key. A frame without ports meets no key of a port, and a frame
    /// without an IPv4 layer meets exactly a match without a key.
    pub fn meets(&self, t: &Option<Tuple>) -> bool
        ensures { result ≡ meets (match_view self.now) (option_map tuple_view t.now) }
    {
        match t {
            None => self.has_no_key(),
            Some(tuple) => self.meets_tuple(tuple),
        }
    }

    fn has_no_key(&self) -> bool
        ensures { result ≡ has_no_key (match_view self.now) }
    {
        self.proto.is_none()
            && self.src.is_none()
            && self.dst.is_none()
            && self.sport.is_none()
            && self.dport.is_none()
            && self.port.is_none()
    }

    /// Whether a frame of this five-tuple meets every key. The keys of ports are tried first: most matches that are not
    /// met differ there.
    pub fn meets_tuple(&self, t: &Tuple) -> bool
        ensures { result ≡ meets_tuple (match_view self.now) (tuple_view t.now) }
    {
        if !self.meets_ports(&t.ports) {
            return false;
        }
        meets_number(self.proto, t.proto)
            && meets_prefix(self.src, t.src)
            && meets_prefix(self.dst, t.dst)
    }

    fn meets_ports(&self, ports: &Option<(u16, u16)>) -> bool
        ensures { result ≡ meets_ports (match_view self.now) ports.now }
    {
        if !meets_destination(self.dport, *ports) {
            return false;
        }
        meets_source(self.sport, *ports) && meets_either(self.port, *ports)
    }
}

fn meets_number(key: Option<u8>, n: u8) -> bool
    ensures { result ≡ meets_number key n }
{
    match key {
        None => true,
        Some(key) => n == key,
    }
}

fn meets_prefix(key: Option<Prefix>, address: u32) -> bool
    ensures { result ≡ meets_prefix (option_map prefix_view key) address }
{
    match key {
        None => true,
        Some(key) => key.contains(address),
    }
}

fn meets_source(key: Option<u16>, ports: Option<(u16, u16)>) -> bool
    ensures { result ≡ meets_port key is_source ports }
{
    match (key, ports) {
        (None, _) => true,
        (Some(_), None) => false,
        (Some(key), Some((source, _))) => source == key,
    }
}

fn meets_destination(key: Option<u16>, ports: Option<(u16, u16)>) -> bool
    ensures { result ≡ meets_port key is_destination ports }
{
    match (key, ports) {
        (None, _) => true,
        (Some(_), None) => false,
        (Some(key), Some((_, destination))) => destination == key,
    }
}

fn meets_either(key: Option<u16>, ports: Option<(u16, u16)>) -> bool
    ensures { result ≡ meets_port key is_either ports }
{
    match (key, ports) {
        (None, _) => true,
        (Some(_), None) => false,
        (Some(key), Some((source, destination))) => source == key || destination == key,
    }
}
