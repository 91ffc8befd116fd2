ghost use Rattle.std.specs.Prelude.{◌≡◌, drop, None, IfOk, IfErr};
ghost use Rattle.brick_spec.specs.Layer.{ip4_layer};
ghost use Rattle.read_row.specs.Datagram.{ReadsIp4};

use brick_base::Raw;
use eth_ip::{Eth, Ip4};
use packet_owner::Packet;

/// Reads a packet up to its IPv4 layer. A packet that has none comes back as it came.
pub fn read_ip4(packet: Packet<Raw>) -> Result<Packet<Ip4>, Packet<Raw>>
    ensures ok { IfOk result (λ q. ReadsIp4 packet q) }
    ensures err { IfErr result (λ p. (p ≡ packet) × (ip4_layer packet.frame ≡ None)) }
{
    match packet.parse::<Eth>() {
        Err(packet) => Err(packet),
        Ok(eth) => match eth.parse::<Ip4>() {
            Err(eth) => Err(eth.deparse::<Raw>()),
            Ok(ip4) => Ok(ip4),
        },
    }
}

/// The packet with no layer read.
pub fn close_ip4(packet: Packet<Ip4>) -> Packet<Raw>
    ensures { result ≡ record packet { layers = drop 2 packet.layers } }
{
    packet.deparse::<Eth>().deparse::<Raw>()
}
