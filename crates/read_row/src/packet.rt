//! Packets of which the Ethernet layer and the IPv4 layer are read.

ghost use Rattle.std.specs.Prelude.{◌≡◌, drop, Some, None, IfOk, IfErr};
ghost use Rattle.brick_spec.specs.Layer.{ip4_layer};
ghost use Rattle.brick_spec.specs.Tuple.{tuple_of};
ghost use Rattle.read_row.specs.Datagram.{ReadsIp4};
ghost use Rattle.read_row.specs.Read.{IsKept, IsRead};
ghost use Rattle.tcp_udp.specs.View.{tuple_view};

use crate::datagram::{close_ip4, read_ip4};
use brick_base::Raw;
use eth_ip::Ip4;
use packet_owner::Packet;
use tcp_udp::Tuple;

/// A packet whose Ethernet and IPv4 headers were read, and its five-tuple, where one was asked for. Who changes the
/// addresses, the protocol or the ports of the packet forgets the five-tuple.
#[derive(Debug, Drop)]
pub struct ReadPacket {
    /// The packet.
    pub packet: Packet<Ip4>,
    /// The five-tuple of its frame, if it is known.
    pub tuple: Option<Tuple>,
    // it is that of the frame
    pub ghost kept: { IsKept tuple packet },
}

impl ReadPacket {
    /// Reads a packet up to its IPv4 layer. A packet that has none comes back as it came.
    pub fn read(packet: Packet<Raw>) -> Result<ReadPacket, Packet<Raw>>
        ensures ok { IfOk result (λ q. ReadsIp4 packet q.packet) }
        ensures unknown { IfOk result (λ q. q.tuple ≡ None) }
        ensures err { IfErr result (λ p. (p ≡ packet) × (ip4_layer packet.frame ≡ None)) }
    {
        match read_ip4(packet) {
            Ok(packet) => Ok(ReadPacket {
                packet,
                tuple: None,
            }),
            Err(packet) => Err(packet),
        }
    }

    /// The packet with no layer read.
    pub fn close(self) -> Packet<Raw>
        ensures { result ≡ record self.packet { layers = drop 2 self.packet.layers } }
    {
        close_ip4(self.packet)
    }

    /// The five-tuple of its frame, by the layers that were read: it is made where it is not known yet, and is known
    /// then.
    #[inline(always)]
    #[tactic(auto, using(crate::proofs::Closing::long_header))]
    pub fn five_tuple(&mut self) -> Tuple
        requires { IsRead self.old.packet }
        ensures value { tuple_of self.old.packet.frame ≡ Some (tuple_view result) }
        ensures known { self.new.tuple ≡ Some result }
        ensures packet { self.new.packet ≡ self.old.packet }
    {
        match self.tuple {
            Some(tuple) => tuple,
            None => {
                let tuple = Tuple::of_layer(self.packet.header(), self.packet.payload());
                self.tuple = Some(tuple);
                tuple
            }
        }
    }
}
