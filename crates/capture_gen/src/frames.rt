//! The frames of the generated capture.

ghost use Rattle.std.specs.Prelude.{◌≡◌, ℕ, ◌+◌, ◌*◌, ◌%◌, ◌^◌, ◌<◌, ◌≤◌, ◌++◌, length, replicate, IfOk, OnOk};
ghost use Rattle.brick_spec.specs.Edit.{udp_stored};
ghost use Rattle.run_spec.specs.Generated as spec;
ghost use Rattle.packetize.specs.View.{template_view};
ghost use Rattle.capture_gen.specs.Sequence.{tcp_frame_of, frame_of};

use crate::sequence::{Draw, Kind};
use brick_base::NoMemory;
use eth_ip::{set_header_total, write_word};
use packet_owner::Buffer;
use packetize::{Template, emit};
use tcp_udp::segment_checksum;

/// The length in bytes of the longest frame.
pub(crate) const LONGEST: u32 = 154;

const SERVER_MAC: [u8; 6] = [2, 0, 0, 0, 0, 1];

const CLIENT_MAC: [u8; 6] = [2, 0, 0, 0, 0, 2];

/// 198.51.100.2 (RFC 5737).
const SERVER: u32 = 0xc633_6402;

/// A broadcast of type 0806 with 46 zero bytes.
const OTHER: [u8; 60] = [
    0xff, 0xff, 0xff, 0xff, 0xff, 0xff, 2, 0, 0, 0, 0, 2, 0x08, 0x06, 0, 0, 0, 0, 0, 0, 0, 0, 0, 0,
    0, 0, 0, 0, 0, 0, 0, 0, 0, 0, 0, 0, 0, 0, 0, 0, 0, 0, 0, 0, 0, 0, 0, 0, 0, 0, 0, 0, 0, 0, 0, 0,
    0, 0, 0, 0,
];

/// The address of a host, 10.0.0.1 for host 0.
fn client_address(host: u32) -> u32
    requires { host < 8 }
    ensures { result ≡ spec.client_address host }
{
    0x0a00_0001 + host
}

/// The byte that the data of record `k` is made of.
fn data_byte(k: u32) -> u8
    ensures { result ≡ k % 256 }
{
    (k % 256) as u8
}

/// The IPv4 header of a UDP frame, with 40 bytes behind it.
fn udp_ip4(host: u32) -> [u8; 20]
    requires { host < 8 }
    ensures { result ≡ spec.udp_ip4 host 40 }
{
    let from = client_address(host).to_be_bytes();
    let to = SERVER.to_be_bytes();
    let mut header = [
        0x45, 0, 0, 0, 0, 0, 0x40, 0, 64, 17, 0, 0, from[0], from[1], from[2], from[3], to[0],
        to[1], to[2], to[3],
    ];
    set_header_total(&mut header, 60);
    header
}

/// How a UDP checksum stands in its header: 0 would say that there is none (RFC 768).
fn udp_stored(checksum: u16) -> u16
    ensures { result ≡ udp_stored checksum }
{
    if checksum == 0 { 65535 } else { checksum }
}

/// The UDP datagram under an IPv4 header, from port 1000 to port 53 with 32 bytes of one value.
fn datagram(ip4: &[u8], byte: u8) -> [u8; 40]
    requires { 20 ≤ length ip4.now }
    ensures { result ≡ spec.datagram ip4.now (replicate 32 byte) }
{
    let mut datagram = [byte; 40];
    datagram[..8].copy_from_slice(&[0x03, 0xe8, 0, 53, 0, 40, 0, 0]);
    let right = segment_checksum(ip4, &datagram, 6);
    write_word(&mut datagram, 6, udp_stored(right));
    datagram
}

/// Puts the UDP frame of record `k` behind what is there.
fn write_udp(frame: &mut Vec<u8>, host: u32, k: u32) -> Result<(), NoMemory>
    requires { host < 8 }
    ensures { OnOk result (frame.new.items ≡ frame.old.items ++ spec.udp_frame host k) }
{
    let ip4 = udp_ip4(host);
    let datagram = datagram(&ip4, data_byte(k));
    frame.extend_from_slice(&SERVER_MAC)?;
    frame.extend_from_slice(&CLIENT_MAC)?;
    frame.extend_from_slice(&[0x08, 0x00])?;
    frame.extend_from_slice(&ip4)?;
    frame.extend_from_slice(&datagram)?;
    Ok(())
}

/// What the TCP frames of a host have in common.
fn template(host: u32) -> Template
    requires { host < 8 }
    ensures { template_view result ≡ spec.tcp_template host }
{
    Template {
        dst: SERVER_MAC,
        src: CLIENT_MAC,
        tos: 0,
        ttl: 64,
        from: client_address(host),
        to: SERVER,
        sport: 2000,
        dport: 80,
        ack: 0,
        window: 65535,
        seconds: 0,
        fraction: 0,
    }
}

/// Puts the TCP frame of record `k` behind what is there. It is made in the buffer, which comes back.
fn write_tcp(frame: &mut Vec<u8>, buffer: Buffer, draw: Draw, k: u32) -> Result<Buffer, NoMemory>
    requires host { draw.host < 8 }
    requires few { draw.earlier < 20000 }
    requires room { 154 ≤ buffer.room }
    ensures frame { OnOk result (frame.new.items ≡ frame.old.items ++ tcp_frame_of draw.host draw.earlier k) }
    ensures room { IfOk result (λ b. b.room ≡ buffer.room) }
{
    let sequence = 1 + 100 * draw.earlier;
    let data = [data_byte(k); 100];
    let packet = emit(&template(draw.host), sequence, 0, 0, &data, buffer);
    frame.extend_from_slice(packet.frame())?;
    Ok(packet.into_buffer())
}

/// Makes the frame of record `k`, and nothing else is in it. The buffer comes back.
pub(crate) fn write_frame(
    frame: &mut Vec<u8>,
    buffer: Buffer,
    draw: Draw,
    k: u32,
) -> Result<Buffer, NoMemory>
    requires host { draw.host < 8 }
    requires few { draw.earlier < 20000 }
    requires room { 154 ≤ buffer.room }
    ensures frame { OnOk result (frame.new.items ≡ frame_of draw.kind draw.host draw.earlier k) }
    ensures room { IfOk result (λ b. b.room ≡ buffer.room) }
{
    frame.clear();
    match draw.kind {
        Kind::Other => {
            frame.extend_from_slice(&OTHER)?;
            Ok(buffer)
        }
        Kind::Udp => {
            write_udp(frame, draw.host, k)?;
            Ok(buffer)
        }
        Kind::Tcp => write_tcp(frame, buffer, draw, k),
    }
}
