//! A capture of 500 records in 40 flows, UDP and TCP, in both directions.
ghost use Rattle.std.specs.Prelude.{◌<◌};

use crate::tests::captures::HEADER;
use brick_base::NoMemory;
use std::alloc::Global;

/// How many records there are.
pub const RECORDS: u32 = 500;

/// The head of a record of second 1 and fraction 2 with a frame of 154 bytes.
const HEAD: [u8; 16] = [1, 0, 0, 0, 2, 0, 0, 0, 154, 0, 0, 0, 154, 0, 0, 0];

/// The Ethernet header, and the IPv4 header up to the time to live, of a frame with 120 bytes behind the IPv4 header.
const START: [u8; 22] = [
    2, 0, 0, 0, 0, 1, 2, 0, 0, 0, 0, 2, 8, 0, 0x45, 0, 0, 140, 0, 0, 0x40, 0,
];

/// What a flow is, and which way a record of it goes.
#[derive(Clone, Copy)]
struct Place {
    /// 0 to 39. From 20 on it is TCP.
    flow: u8,
    back: bool,
    time_to_live: u8,
}

/// The place of a record, of the high half of the generator's number.
fn place_of(high: u32) -> Place
    ensures { result.flow < 40 }
{
    let flow = (high % 40) as u8;
    let back = high / 64 % 2 == 1;
    let low = flow < 20 && high / 256 % 8 == 0;
    let time_to_live = if low { 1 } else { 64 };
    Place {
        flow,
        back,
        time_to_live,
    }
}

/// The ends of a record. The near one is 10.0.0.1 to 10.0.0.40, port 1,000; the far one is 198.51.100.2, port 80 of
/// TCP, and of UDP 53 or, in each fourth flow, 99.
fn put_ends(bytes: &mut Vec<u8>, place: Place) -> Result<(), NoMemory>
    requires { place.flow < 40 }
{
    let near = [10, 0, 0, place.flow + 1];
    let far = [198, 51, 100, 2];
    let port = if place.flow >= 20 {
        80
    } else if place.flow % 4 == 3 {
        99
    } else {
        53
    };
    let (near_port, far_port) = ([3, 232], [0, port]);
    if place.back {
        bytes.extend_from_slice(&far)?;
        bytes.extend_from_slice(&near)?;
        bytes.extend_from_slice(&far_port)?;
        bytes.extend_from_slice(&near_port)?;
    } else {
        bytes.extend_from_slice(&near)?;
        bytes.extend_from_slice(&far)?;
        bytes.extend_from_slice(&near_port)?;
        bytes.extend_from_slice(&far_port)?;
    }
    Ok(())
}

/// A record, with 100 bytes of TCP payload from `sequence` on, or 112 bytes of UDP payload.
fn put_record(bytes: &mut Vec<u8>, place: Place, value: u8, sequence: u32) -> Result<(), NoMemory>
    requires { place.flow < 40 }
{
    let tcp = place.flow >= 20;
    let protocol = if tcp { 6 } else { 17 };
    bytes.extend_from_slice(&HEAD)?;
    bytes.extend_from_slice(&START)?;
    bytes.extend_from_slice(&[place.time_to_live, protocol, 0, 0])?;
    put_ends(bytes, place)?;
    if tcp {
        bytes.extend_from_slice(&sequence.to_be_bytes())?;
        bytes.extend_from_slice(&[0, 0, 0, 0, 0x50, 0x18, 0xff, 0xff, 0, 0, 0, 0])?;
        bytes.extend_from_slice(&[value; 100])?;
    } else {
        bytes.extend_from_slice(&[0, 120, 0, 0])?;
        bytes.extend_from_slice(&[value; 112])?;
    }
    Ok(())
}

/// The place of a flow's direction among the 80.
fn direction_of(place: Place) -> usize
    requires { place.flow < 40 }
    ensures { result < 80 }
{
    let flow = place.flow as usize;
    if place.back { flow + 40 } else { flow }
}

/// The bytes of the capture. From 7 on, the generator's next number is 6,364,136,223,846,793,005 times the last one and
/// 1,442,695,040,888,963,407 more, modulo 2^64. Its high 32 bits make the place of a record.
pub fn generated_capture(alloc: Global) -> Result<Vec<u8>, NoMemory> {
    let mut bytes = HEADER.to_vec(alloc)?;
    let mut number = 7u64;
    let mut sequences = [1u32; 80];
    for k in 0..RECORDS {
        number = number
            .wrapping_mul(6364136223846793005)
            .wrapping_add(1442695040888963407);
        let place = place_of((number >> 32) as u32);
        let direction = direction_of(place);
        let sequence = sequences[direction];
        put_record(&mut bytes, place, (k % 256) as u8, sequence)?;
        sequences[direction] = sequence.wrapping_add(100);
    }
    Ok(bytes)
}
