//! The worst order of segments for a stream, and for a scan of one: gaps of one byte, left open and then closed from
//! the front, one by one.
//!
//! `stream_growth GAPS` prints how many positions are then in order, and `stream_growth GAPS scan` where a text
//! stands that is not in the bytes. It is there so that its instructions can be counted for more and more gaps: they
//! grow as the gaps do. It stands on `window_stream` and `stream_scan`, whose contracts say which bytes are in order
//! and where the text stands; it has no definitions.
#![tactic(auto)]

use brick_base::NoMemory;
use std::alloc::Global;
use std::env;
use std::process::ExitCode;
use stream_scan::Scan;
use window_stream::{Segment, Stream};

/// The most gaps that the reach of a stream allows.
const MOST_GAPS: u32 = 500_000;

/// What takes segments in.
trait Takes {
    fn take_in(&mut self, segment: Segment<'_>) -> Result<(), NoMemory>;
}

impl Takes for Stream {
    fn take_in(&mut self, segment: Segment<'_>) -> Result<(), NoMemory> {
        let _taken = self.take(segment)?;
        Ok(())
    }
}

impl Takes for Scan {
    fn take_in(&mut self, segment: Segment<'_>) -> Result<(), NoMemory> {
        let _found = self.take(segment)?;
        Ok(())
    }
}

/// Takes a byte behind each of so many gaps, the first at position 0.
fn leave_gaps<T: Takes>(taker: &mut T, gaps: u32) -> Result<(), NoMemory> {
    for k in 0..gaps {
        taker.take_in(Segment {
            seq: 2u32.wrapping_add(k.wrapping_mul(2)),
            syn: false,
            bytes: b"b",
        })?;
    }
    Ok(())
}

/// Takes the byte of each of so many gaps, from the front on.
fn close_gaps<T: Takes>(taker: &mut T, gaps: u32) -> Result<(), NoMemory> {
    for k in 0..gaps {
        taker.take_in(Segment {
            seq: 1u32.wrapping_add(k.wrapping_mul(2)),
            syn: false,
            bytes: b"a",
        })?;
    }
    Ok(())
}

/// Takes the segments of so many gaps, behind one that sets where the stream begins.
fn take_all<T: Takes>(taker: &mut T, gaps: u32) -> Result<(), NoMemory> {
    taker.take_in(Segment {
        seq: 0,
        syn: true,
        bytes: b"",
    })?;
    leave_gaps(taker, gaps)?;
    close_gaps(taker, gaps)
}

/// How many positions are in order at the end.
fn ready_after(alloc: Global, gaps: u32) -> Result<u64, NoMemory> {
    let mut stream = Stream::new(alloc, 64, 1_048_576)?;
    take_all(&mut stream, gaps)?;
    Ok(stream.ready())
}

/// Where a text stands at the end of which the bytes have all but the last byte, again and again.
fn found_after(alloc: Global, gaps: u32) -> Result<Option<u64>, NoMemory> {
    let mut scan = Scan::new(alloc, b"ababababb", 1_048_576)?;
    take_all(&mut scan, gaps)?;
    Ok(scan.found())
}

/// The number of gaps that the word says.
fn gaps_of(word: &str) -> Option<u32> {
    let gaps = word.parse::<u32>().ok()?;
    if gaps <= MOST_GAPS { Some(gaps) } else { None }
}

fn main(rt: HostRuntime) -> ExitCode {
    let Ok(mut words) = env::args(&rt) else {
        return ExitCode::from(2);
    };
    let Some(gaps) = words.nth(1).and_then(|word| gaps_of(word.as_str())) else {
        return ExitCode::from(2);
    };
    let told = match words.next() {
        None => match ready_after(rt.alloc(), gaps) {
            Ok(ready) => println!(&rt; "{ready}"),
            Err(NoMemory) => return ExitCode::from(6),
        },
        Some(_) => match found_after(rt.alloc(), gaps) {
            Ok(found) => println!(&rt; "{found:?}"),
            Err(NoMemory) => return ExitCode::from(6),
        },
    };
    match told {
        Ok(()) => ExitCode::SUCCESS,
        Err(_) => ExitCode::from(5),
    }
}
