//! The scan straight from its definition, slowly: the bytes in order are put together from all segments, and the needle
//! is tried at each position. It is there to compare other ways with.

ghost use Rattle.std.specs.Prelude.{◌≡◌, ◌<◌, length, IfOk};
ghost use Rattle.brick_spec.specs.Stream.{reassembly};
ghost use Rattle.window_stream.specs.Plain.{segments_in};
ghost use Rattle.flow_spec.specs.FlowStream.{bytes_in_order};
ghost use Rattle.flow_spec.specs.Scan.{first_occurrence};

use brick_base::NoMemory;
use std::alloc::Global;
use window_stream::{Segment, plain};

/// The position at which a needle, which is not empty, first stands in the bytes in order of a list of segments.
pub fn scan(
    alloc: Global,
    needle: &[u8],
    reach: u32,
    segments: &[Segment<'_>],
) -> Result<Option<u64>, NoMemory>
    ensures { IfOk result (λ found. found
        ≡ first_occurrence needle.now (bytes_in_order (reassembly reach (segments_in segments.now)))) }
{
    let whole = plain::reassemble(alloc, reach, segments)?;
    Ok(first_occurrence(needle, &whole.bytes))
}

/// The place at which a needle first stands in some bytes.
fn first_occurrence(needle: &[u8], bytes: &[u8]) -> Option<u64>
    ensures { result ≡ first_occurrence needle.now bytes.now }
{
    for at in 0..bytes.len() {
        if bytes[at..].starts_with(needle) {
            return Some(at as u64);
        }
    }
    None
}
