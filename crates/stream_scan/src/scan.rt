//! A scan.

ghost use Rattle.std.specs.Prelude.{◌≡◌, ℕ, ◌+◌, ◌-◌, ◌*◌, ◌%◌, ◌<◌, ◌≤◌, ◌^◌, ◌++◌, ◌⊎◌, [], ◌∷◌, length, Option};
ghost use Rattle.std.specs.Prelude.{List, IfOk, OnErr};
ghost use Rattle.brick_spec.specs.Stream.{StreamSegment, reassembly};
ghost use Rattle.window_stream.specs.Answers.{segment_of};
ghost use Rattle.window_stream.specs.StreamModel.{StandsFor};
ghost use Rattle.flow_spec.specs.FlowStream.{bytes_in_order};
ghost use Rattle.flow_spec.specs.Scan.{first_occurrence};
ghost use Rattle.stream_scan.specs.ScanModel.{ScansFor, IsSameScan, IsSmall};
ghost use Rattle.stream_scan.specs.Searched.{SearchedTo};

use crate::search::Search;
use brick_base::NoMemory;
use std::alloc::Global;
use std::marker::Model;
use window_stream::{Segment, Stream};

/// How many bytes of a stream are let go together, once they were searched.
const WINDOW: u32 = 1460;

/// One direction of one flow: whether its bytes in order contain a text, the needle.
#[derive(Debug, Drop)]
pub struct Scan {
    search: Search,
    stream: Stream,
}

impl Model for Scan {
    ghost use Rattle.stream_scan.specs.ScanModel.{ScanModel, IsScan};

    ghost Value = { ScanModel };

    ghost view = { λ s. record {
      needle = s.search.needle.items;
      found = s.search.found;
      tail = s.search.tail.items;
      searched = s.search.searched;
      stream = s.stream;
    } };

    ghost invariant = { λ s. IsScan (record {
      needle = s.search.needle.items;
      found = s.search.found;
      tail = s.search.tail.items;
      searched = s.search.searched;
      stream = s.stream;
    }) };
}

impl Scan {
    /// A scan for a needle, to which no segment came. It takes payloads up to `reach` bytes past the first gap.
    pub fn new(alloc: Global, needle: &[u8], reach: u32) -> Result<Scan, NoMemory>
        requires needle { (1 ≤ length needle.now) × (length needle.now ≤ 64) }
        requires reach { (1460 ≤ reach) × (reach ≤ 1048576) }
        ensures { IfOk result (λ s. (s.needle ≡ needle.now) × (s.stream.reach ≡ reach) × ScansFor s []) }
    {
        let stream = Stream::new(alloc, WINDOW, reach)?;
        Ok(Scan {
            search: Search::new(needle),
            stream,
        })
    }

    /// Takes a segment in, and answers the position at which the needle first stands in the bytes in order: none
    /// exactly where it does not. Without memory nothing changes.
    pub fn take(&mut self, segment: Segment<'_>) -> Result<Option<u64>, NoMemory>
        ensures ok { (segments : List StreamSegment) → ScansFor self.old segments → IfOk result (λ found.
            (found ≡ first_occurrence self.old.needle (bytes_in_order (reassembly self.old.stream.reach (segments
            ++ segment_of segment.entry ∷ []))))
            × ScansFor self.new (segments ++ segment_of segment.entry ∷ [])) }
        ensures answer { IfOk result (λ found. found ≡ self.new.found) }
        ensures same { IsSameScan self.old self.new }
        ensures bounded { IsSmall self.new ⊎ (self.new ≡ self.old) }
        ensures err { OnErr result (self.new ≡ self.old) }
    {
        if self.search.found.is_some() {
            return Ok(self.search.found);
        }
        self.stream.take(segment)?;
        search_on(&mut self.search, &self.stream);
        let ready = self.stream.ready();
        self.stream.drop_before(ready - ready % u64::from(WINDOW));
        Ok(self.search.found)
    }

    /// The answer of the last `take`: none before the first.
    pub fn found(&self) -> Option<u64>
        ensures value { result ≡ self.now.found }
        ensures segments { (segments : List StreamSegment) → ScansFor self.now segments →
            result ≡ first_occurrence self.now.needle (bytes_in_order (reassembly self.now.stream.reach segments)) }
    {
        self.search.found
    }
}

/// Searches the bytes of a stream in order that were not searched yet: those of whole windows, and then the rest.
fn search_on(search: &mut Search, stream: &Stream)
    requires size { stream.now.size ≡ WINDOW }
    requires there { stream.now.dropped ≤ search.old.searched - search.old.searched % WINDOW }
    requires before { search.old.searched ≤ stream.now.ready }
    ensures goes_on { (segments : List StreamSegment) → StandsFor stream.now segments
        → SearchedTo search.old segments stream.now.reach
        → SearchedTo search.new segments stream.now.reach }
    ensures needle { search.new.needle ≡ search.old.needle }
    ensures searched { search.new.searched ≡ stream.now.ready }
{
    let size = u64::from(WINDOW);
    let whole = stream.ready() / size;
    'windows: for j in search.searched / size..whole {
        let Some(window) = stream.window(j) else {
            // It is whole, and was not dropped.
            return;
        };
        search.pass(&window[(search.searched - j * size) as usize..]);
    }
    search.pass(&stream.rest()[(search.searched - whole * size) as usize..]);
}
