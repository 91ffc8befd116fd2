//! Both directions of a flow.

use brick_base::{Dir, NoMemory};
use std::alloc::Global;
use stream_scan::Scan;
use window_stream::Segment;

/// What is kept of a flow: a scan of each direction.
#[derive(Drop)]
pub(crate) struct FlowScans {
    pub(crate) forward: Scan,
    pub(crate) reversed: Scan,
}

impl FlowScans {
    ghost use Rattle.std.specs.Prelude.{ℕ, ◌≡◌, ◌≤◌, [], ◌∷◌, ◌++◌, ◌||◌, List, length, Some, is_some, IfOk, OnErr};
    ghost use Rattle.brick_spec.specs.FlowStage.{FlowItem};
    ghost use Rattle.brick_base.specs.Flow.{dir_view};
    ghost use Rattle.flow_spec.specs.FlowStream as streams;
    ghost use Rattle.flow_spec.specs.Scan.{is_found};
    ghost use Rattle.window_stream.specs.Answers.{segment_of};
    ghost use Rattle.stream_scan.specs.ScanModel.{ScansFor};
    ghost use Rattle.scan_stage.specs.FlowScans.{AreOf, FlowScansFit};

    /// A flow to which nothing came.
    pub(crate) fn new(alloc: Global, text: &[u8], reach: u32) -> Result<FlowScans, NoMemory>
        requires text { (1 ≤ length text.now) × (length text.now ≤ 64) }
        requires reach { (1460 ≤ reach) × (reach ≤ 1048576) }
        ensures of { IfOk result (AreOf text.now reach) }
        ensures fits { IfOk result (λ s. FlowScansFit s []) }
    {
        let forward = Scan::new(alloc, text, reach)?;
        let reversed = Scan::new(alloc, text, reach)?;
        Ok(FlowScans { forward, reversed })
    }

    /// Takes a segment in, and answers whether one of the two streams contains the text. Without memory nothing
    /// changes.
    pub(crate) fn take(&mut self, dir: Dir, segment: Segment<'_>) -> Result<bool, NoMemory>
        ensures of { (text : List ℕ) (reach : ℕ) → AreOf text reach self.old → AreOf text reach self.new }
        ensures ok { (text : List ℕ) (reach : ℕ) (items : List FlowItem) (x : FlowItem) → AreOf text reach self.old
            → FlowScansFit self.old items
            → x.dir ≡ dir_view dir → streams.segment_of x.item ≡ Some (segment_of segment.entry)
            → IfOk result (λ found. (found ≡ is_found text reach (items ++ x ∷ []))
            × FlowScansFit self.new (items ++ x ∷ [])) }
        ensures err { OnErr result (self.new ≡ self.old) }
    {
        match dir {
            Dir::Forward => {
                self.forward.take(segment)?;
                Ok(self.is_found())
            }
            Dir::Reversed => {
                self.reversed.take(segment)?;
                Ok(self.is_found())
            }
        }
    }

    /// Whether one of the two streams contains the text.
    fn is_found(&self) -> bool
        ensures { result ≡ (is_some self.now.forward.found || is_some self.now.reversed.found) }
    {
        self.forward.found().is_some() || self.reversed.found().is_some()
    }
}
