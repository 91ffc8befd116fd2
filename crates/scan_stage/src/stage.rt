//! The stage.

ghost use Rattle.std.specs.Prelude.{ℕ, ◌≡◌, ◌≤◌, [], List, length, false, refl, IfOk, Some};
ghost use Rattle.std.specs.Ordering.{nat_cmp};
ghost use Rattle.std.specs.BTreeMap.{get};
ghost use Rattle.scan_stage.specs.FlowScans.{AreOf};
ghost use Rattle.scan_stage.specs.declared.flow_scans.FlowScans.{FlowScans};

use crate::flow_scans::FlowScans;
use crate::segment::segment_in;
use batch_ops::{Dropped, Operator, Outlet, Treat};
use brick_base::{Class, Dir, NoMemory, Proto, Raw, Reason};
use packet_owner::Packet;
use read_row::{ReadPacket, TreatRead, treat_packet};
use std::alloc::Global;
use std::collections::BTreeMap;
use std::fmt;
use window_stream::Segment;

/// Drops the TCP segments of a flow once the bytes in order of one of its two streams contain the text, that of the
/// segment with it. A payload that ends more than `reach` bytes past the bytes in order does not count in its stream.
/// Where memory runs out, the stage has failed.
#[derive(Drop)]
pub struct ScanStage {
    /// The text, of 1 to 64 bytes.
    pub text: Vec<u8>,
    /// How far past the bytes in order a payload may end: 1,460 to 1,048,576.
    pub reach: u32,
    /// Memory ran out.
    pub failed: bool,
    pub(crate) alloc: Global,
    pub(crate) scans: BTreeMap<u32, FlowScans>,
    pub ghost length: { (1 ≤ length text.items) × (length text.items ≤ 64) },
    pub ghost within: { (1460 ≤ reach) × (reach ≤ 1048576) },
    // each scan is of this text and this reach
    pub ghost kinds: { (q : ℕ) (s : FlowScans) → get nat_cmp scans q ≡ Some s → AreOf text.items reach s },
}

/// Its text, its reach, and whether it failed; not what it keeps of flows.
impl fmt::Debug for ScanStage {
    fn fmt<W: fmt::Write>(&self, f: &mut fmt::Formatter<W>) -> fmt::Result {
        f.debug_struct("ScanStage")
            .field("text", &self.text)
            .field("reach", &self.reach)
            .field("failed", &self.failed)
            .finish_non_exhaustive()
    }
}

impl ScanStage {
    ghost use Rattle.std.specs.Prelude.{ℕ, ◌≡◌, [], ◌∷◌, ◌++◌, List, Some, None, IsSome, OnOk};
    ghost use Rattle.brick_spec.specs.Flow.{Flow};
    ghost use Rattle.brick_spec.specs.FlowStage.{FlowItem};
    ghost use Rattle.brick_base.specs.Flow.{dir_view};
    ghost use Rattle.batch_ops.specs.Treat.{Treats};
    ghost use Rattle.read_row.specs.Read.{treated};
    ghost use Rattle.flow_spec.specs.FlowStream as streams;
    ghost use Rattle.flow_spec.specs.Scan.{is_found};
    ghost use Rattle.window_stream.specs.Answers.{segment_of};
    ghost use Rattle.scan_stage.specs.ScanKind.{ScanFits, OthersKept, IsSameStage, scan_kind};

    /// The stage of a text, to which nothing came.
    pub fn new(alloc: Global, text: &[u8], reach: u32) -> Result<ScanStage, NoMemory>
        requires text { (1 ≤ length text.now) × (length text.now ≤ 64) }
        requires reach { (1460 ≤ reach) × (reach ≤ 1048576) }
        ensures text { IfOk result (λ s. s.text.items ≡ text.now) }
        ensures reach { IfOk result (λ s. s.reach ≡ reach) }
        ensures begins { IfOk result (λ s. (flow : Flow) → ScanFits s flow.number []) }
        ensures works { IfOk result (λ s. s.failed ≡ false) }
    {
        let text = text.to_vec(alloc)?;
        Ok(ScanStage {
            text,
            reach,
            failed: false,
            alloc,
            scans: BTreeMap::new(alloc),
        })
    }

    /// The flow has its scans from now on.
    fn open(&mut self, flow: u32) -> Result<(), NoMemory>
        ensures there { OnOk result (IsSome (get nat_cmp self.new.scans flow)) }
        ensures fits { OnOk result ((items : List FlowItem) → ScanFits self.old flow items
            → ScanFits self.new flow items) }
        ensures others { OthersKept self.old self.new flow }
        ensures same { IsSameStage self.old self.new }
    {
        if self.scans.contains_key(&flow) {
            return Ok(());
        }
        let scans = FlowScans::new(self.alloc, &self.text, self.reach)?;
        self.scans.insert(flow, scans)?;
        Ok(())
    }

    /// Takes a segment of a flow in, and answers whether one of its two streams contains the text.
    fn take(&mut self, flow: u32, dir: Dir, segment: Segment<'_>) -> Result<bool, NoMemory>
        ensures ok { (items : List FlowItem) (x : FlowItem) → ScanFits self.old flow items → x.dir ≡ dir_view dir
            → streams.segment_of x.item ≡ Some (segment_of segment.entry)
            → IfOk result (λ found. (found ≡ is_found self.old.text.items self.old.reach (items ++ x ∷ []))
            × ScanFits self.new flow (items ++ x ∷ [])) }
        ensures others { OthersKept self.old self.new flow }
        ensures same { IsSameStage self.old self.new }
    {
        self.open(flow)?;
        let Some(scans) = self.scans.get_mut(&flow) else {
            // They are there since the call before.
            return Err(NoMemory);
        };
        scans.take(dir, segment)
    }

    /// Looks for the text in the streams of a packet's flow, that of the packet with its segment.
    fn scan_packet<P: Proto>(
        &mut self,
        class: &Class,
        packet: &Packet<P>,
    ) -> Result<(), Option<Reason>>
        ensures { Treats scan_kind self.old self.new class.now packet.now (treated result packet.now) }
    {
        if self.failed {
            return Err(None);
        }
        let Some(segment) = segment_in(packet.frame()) else {
            return Ok(());
        };
        match self.take(class.flow, class.dir, segment) {
            Ok(found) => {
                if found {
                    Err(Some(Reason::Filter))
                } else {
                    Ok(())
                }
            }
            Err(NoMemory) => {
                self.failed = true;
                Err(None)
            }
        }
    }
}

impl TreatRead for ScanStage {
    ghost use Rattle.scan_stage.specs.ScanKind.{scan_kind};

    ghost kind = { scan_kind };

    fn treat_read(&mut self, class: &Class, packet: &mut ReadPacket) -> Result<(), Option<Reason>> {
        self.scan_packet(class, &packet.packet)
    }

    fn treat_other(&mut self, class: &Class, packet: &Packet<Raw>) -> Result<(), Option<Reason>> {
        self.scan_packet(class, packet)
    }

    ghost no_rest = { λ _ _ _ _. refl };
}

impl Treat for ScanStage {
    ghost kind = { ⟦<ScanStage as TreatRead>⟧.kind };

    fn treat(&mut self, class: &Class, packet: Packet<Raw>) -> Result<Packet<Raw>, Dropped> {
        treat_packet(self, class, packet)
    }

    ghost no_rest = { λ _ _ _ _. refl };
}

impl Operator for ScanStage {
    ghost use Rattle.batch_ops.specs.Treat.{as_operator};

    ghost meaning = { as_operator ⟦<ScanStage as Treat>⟧.kind };

    fn step(&mut self, class: &Class, p: Packet<Raw>, out: &mut Outlet) -> Result<(), NoMemory> {
        let treated = self.treat(class, p);
        out.settle(class.dir, treated)
    }

    fn end(&mut self, _class: &Class, _records: u32, _out: &mut Outlet) -> Result<(), NoMemory> {
        if self.failed {
            return Err(NoMemory);
        }
        Ok(())
    }
}
