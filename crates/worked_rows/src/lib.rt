//! Worked examples of the definitions, computed by the checker.
//!
//! The crate stands on the crates of definitions alone. The rows stand in `specs/`, one module a subject, and each
//! function with an empty body has a table of them as its contract.
#![tactic(auto)]

ghost use Rattle.worked_rows.specs.ChainRows.{ChainRows};
ghost use Rattle.worked_rows.specs.GeneratedRows.{GeneratedRows};
ghost use Rattle.worked_rows.specs.EpochRows.{EpochRows};
ghost use Rattle.worked_rows.specs.GroupLaws.{SharingPicksTheFirst};
ghost use Rattle.worked_rows.specs.ReportRows.{ReportRows};
ghost use Rattle.worked_rows.specs.TenantRows.{Routed, CutFrameTranslated, Established, Translated, Overlaps, Wraps};
ghost use Rattle.worked_rows.specs.TenantRows.{BareFin, OneOutput, Big, InnerGroups, InnerGroupAfterNat, Scanned};

/// Chain files, and what each gives: its chains, or its first fault.
pub fn chain_files()
    ensures { ChainRows }
{}

/// The first records of the generated capture, and the chain file beside it, which is accepted.
pub fn generated()
    ensures { GeneratedRows }
{}

/// A flow is of the last epoch that begins at or before its first record.
pub fn epochs()
    ensures { EpochRows }
{}

/// A frame of time to live 2 goes to the next hop with 1, and its header checksum is adjusted.
pub fn routed()
    ensures { Routed }
{}

/// A cut TCP frame is translated: its addresses, its port and both checksums change, and nothing else.
pub fn cut_frame_translated()
    ensures { CutFrameTranslated }
{}

/// A firewall with `established` lets the reply of an allowed record pass.
pub fn established()
    ensures { Established }
{}

/// Two flows go out by ports of their own, a reply comes back, and a third flow finds no port.
pub fn translated()
    ensures { Translated }
{}

/// Segments that overlap: of each position the earliest byte is told, in windows and in the rest.
pub fn overlaps()
    ensures { Overlaps }
{}

/// Sequence numbers past 2^32: one window, and no rest.
pub fn wraps()
    ensures { Wraps }
{}

/// A FIN with payload leaves a bare segment, and its payload comes at the end.
pub fn bare_fin()
    ensures { BareFin }
{}

/// Two groups with one output: its items stand in the order of keys.
pub fn one_output()
    ensures { OneOutput }
{}

/// A record longer than the buffers is Big, and is classified all the same.
pub fn big()
    ensures { Big }
{}

/// A group with a window and groups in it: the window goes to the inner group that it meets.
pub fn inner_groups()
    ensures { InnerGroups }
{}

/// An inner group is picked by the frame as the stages before it left it.
pub fn inner_group_after_nat()
    ensures { InnerGroupAfterNat }
{}

/// A text that two segments make together stops its flow.
pub fn scanned()
    ensures { Scanned }
{}

/// The lines of a report, and the text of the refused records.
pub fn report()
    ensures { ReportRows }
{}

/// A law: sharing a flow among groups, group after group, is picking for each item the first group that takes it.
pub fn sharing_picks_the_first()
    ensures { SharingPicksTheFirst }
{}
