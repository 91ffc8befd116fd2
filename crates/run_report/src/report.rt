//! How a run ends, and the text that tells it.
ghost use Rattle.std.specs.Prelude.{◌≡◌, ◌++◌, ℕ, List, IfOk, OnOk, flat_map, map, codes, decimal, string_bytes};
ghost use Rattle.std.specs.Prelude.{length, is_some};
ghost use Rattle.std.specs.List.{list_all};
ghost use Rattle.run_spec.specs.Report as spec;
ghost use Rattle.chain_text.specs.Gives.{seen};
ghost use Rattle.run_report.specs.View.{refusal_view, tally_view, output_view, end_view, line_view, refused_view};
ghost use Rattle.run_report.specs.View.{outcome_view};

use crate::refusal::{Refusal, refusal_text};
use brick_base::{Name, NoMemory};
use chain_text::{ChainFault, fault_text};
use lpm_fw::RouteFault;
use std::alloc::Global;

/// An output by its name, and how many items it has.
#[derive(Debug, Drop)]
pub struct Output {
    pub name: Name,
    pub items: u64,
}

/// What is counted of a tenant.
#[derive(Debug, Drop)]
pub struct Tally {
    /// How many records were accepted.
    pub accepted: u32,
    /// How many records were refused.
    pub refused: u32,
    /// How many items were dropped, by their reasons, in the order of `Reason`.
    pub drops: [u32; 9],
    pub outputs: Vec<Output>,
}

/// What became of a tenant.
#[derive(Debug, Drop)]
pub enum TenantEnd {
    /// Its files are written.
    Done(Tally),
    /// Its capture has more bytes than are read.
    TooLong,
    /// Its capture was read to its end, and is not whole.
    BadCapture(Refusal),
    /// Reading its capture failed.
    ReadFault,
    /// Writing one of its files failed.
    WriteFault,
}

/// What is told of a tenant.
#[derive(Debug, Drop)]
pub struct Line {
    pub name: Name,
    pub end: TenantEnd,
}

/// How a run ends.
#[derive(Debug, Drop)]
pub enum Outcome {
    /// The words are no line.
    Usage,
    /// The chain file was read and is not accepted. This is its first fault, or memory ran out before it was found.
    ChainsRefused(ChainFault),
    /// Reading the chain file failed.
    StoreFault,
    /// Memory ran out.
    NoMemory,
    /// The chain file is accepted. These are the names of its tenants, which are not run.
    Checked(Vec<Name>),
    /// A line for each tenant.
    Reported(Vec<Line>),
}

/// How many records there are, and how many were accepted and refused.
#[tactic(auto, unfolding(run_spec::specs::Report::records_text))]
fn records_text(alloc: Global, tally: &Tally) -> Result<String, NoMemory>
    ensures { IfOk result (λ text. string_bytes text ≡ spec.records_text (tally_view tally.now)) }
{
    let accepted = tally.accepted;
    let refused = tally.refused;
    let records = u64::from(accepted) + u64::from(refused) + u64::from(tally.drops[0]);
    let text = format!(in alloc; " done records={records} accepted={accepted} refused={refused}")?;
    Ok(text)
}

/// Three labels, each with its count.
fn three_counts(
    alloc: Global,
    labels: (&str, &str, &str),
    counts: (u32, u32, u32),
) -> Result<String, NoMemory>
    ensures { IfOk result (λ text. string_bytes text
        ≡ labels.entry.0.now ++ (decimal counts.0
        ++ (labels.entry.1.now ++ (decimal counts.1 ++ (labels.entry.2.now ++ decimal counts.2))))) }
{
    let (first, second, third) = labels;
    let (a, b, c) = counts;
    let text = format!(in alloc; "{first}{a}{second}{b}{third}{c}")?;
    Ok(text)
}

/// How many items were dropped for each reason.
#[tactic(auto, unfolding(run_spec::specs::Report::drops_text))]
fn drops_text(alloc: Global, drops: &[u32; 9]) -> Result<String, NoMemory>
    ensures { IfOk result (λ text. string_bytes text ≡ spec.drops_text drops.now) }
{
    let first = three_counts(
        alloc,
        (" Big=", " Unparsed=", " Fire="),
        (drops[0], drops[1], drops[2]),
    )?;
    let second = three_counts(
        alloc,
        (" NoRoute=", " Ttl=", " NatFull="),
        (drops[3], drops[4], drops[5]),
    )?;
    let third = three_counts(
        alloc,
        (" Filter=", " NoGroup=", " Reach="),
        (drops[6], drops[7], drops[8]),
    )?;
    let text = format!(in alloc; "{first}{second}{third}")?;
    Ok(text)
}

/// Puts the output's name and its number of items behind the text.
fn push_output(alloc: Global, text: &mut String, output: &Output) -> Result<(), NoMemory>
    ensures { OnOk result (string_bytes text.new
        ≡ string_bytes text.old ++ spec.output_count_text (output_view output.now)) }
{
    let name = output.name.as_str();
    let items = output.items;
    let count = format!(in alloc; " /{name}={items}")?;
    text.push_str(count.as_str())?;
    Ok(())
}

/// Puts the outputs behind the text.
fn push_outputs(alloc: Global, text: &mut String, outputs: &[Output]) -> Result<(), NoMemory>
    ensures { OnOk result (string_bytes text.new
        ≡ string_bytes text.old ++ flat_map spec.output_count_text (map output_view outputs.now)) }
{
    for output in outputs {
        push_output(alloc, text, output)?;
    }
    Ok(())
}

/// Puts a word behind the text.
fn push_word(text: &mut String, word: &str) -> Result<(), NoMemory>
    ensures { OnOk result (string_bytes text.new ≡ string_bytes text.old ++ word.now) }
{
    text.push_str(word)?;
    Ok(())
}

/// Puts the fault of a capture behind the text.
fn push_bad_capture(alloc: Global, text: &mut String, refusal: Refusal) -> Result<(), NoMemory>
    ensures { OnOk result (string_bytes text.new
        ≡ string_bytes text.old ++ (codes " bad-capture" ++ spec.fault_text (refusal_view refusal))) }
{
    let fault = refusal_text(alloc, refusal)?;
    let words = format!(in alloc; " bad-capture{fault}")?;
    text.push_str(words.as_str())?;
    Ok(())
}

/// Puts the end of a tenant's line behind the text.
fn push_end(alloc: Global, text: &mut String, end: &TenantEnd) -> Result<(), NoMemory>
    ensures { OnOk result (string_bytes text.new ≡ string_bytes text.old ++ spec.end_text (end_view end.now)) }
{
    match end {
        TenantEnd::Done(tally) => {
            let records = records_text(alloc, tally)?;
            text.push_str(records.as_str())?;
            let drops = drops_text(alloc, &tally.drops)?;
            text.push_str(drops.as_str())?;
            push_outputs(alloc, text, &tally.outputs)
        }
        TenantEnd::TooLong => push_word(text, " too-long"),
        TenantEnd::BadCapture(refusal) => push_bad_capture(alloc, text, *refusal),
        TenantEnd::ReadFault => push_word(text, " read-fault"),
        TenantEnd::WriteFault => push_word(text, " write-fault"),
    }
}

/// Puts a tenant's line behind the text.
fn push_line(alloc: Global, text: &mut String, line: &Line) -> Result<(), NoMemory>
    ensures { OnOk result (string_bytes text.new ≡ string_bytes text.old ++ spec.line_text (line_view line.now)) }
{
    text.push_str(line.name.as_str())?;
    push_end(alloc, text, &line.end)?;
    text.push_str("\n")?;
    Ok(())
}

/// The report of the tenants.
fn report_text(alloc: Global, lines: &[Line]) -> Result<String, NoMemory>
    ensures { IfOk result (λ text. string_bytes text ≡ flat_map spec.line_text (map line_view lines.now)) }
{
    let mut text = String::new(alloc);
    for line in lines {
        push_line(alloc, &mut text, line)?;
    }
    Ok(text)
}

/// Puts the line of a tenant that is not run behind the text.
fn push_ok(text: &mut String, name: &str) -> Result<(), NoMemory>
    ensures { OnOk result (string_bytes text.new ≡ string_bytes text.old ++ spec.ok_text name.now) }
{
    text.push_str(name)?;
    text.push_str(" ok\n")?;
    Ok(())
}

/// The report of the tenants that are not run.
fn names_text(alloc: Global, names: &[Name]) -> Result<String, NoMemory>
    ensures { IfOk result (λ text. string_bytes text ≡ flat_map spec.ok_text names.now) }
{
    let mut text = String::new(alloc);
    for name in names {
        push_ok(&mut text, name.as_str())?;
    }
    Ok(text)
}

/// Whether the first fault of a chain file was found.
fn is_found(fault: &ChainFault) -> bool
    ensures { result ≡ is_some (seen fault.now) }
{
    match fault {
        ChainFault::NoMemory
        | ChainFault::Route {
            fault: RouteFault::NoMemory,
            ..
        } => false,
        ChainFault::NotToml
        | ChainFault::Missing { .. }
        | ChainFault::Unknown { .. }
        | ChainFault::Range { .. }
        | ChainFault::Name { .. }
        | ChainFault::SecondWindow { .. }
        | ChainFault::Route {
            fault: RouteFault::SamePrefix { .. } | RouteFault::HostBits { .. },
            ..
        }
        | ChainFault::TooManyTenants { .. }
        | ChainFault::Collides { .. }
        | ChainFault::TooLong => true,
    }
}

/// The line of a chain file's first fault, or that of want of memory where it was not found.
#[tactic(auto, using(crate::proofs::Refused::text_known, crate::proofs::Refused::text_none))]
fn refused_text(alloc: Global, fault: &ChainFault) -> Result<String, NoMemory>
    ensures { IfOk result (λ text. string_bytes text ≡ spec.outcome_text (refused_view (seen fault.now))) }
{
    if !is_found(fault) {
        let text = String::from_str(alloc, "out of memory\n")?;
        return Ok(text);
    }
    let text = fault_text(alloc, fault)?;
    Ok(text)
}

/// The text that tells the outcome.
pub fn outcome_text(alloc: Global, outcome: &Outcome) -> Result<String, NoMemory>
    ensures { IfOk result (λ text. string_bytes text ≡ spec.outcome_text (outcome_view outcome.now)) }
{
    let text = match outcome {
        Outcome::Usage => "usage: bricks [--workers N] MODE CHAINS OUT\n",
        Outcome::StoreFault => "store-fault\n",
        Outcome::NoMemory => "out of memory\n",
        Outcome::ChainsRefused(fault) => return refused_text(alloc, fault),
        Outcome::Checked(names) => return names_text(alloc, names),
        Outcome::Reported(lines) => return report_text(alloc, lines),
    };
    let text = String::from_str(alloc, text)?;
    Ok(text)
}

/// Whether the tenant's files are written.
fn is_done(line: &Line) -> bool
    ensures { result ≡ spec.is_done (line_view line.now) }
{
    matches!(line.end, TenantEnd::Done(_))
}

/// Whether every tenant's files are written.
fn all_done(lines: &[Line]) -> bool
    ensures { result ≡ list_all spec.is_done (map line_view lines.now) }
{
    for line in lines {
        if !is_done(line) {
            return false;
        }
    }
    true
}

/// The exit status of a chain file that is not accepted, or of want of memory where its first fault was not found.
#[tactic(auto, using(crate::proofs::Refused::status_known))]
fn status_of_refused(fault: &ChainFault) -> u8
    ensures { result ≡ spec.status_of (refused_view (seen fault.now)) }
{
    if is_found(fault) { 3 } else { 6 }
}

/// The exit status of the outcome, where its text was written.
pub fn status_of(outcome: &Outcome) -> u8
    ensures { result ≡ spec.status_of (outcome_view outcome.now) }
{
    match outcome {
        Outcome::Usage => 2,
        Outcome::ChainsRefused(fault) => status_of_refused(fault),
        Outcome::StoreFault => 4,
        Outcome::NoMemory => 6,
        Outcome::Checked(_) => 0,
        Outcome::Reported(lines) => { if all_done(lines) { 0 } else { 1 } }
    }
}
