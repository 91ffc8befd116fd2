//! The top calls.
ghost use Rattle.std.specs.Prelude.{◌≡◌, ◌≢◌, ◌≤◌, ◌↔◌, List, ℕ, Some, IsTrue, map, string_bytes, codes};
ghost use Rattle.words_spec.specs.AcceptedWords.{Inline, Check, Run, Gen, Line, line_of, IsLine, generated_number};
ghost use Rattle.brick_spec.specs.Cause.{Rose};
ghost use Rattle.brick_spec.specs.Files.{AppendsFront};
ghost use Rattle.run_spec.specs.Report.{Usage, HasReport};
ghost use Rattle.run_spec.specs.Seen.{printed, seen};
ghost use Rattle.run_spec.specs.Told.{Told, Shown, CommandLinePromise, UsagePromise};
ghost use Rattle.run_spec.specs.Inline.{InlinePromises};
ghost use Rattle.run_spec.specs.Check.{CheckPromises};
ghost use Rattle.run_spec.specs.Generator.{GeneratorPromises};
ghost use Rattle.run_spec.specs.Lanes.{RunPromises};
ghost use Rattle.bricks_main.specs.Lines.{LinePromises};
ghost use Rattle.run_report.specs.View.{outcome_view};
ghost use Rattle.command_line.specs.View.{line_view, IsModeOf};

use crate::check::check_files;
use crate::generated::run_gen;
use crate::inline::run_files;
use brick_base::NoMemory;
use command_line::{CommandLine, Mode, read_words};
use lane_core::LaneKit;
use run_report::{Outcome, outcome_text, status_of};
use std::alloc::Global;
use std::sync::Wait;
use std::thread::Threads;
use store_io::{IoFault, Sink, Store};

/// Whether the outcome has lines of the tenants.
fn has_report(outcome: &Outcome) -> bool
    ensures { IsTrue result ↔ HasReport (outcome_view outcome.now) }
{
    matches!(outcome, Outcome::Reported(_) | Outcome::Checked(_))
}

/// Tells that memory ran out. The answer is the exit status 6.
pub fn tell_no_memory<P: Sink>(sink: &mut P) -> u8
    ensures status { result ≡ 6 }
    ensures shown { IsTrue P.tells → AppendsFront (codes "out of memory\n") (P.written sink.old) (P.written sink.new) }
{
    match sink.write(b"out of memory\n") {
        Ok(()) | Err(IoFault::Failed) | Err(IoFault::NoMemory) => 6,
    }
}

/// Tells the outcome by its text. A report whose write fails gives 5, and want of memory 6.
pub(crate) fn tell<P: Sink>(alloc: Global, sink: &mut P, outcome: &Outcome) -> u8
    ensures told { Told (outcome_view outcome.now) result }
    ensures fault { result ≡ 5 → Rose (P.faults sink.old) (P.faults sink.new) }
    ensures shown { IsTrue P.tells
        → Shown (outcome_view outcome.now) (printed (P.written sink.old) (P.faults sink.old))
        (printed (P.written sink.new) (P.faults sink.new)) result }
{
    let Ok(text) = outcome_text(alloc, outcome) else {
        return tell_no_memory(sink);
    };
    match sink.write(text.as_bytes()) {
        Ok(()) => status_of(outcome),
        Err(IoFault::NoMemory) => 6,
        Err(IoFault::Failed) => {
            if has_report(outcome) {
                5
            } else {
                status_of(outcome)
            }
        }
    }
}

/// Tells how the program is used, for words that are no line. The answer is the exit status 2, or 6 where memory ran
/// out.
pub fn tell_usage<P: Sink>(alloc: Global, sink: &mut P) -> u8
    ensures told { Told Usage result }
    ensures shown { IsTrue P.tells
        → Shown Usage (printed (P.written sink.old) (P.faults sink.old))
        (printed (P.written sink.new) (P.faults sink.new)) result }
{
    tell(alloc, sink, &Outcome::Usage)
}

/// Runs the tenants of the chain file `chains`, writes their files into the folder `out_dir`, and gives the report to
/// `out`. The answer is the exit status.
pub fn run_inline<S: Store, P: Sink>(
    alloc: Global,
    chains: &str,
    out_dir: &str,
    store: &mut S,
    out: &mut P,
) -> u8
    ensures { InlinePromises (IsTrue S.tells) (IsTrue P.tells) chains.now out_dir.now
        (seen (S.file store.old) (S.faults store.old) (P.written out.old) (P.faults out.old))
        (seen (S.file store.new) (S.faults store.new) (P.written out.new) (P.faults out.new)) result }
{
    let outcome = run_files(alloc, store, chains, out_dir);
    tell(alloc, out, &outcome)
}

/// Reads the chain file `chains`, for the folder `out_dir`, and tells `out` whether it is accepted. No file is made or
/// changed. The answer is the exit status.
pub fn run_check<S: Store, P: Sink>(
    alloc: Global,
    chains: &str,
    out_dir: &str,
    store: &mut S,
    out: &mut P,
) -> u8
    ensures { CheckPromises (IsTrue S.tells) (IsTrue P.tells) chains.now out_dir.now
        (seen (S.file store.old) (S.faults store.old) (P.written out.old) (P.faults out.old))
        (seen (S.file store.new) (S.faults store.new) (P.written out.new) (P.faults out.new)) result }
{
    let outcome = check_files(alloc, store, chains, out_dir);
    tell(alloc, out, &outcome)
}

/// Runs the tenants of the chain file `chains` over lanes and so many workers, writes their files into the folder
/// `out_dir`, and gives the report to `out`. The answer is the exit status. The lanes are those of the kit, and are
/// shut when it is given.
pub fn run_lanes<S: Store, P: Sink, K: LaneKit, R: Threads + Wait + Sync>(
    rt: &R,
    alloc: Global,
    chains: &str,
    out_dir: &str,
    workers: u8,
    store: &mut S,
    out: &mut P,
    kit: &mut K,
) -> u8
    requires workers { (1 ≤ workers) × (workers ≤ 16) }
    ensures run { RunPromises (IsTrue S.tells) (IsTrue P.tells) chains.now out_dir.now workers
        (seen (S.file store.old) (S.faults store.old) (P.written out.old) (P.faults out.old))
        (seen (S.file store.new) (S.faults store.new) (P.written out.new) (P.faults out.new)) (K.books kit.old) (K.books kit.new) result }
    ensures open_lanes { K.open_lanes kit.new ≡ K.open_lanes kit.old }
{
    let outcome = lane_runs::run_files::<S, K, R>(
        rt,
        alloc,
        store,
        kit,
        chains,
        out_dir,
        u32::from(workers),
    );
    tell(alloc, out, &outcome)
}

/// Does what a line says. The answer is the exit status.
fn run_line<S: Store, P: Sink, K: LaneKit, R: Threads + Wait + Sync>(
    rt: &R,
    alloc: Global,
    line: &CommandLine<'_>,
    store: &mut S,
    out: &mut P,
    kit: &mut K,
) -> u8
    requires workers { (1 ≤ line.now.workers) × (line.now.workers ≤ 16) }
    requires generated { IsModeOf line.now.mode line.now.chains.now line.now.out.now }
    ensures line { LinePromises (IsTrue S.tells) (IsTrue P.tells) (line_view line.now)
        (seen (S.file store.old) (S.faults store.old) (P.written out.old) (P.faults out.old))
        (seen (S.file store.new) (S.faults store.new) (P.written out.new) (P.faults out.new)) (K.books kit.old) (K.books kit.new) result }
    ensures open_lanes { K.open_lanes kit.new ≡ K.open_lanes kit.old }
{
    match line.mode {
        Mode::Run => run_lanes::<S, P, K, R>(
            rt,
            alloc,
            line.chains,
            line.out,
            line.workers,
            store,
            out,
            kit,
        ),
        Mode::Inline => run_inline(alloc, line.chains, line.out, store, out),
        Mode::Check => run_check(alloc, line.chains, line.out, store, out),
        Mode::Gen(number) => run_gen(alloc, number, line.out, store, out),
    }
}

/// Does what the words say, which are those after the program's name. The answer is the exit status. Mode `run` takes
/// its lanes from the kit; the other modes leave it as it is.
pub fn run_words<S: Store, P: Sink, K: LaneKit, R: Threads + Wait + Sync>(
    rt: &R,
    alloc: Global,
    words: &[String],
    store: &mut S,
    out: &mut P,
    kit: &mut K,
) -> u8
    ensures command_line { CommandLinePromise (IsTrue S.tells) (IsLine (map string_bytes words.now))
        (seen (S.file store.old) (S.faults store.old) (P.written out.old) (P.faults out.old))
        (seen (S.file store.new) (S.faults store.new) (P.written out.new) (P.faults out.new)) result }
    ensures usage { IsTrue P.tells → UsagePromise (IsLine (map string_bytes words.now))
        (seen (S.file store.old) (S.faults store.old) (P.written out.old) (P.faults out.old))
        (seen (S.file store.new) (S.faults store.new) (P.written out.new) (P.faults out.new)) result }
    ensures run { (line : Line) → line_of (map string_bytes words.now) ≡ Some line → line.mode ≡ Run
        → RunPromises (IsTrue S.tells) (IsTrue P.tells) line.chains line.out line.workers
        (seen (S.file store.old) (S.faults store.old) (P.written out.old) (P.faults out.old))
        (seen (S.file store.new) (S.faults store.new) (P.written out.new) (P.faults out.new)) (K.books kit.old) (K.books kit.new) result }
    ensures inline { (line : Line) → line_of (map string_bytes words.now) ≡ Some line → line.mode ≡ Inline
        → InlinePromises (IsTrue S.tells) (IsTrue P.tells) line.chains line.out
        (seen (S.file store.old) (S.faults store.old) (P.written out.old) (P.faults out.old))
        (seen (S.file store.new) (S.faults store.new) (P.written out.new) (P.faults out.new)) result }
    ensures check { (line : Line) → line_of (map string_bytes words.now) ≡ Some line → line.mode ≡ Check
        → CheckPromises (IsTrue S.tells) (IsTrue P.tells) line.chains line.out
        (seen (S.file store.old) (S.faults store.old) (P.written out.old) (P.faults out.old))
        (seen (S.file store.new) (S.faults store.new) (P.written out.new) (P.faults out.new)) result }
    ensures generated { (line : Line) (number : ℕ) → line_of (map string_bytes words.now) ≡ Some line → line.mode ≡ Gen
        → generated_number line.chains ≡ Some number
        → GeneratorPromises (IsTrue S.tells) (IsTrue P.tells) number line.out
        (seen (S.file store.old) (S.faults store.old) (P.written out.old) (P.faults out.old))
        (seen (S.file store.new) (S.faults store.new) (P.written out.new) (P.faults out.new)) result }
    ensures books { ((line : Line) → line_of (map string_bytes words.now) ≡ Some line → line.mode ≢ Run)
        → K.books kit.new ≡ K.books kit.old }
    ensures open_lanes { K.open_lanes kit.new ≡ K.open_lanes kit.old }
{
    match read_words(alloc, words) {
        Err(NoMemory) => tell_no_memory(out),
        Ok(Some(line)) => run_line::<S, P, K, R>(rt, alloc, &line, store, out, kit),
        Ok(None) => tell_usage(alloc, out),
    }
}
