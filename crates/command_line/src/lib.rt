//! The words that the program is called with: `bricks [--workers N] MODE CHAINS OUT`, read with `clap`.
//!
//! The crate stands on `brick_base`. Which words are a line is defined in `words_spec`, module `AcceptedWords`; which
//! line of the definitions a value of the code is, and some lines as laws, in `specs/`. The contract of `read_words`
//! carries the promise: the line that the words are, and none exactly where they are none.
#![tactic(auto)]

ghost use Rattle.std.specs.Prelude.{◌≡◌, ◌≤◌, IfOk, IfSome, map, option_map, string_bytes};
ghost use Rattle.words_spec.specs.AcceptedWords.{line_of};
ghost use Rattle.command_line.specs.View.{line_view, IsModeOf};
ghost use Rattle.command_line.specs.Laws.{Samples, PlainWords};

use brick_base::NoMemory;
use std::alloc::Global;

mod generated;
mod matches;
mod rules;
#[cfg(test)]
mod tests;

use matches::matches_of;
use rules::line_in;

/// What the program is to do.
#[derive(Clone, Copy, Debug, PartialEq, Eq)]
pub enum Mode {
    /// Runs the tenants over lanes and workers, and writes their files.
    Run,
    /// Runs the tenants without lanes, and writes their files.
    Inline,
    /// Reads the chain file alone.
    Check,
    /// Makes a capture of this number and a chain file, and runs them without lanes.
    Gen(u64),
}

/// A line of the command.
#[derive(Clone, Copy, Debug)]
pub struct CommandLine<'a> {
    pub mode: Mode,
    /// How many workers there are, 1 to 16.
    pub workers: u8,
    /// The name of the chain file, or in mode `gen` the number as it was written.
    pub chains: &'a str,
    /// The folder that is written to.
    pub out: &'a str,
}

/// The line that the words after the program's name are, and none exactly where they are no line. A request for help is
/// none.
pub fn read_words<'a>(
    alloc: Global,
    words: &'a [String],
) -> Result<Option<CommandLine<'a>>, NoMemory>
    ensures line { IfOk result (λ l. option_map line_view l ≡ line_of (map string_bytes words.now)) }
    ensures workers { IfOk result (λ l. IfSome l (λ l. (1 ≤ l.workers) × (l.workers ≤ 16))) }
    ensures generated { IfOk result (λ l. IfSome l (λ l. IsModeOf l.mode l.chains.now l.out.now)) }
{
    match matches_of(alloc, words)? {
        Some(matches) => Ok(line_in(&matches)),
        None => Ok(None),
    }
}

/// A law: some words that are a line, and some that are none.
pub fn samples()
    ensures { Samples }
{}

/// A law: three plain words behind `inline` are a line.
pub fn plain_words()
    ensures { PlainWords }
{}
