//! Our rules on the command's matches.

ghost use Rattle.std.specs.Prelude.{◌≡◌, ◌≤◌, IfSome, Some, None, option_map, if◌then◌else◌};
ghost use Rattle.clap.specs.Words.{first_of, found_of, rows_of};
ghost use Rattle.words_spec.specs.AcceptedWords as spec;
ghost use Rattle.command_line.specs.View.{mode_view, line_view, fitting_mode, IsModeOf};

use crate::generated::{generated_number, is_plain_folder};
use crate::{CommandLine, Mode};
use brick_base::number_of;
use clap::ArgMatches;

/// Mode `gen`, where CHAINS is a number and OUT a plain folder.
fn gen_of(chains: &str, out: &str) -> Option<Mode>
    ensures mode { option_map mode_view result
        ≡ (if spec.fits_mode spec.Gen chains.now out.now then Some spec.Gen else None) }
    ensures generated { IfSome result (λ m. IsModeOf m chains.now out.now) }
{
    let number = generated_number(chains)?;
    if is_plain_folder(out) {
        Some(Mode::Gen(number))
    } else {
        None
    }
}

/// The mode that a word names, where the two words behind it fit it.
fn mode_of(text: &str, chains: &str, out: &str) -> Option<Mode>
    ensures mode { option_map mode_view result ≡ fitting_mode text.now chains.now out.now }
    ensures generated { IfSome result (λ m. IsModeOf m chains.now out.now) }
{
    if text == "run" {
        Some(Mode::Run)
    } else if text == "inline" {
        Some(Mode::Inline)
    } else if text == "check" {
        Some(Mode::Check)
    } else if text == "gen" {
        gen_of(chains, out)
    } else {
        None
    }
}

/// The number of workers.
fn workers_of(text: &str) -> Option<u8>
    ensures number { result ≡ spec.workers_of text.now }
    ensures few { IfSome result (λ n. (1 ≤ n) × (n ≤ 16)) }
{
    let number = number_of(16, text)?;
    if number >= 1 {
        Some(number as u8)
    } else {
        None
    }
}

/// The text of an argument.
fn text_of<'a>(matches: &ArgMatches<'a>, id: &str) -> Option<&'a str>
    ensures { option_map (λ s. s.now) result ≡ first_of id.now (rows_of (found_of matches.now)) }
{
    matches.get_str(id)
}

/// The line that the matches are.
#[tactic(auto, unfolding(words_spec::specs::AcceptedWords::line_in))]
pub(crate) fn line_in<'a>(matches: &ArgMatches<'a>) -> Option<CommandLine<'a>>
    ensures line { option_map line_view result ≡ spec.line_in (rows_of (found_of matches.now)) }
    ensures workers { IfSome result (λ l. (1 ≤ l.workers) × (l.workers ≤ 16)) }
    ensures generated { IfSome result (λ l. IsModeOf l.mode l.chains.now l.out.now) }
{
    let text = text_of(matches, "MODE")?;
    let workers = workers_of(text_of(matches, "workers")?)?;
    let chains = text_of(matches, "CHAINS")?;
    let out = text_of(matches, "OUT")?;
    let mode = mode_of(text, chains, out)?;
    Some(CommandLine {
        mode,
        workers,
        chains,
        out,
    })
}
