//! The command's matches.

ghost use Rattle.std.specs.Prelude.{◌≡◌, IfOk, map, option_map, string_bytes};
ghost use Rattle.clap.specs.Words.{app_of, found_of, rows_of};
ghost use Rattle.words_spec.specs.AcceptedWords as spec;

use brick_base::NoMemory;
use clap::error::ErrorKind;
use clap::{Arg, ArgMatches, Command};
use std::alloc::{AllocError, Global};

/// `bricks [--workers N] MODE CHAINS OUT`.
fn command<'a>(alloc: Global) -> Result<Command<'a>, AllocError>
    ensures { IfOk result (λ c. app_of c ≡ spec.command) }
{
    let workers = Arg::new(alloc, "workers")
        .long("workers")
        .default_value("1");
    let mode = Arg::new(alloc, "MODE").required(true);
    let chains = Arg::new(alloc, "CHAINS").required(true);
    let out = Arg::new(alloc, "OUT").required(true);
    let named = Command::new(alloc, "bricks").no_binary_name(true);
    named.arg(workers)?.arg(mode)?.arg(chains)?.arg(out)
}

/// The matches, where they exist.
pub(crate) fn matches_of<'a>(
    alloc: Global,
    words: &'a [String],
) -> Result<Option<ArgMatches<'a>>, NoMemory>
    ensures { IfOk result (λ m. option_map (λ m. rows_of (found_of m)) m ≡ spec.rows (map string_bytes words.now)) }
{
    let Ok(bricks) = command(alloc) else {
        return Err(NoMemory);
    };
    match bricks.try_get_matches_from(words) {
        Ok(matches) => Ok(Some(matches)),
        Err(error) => match error.kind() {
            ErrorKind::OutOfMemory => Err(NoMemory),
            _ => Ok(None),
        },
    }
}
