//! `bricks`: chains of packet functions over captures in the classic pcap format.
//!
//! `bricks [--workers N] run CHAINS OUT` runs the tenants of the chain file CHAINS and writes their files into the
//! folder OUT: each tenant over a lane of its own, with N workers, which is 1 to 16 and 1 where it is not said.
//! `bricks [--workers N] inline CHAINS OUT` does the same without lanes, and `bricks [--workers N] check CHAINS OUT`
//! reads the chain file alone. `bricks [--workers N] gen NUMBER OUT` makes a capture of the number and a chain file,
//! writes them into OUT, and runs them without lanes.
//!
//! The crate stands on `command_line` for the words, on `lane_runs`, `tenant_files` and `generated_files` for the
//! runs, and on `run_report` for what is told. What a run promises is defined in `run_spec`, and which promise a line
//! of the command has, in `specs/`. The contract of `run::run_words` carries all promises.
#![tactic(auto)]

ghost use Rattle.std.specs.Prelude.{◌≡◌};
ghost use Rattle.std.specs.Process.{exit_status};

pub mod check;
pub mod generated;
pub mod inline;
pub mod laws;
pub mod run;
#[cfg(test)]
mod tests;

use lane_table::TableKit;
use run::{run_words, tell_no_memory, tell_usage};
use std::env;
use std::io::ErrorKind;
use std::process::ExitCode;
use std::sync::Wait;
use std::thread::Threads;
use store_io::{FileStore, OutSink};

/// The words after the program's name, run over the files and the standard output of the system, with lanes on tables.
/// The answer is the exit status.
fn run_system<R: Threads + Wait + Sync>(rt: &HostRuntime, threads: &R) -> u8 {
    let mut out = OutSink::new(rt);
    let words = match env::args(rt) {
        Ok(args) => args.skip(1).collect::<Vec<String>>(rt.alloc()),
        Err(fault) if fault.kind() == ErrorKind::OutOfMemory => return tell_no_memory(&mut out),
        Err(_) => return tell_usage(rt.alloc(), &mut out),
    };
    let Ok(words) = words else {
        return tell_no_memory(&mut out);
    };
    let mut store = FileStore::new(rt);
    let mut kit = TableKit::new(rt.alloc());
    run_words(threads, rt.alloc(), &words, &mut store, &mut out, &mut kit)
}

/// The exit code of a status.
fn exit_code(status: u8) -> ExitCode
    ensures { exit_status result ≡ status }
{
    ExitCode::from(status)
}

/// Runs the words after the program's name over the files and the standard output of the system, and ends with the
/// answer.
fn main(rt: HostRuntime) -> ExitCode {
    exit_code(run_system(&rt, &rt))
}
