ghost use Rattle.std.specs.Prelude.{◌≡◌, ◌<◌, ◌≤◌, ℕ, List, [], None, length, take, drop, false, IsErrOf, IfOk, OnOk};
ghost use Rattle.std.specs.Prelude.{OnErr, slice_index, slice_set};
ghost use Rattle.std.specs.Io.KnownBytes.{Appends, Consumes, Keeps};
ghost use Rattle.store_io.specs.Faults.{Counted, HasCause, HasCauseAt};
ghost use Rattle.brick_spec.specs.Cause.{one_more};
ghost use Rattle.store_io.specs.Host.{CountsAccount, RaisesAccount, per_account};

use crate::{IoFault, Sink, Store};
use std::fs::OpenOptions;
use std::io::{ErrorKind, Read, Seek, SeekFrom, Write};
use std::rt::Files;
use std::{fmt, fs, io};

const ACCOUNTS: usize = 34;

/// How often a call that a signal interrupts is made before it counts as failed.
const TRIES: u32 = 1000;

/// One read that gives bytes or fails.
fn read_some<F: Read>(file: &mut F, into: &mut [u8]) -> io::Result<usize>
    ensures fits { IfOk result (λ n. n ≤ length into.new) }
    ensures given { IfOk result (λ n. Consumes (F.remaining file.old) (F.remaining file.new) (take n into.new)) }
{
    for _ in 0..TRIES {
        match file.read(into) {
            Ok(count) => return Ok(count),
            Err(error) => {
                if error.kind() != ErrorKind::Interrupted {
                    return Err(error);
                }
            }
        }
    }
    Err(ErrorKind::Interrupted.into())
}

/// One write that takes bytes or fails.
fn write_some<W: Write>(out: &mut W, bytes: &[u8]) -> io::Result<usize>
    ensures fits { IfOk result (λ n. n ≤ length bytes.now) }
    ensures taken { IfOk result (λ n. Appends (W.contents out.old) (W.contents out.new) (take n bytes.now)) }
{
    for _ in 0..TRIES {
        match out.write(bytes) {
            Ok(count) => return Ok(count),
            Err(error) => {
                if error.kind() != ErrorKind::Interrupted {
                    return Err(error);
                }
            }
        }
    }
    Err(ErrorKind::Interrupted.into())
}

/// Writes all the bytes, in as many writes as it takes.
fn write_all<W: Write>(out: &mut W, bytes: &[u8]) -> io::Result<()>
    ensures all { OnOk result (Appends (W.contents out.old) (W.contents out.new) bytes.now) }
{
    let mut rest = bytes;
    while !rest.is_empty() {
        let count = write_some(out, rest)?;
        if count == 0 {
            return Err(ErrorKind::WriteZero.into());
        }
        rest = rest.split_at(count).1;
    }
    Ok(())
}

/// Reads from the file once, from the place on.
fn read_from<R: Files>(rt: &R, name: &str, at: u64, into: &mut [u8]) -> io::Result<usize>
    ensures { IfOk result (λ n. n ≤ length into.new) }
{
    let mut file = fs::open(rt, name)?;
    file.seek(SeekFrom::Start(at))?;
    read_some(&mut file, into)
}

/// Makes the file, or empties it.
fn make<R: Files>(rt: &R, name: &str) -> io::Result<()> {
    fs::create(rt, name)?;
    Ok(())
}

/// Writes all the bytes at the end of the file, and makes one that is missing.
fn write_behind<R: Files>(rt: &R, name: &str, bytes: &[u8]) -> io::Result<()> {
    let mut file = OpenOptions::new().append(true).create(true).open(rt, name)?;
    write_all(&mut file, bytes)
}

/// Counts a fault of the account, on whichever of its names.
fn raise(counts: &mut [u64; ACCOUNTS], account: u32, _name: &str)
    requires { account < 34 }
    ensures counted { Counted account _name.now (per_account counts.old) (per_account counts.new) }
    ensures one { RaisesAccount account (per_account counts.old) (per_account counts.new) }
{
    let account = account as usize;
    counts[account] = counts[account].saturating_add(1);
}

/// Files of the system. It tells nothing of what they hold. Each account has one count of faults for all its names.
#[derive(Drop)]
pub struct FileStore<R: Files + Drop> {
    rt: R,
    counts: [u64; ACCOUNTS],
}

/// The counts of faults.
impl<R: Files + Drop> fmt::Debug for FileStore<R> {
    fn fmt<W: fmt::Write>(&self, f: &mut fmt::Formatter<W>) -> fmt::Result {
        f.debug_struct("FileStore")
            .field("counts", &self.counts)
            .finish_non_exhaustive()
    }
}

impl<R: Files + Drop> FileStore<R> {
    ghost use Rattle.store_io.specs.FileStore.{file_faults};

    /// The files that the runtime reaches, with no fault so far.
    pub fn new(rt: R) -> FileStore<R>
        ensures no_faults { (a : ℕ) (n : List ℕ) → file_faults result a n ≡ 0 }
    {
        FileStore {
            rt,
            counts: [0; ACCOUNTS],
        }
    }
}

impl<R: Files + Drop> Store for FileStore<R> {
    ghost use Rattle.std.specs.Prelude.{◌≡◌, ◌≤◌, IfOk, IsErrOf, OnOk, ℕ, List, None, false, length};
    ghost use Rattle.brick_spec.specs.Files.{IsReading, IsWriting};
    ghost use Rattle.store_io.specs.FileStore.{file_faults};

    ghost tells = { false };

    ghost file = { λ _ _. None };

    ghost faults = { file_faults };

    fn read_at(
        &mut self,
        account: u32,
        name: &str,
        at: u64,
        into: &mut [u8],
    ) -> Result<usize, IoFault>
        requires { IsReading account }
        ensures fits { IfOk result (λ n. n ≤ length into.new) }
        ensures cause { HasCauseAt account name.now (file_faults self.old) (file_faults self.new) result }
        ensures counted { CountsAccount account (file_faults self.old) (file_faults self.new) result }
    {
        match read_from(&self.rt, name, at, into) {
            Ok(count) => Ok(count),
            Err(_) => {
                raise(&mut self.counts, account, name);
                Err(IoFault::Failed)
            }
        }
    }

    fn create(&mut self, account: u32, name: &str) -> Result<(), IoFault>
        requires { IsWriting account }
        ensures cause { HasCauseAt account name.now (file_faults self.old) (file_faults self.new) result }
        ensures counted { CountsAccount account (file_faults self.old) (file_faults self.new) result }
    {
        match make(&self.rt, name) {
            Ok(()) => Ok(()),
            Err(_) => {
                raise(&mut self.counts, account, name);
                Err(IoFault::Failed)
            }
        }
    }

    fn append(&mut self, account: u32, name: &str, bytes: &[u8]) -> Result<(), IoFault>
        requires { IsWriting account }
        ensures cause { HasCauseAt account name.now (file_faults self.old) (file_faults self.new) result }
        ensures counted { CountsAccount account (file_faults self.old) (file_faults self.new) result }
    {
        match write_behind(&self.rt, name, bytes) {
            Ok(()) => Ok(()),
            Err(_) => {
                raise(&mut self.counts, account, name);
                Err(IoFault::Failed)
            }
        }
    }
}

/// The standard output. It tells nothing of what was written.
#[derive(Drop)]
pub struct OutSink<R: Print + Drop> {
    rt: R,
    faults: u64,
}

/// The count of faults.
impl<R: Print + Drop> fmt::Debug for OutSink<R> {
    fn fmt<W: fmt::Write>(&self, f: &mut fmt::Formatter<W>) -> fmt::Result {
        f.debug_struct("OutSink")
            .field("faults", &self.faults)
            .finish_non_exhaustive()
    }
}

impl<R: Print + Drop> OutSink<R> {
    ghost use Rattle.store_io.specs.OutSink.{out_faults};

    /// The standard output of the runtime, with no fault so far.
    pub fn new(rt: R) -> OutSink<R>
        ensures no_faults { out_faults result ≡ 0 }
    {
        OutSink { rt, faults: 0 }
    }
}

impl<R: Print + Drop> Sink for OutSink<R> {
    ghost use Rattle.std.specs.Prelude.{◌≡◌, IsErrOf, OnOk, [], false};
    ghost use Rattle.store_io.specs.OutSink.{out_faults};

    ghost tells = { false };

    ghost written = { λ _. [] };

    ghost faults = { out_faults };

    fn write(&mut self, bytes: &[u8]) -> Result<(), IoFault>
        ensures cause { HasCause (out_faults self.old) (out_faults self.new) result }
        ensures counted { IsErrOf result IoFault.Failed → out_faults self.new ≡ one_more (out_faults self.old) }
        ensures uncounted { OnOk result (out_faults self.new ≡ out_faults self.old) }
    {
        match write_all(&mut io::writer(&self.rt), bytes) {
            Ok(()) => Ok(()),
            Err(_) => {
                self.faults = self.faults.saturating_add(1);
                Err(IoFault::Failed)
            }
        }
    }
}
