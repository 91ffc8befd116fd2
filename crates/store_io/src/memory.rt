ghost use Rattle.std.specs.Prelude.{◌↔◌, IsTrue, IfOk, IsErrOf, IsErr, option_copied, ◌≡◌, ◌≢◌, ◌⊎◌, ◌+◌, ◌/◌, ◌++◌};
ghost use Rattle.std.specs.Prelude.{◌∷◌, ◌≤◌, [], List, ℕ, String, Some, None, IsSomeAnd, length, take, true, IfSome};
ghost use Rattle.std.specs.Prelude.{IfNone, OnOk, OnErr};
ghost use Rattle.brick_spec.specs.Files.{AllStay, Appends, GivesFrom, IsReading, IsWriting, OthersStay};
ghost use Rattle.std.specs.declared.alloc.Global.{Global};
ghost use Rattle.store_io.specs.Calls.{Reads, Creates, AppendsTo};
ghost use Rattle.store_io.specs.Faults.{Counted, CountsOne, CountsFailed, FailsWhere, HasCauseAt};
ghost use Rattle.store_io.specs.Memory.{held, failures, AreDistinct, GivesMost, IsPlace};

use crate::{IoFault, Store};
use brick_base::NoMemory;
use std::alloc::{AllocError, Global};

/// The place of the first file of this name.
fn place_of(files: &[(String, Vec<u8>)], name: &str) -> Option<usize>
    ensures found { IfSome result (IsPlace files.now name.now) }
    ensures none { IfNone result (held files.now name.now ≡ None) }
{
    for (i, file) in files.iter().enumerate() {
        if file.0.as_str() == name {
            return Some(i);
        }
    }
    None
}

/// Makes the file, or empties it.
fn empty(alloc: Global, files: &mut Vec<(String, Vec<u8>)>, name: &str) -> Result<(), AllocError>
    ensures ok { OnOk result (held files.new.items name.now ≡ Some []) }
    ensures others { OthersStay name.now (held files.old.items) (held files.new.items) }
    ensures err { OnErr result (AllStay (held files.old.items) (held files.new.items)) }
{
    match place_of(files, name) {
        Some(i) => files[i].1.clear(),
        None => files.push((String::from_str(alloc, name)?, Vec::new(alloc)))?,
    }
    Ok(())
}

/// Puts the bytes behind the file's, and makes one that is missing.
fn add(
    alloc: Global,
    files: &mut Vec<(String, Vec<u8>)>,
    name: &str,
    bytes: &[u8],
) -> Result<(), AllocError>
    ensures ok { OnOk result (Appends name.now bytes.now (held files.old.items) (held files.new.items)) }
    ensures others { OthersStay name.now (held files.old.items) (held files.new.items) }
    ensures err { OnErr result (AllStay (held files.old.items) (held files.new.items)) }
{
    match place_of(files, name) {
        Some(i) => files[i].1.extend_from_slice(bytes)?,
        None => files.push((
            String::from_str(alloc, name)?,
            Vec::from_slice(alloc, bytes)?,
        ))?,
    }
    Ok(())
}

/// Counts a fault of the account on the name, where there is memory for it.
fn note(
    alloc: Global,
    log: &mut Vec<(u32, String)>,
    account: u32,
    name: &str,
) -> Result<(), AllocError>
    ensures counted { OnOk result (Counted account name.now (failures log.old.items) (failures log.new.items)) }
    ensures one { OnOk result (CountsOne account name.now (failures log.old.items) (failures log.new.items)) }
    ensures last { OnOk result ((entry : ℕ × String Global) × (log.new.items ≡ log.old.items ++ entry ∷ [])) }
    ensures err { OnErr result (log.new.items ≡ log.old.items) }
{
    log.push((account, String::from_str(alloc, name)?))?;
    Ok(())
}

/// Fills the buffer from the place on, as far as there are bytes.
fn give(bytes: &[u8], at: u64, into: &mut [u8]) -> usize
    ensures fits { result ≤ length into.new }
    ensures gives { GivesFrom bytes.now at into.new result }
    ensures most { GivesMost bytes.now at into.old into.new result }
{
    let start = if at < bytes.len() as u64 {
        at as usize
    } else {
        bytes.len()
    };
    let rest = &bytes[start..];
    let count = rest.len().min(into.len());
    into[..count].copy_from_slice(&rest[..count]);
    count
}

/// Files in memory. Its calls are numbered from 0, and those whose numbers were listed fail.
#[derive(Debug, Drop)]
pub struct MemStore {
    alloc: Global,
    files: Vec<(String, Vec<u8>)>,
    fails: Vec<u32>,
    calls: u64,
    log: Vec<(u32, String)>,
}

impl MemStore {
    ghost use Rattle.store_io.specs.MemStore.{mem_files, mem_faults, mem_calls, mem_fails, IsToFail, TakesNumber};

    /// A store that has these files, each as its name and its bytes. Its calls whose numbers are in `fails` fail.
    pub fn new(
        alloc: Global,
        files: Vec<(String, Vec<u8>)>,
        fails: Vec<u32>,
    ) -> Result<MemStore, NoMemory>
        requires { AreDistinct files.items }
        ensures files { IfOk result (λ s. mem_files s ≡ held files.items) }
        ensures no_faults { IfOk result (λ s. (a : ℕ) (n : List ℕ) → mem_faults s a n ≡ 0) }
        ensures first { IfOk result (λ s. mem_calls s ≡ 0) }
        ensures fails { IfOk result (λ s. mem_fails s ≡ fails.items) }
    {
        Ok(MemStore {
            alloc,
            files,
            fails,
            calls: 0,
            log: Vec::new(alloc),
        })
    }

    /// The bytes of the file, where there is one of the name.
    pub fn file(&self, name: &str) -> Option<&[u8]>
        ensures { option_copied result ≡ mem_files self.now name.now }
    {
        let i = place_of(&self.files, name)?;
        Some(&self.files[i].1)
    }

    /// Takes the number of a call, and answers whether it is to fail.
    fn begins_to_fail(&mut self) -> bool
        ensures fails { IsTrue result ↔ IsToFail self.old }
        ensures next { TakesNumber self.old self.new }
        ensures files { self.new.files ≡ self.old.files }
        ensures log { self.new.log ≡ self.old.log }
    {
        let fails = self.fails.iter().any(|n| u64::from(*n) == self.calls);
        self.calls = self.calls.saturating_add(1);
        fails
    }
}

impl Store for MemStore {
    ghost use Rattle.std.specs.Prelude.{true};
    ghost use Rattle.store_io.specs.MemStore.{IsToFail, TakesNumber, mem_files, mem_faults};

    ghost tells = { true };

    ghost file = { mem_files };

    ghost faults = { mem_faults };

    fn read_at(
        &mut self,
        account: u32,
        name: &str,
        at: u64,
        into: &mut [u8],
    ) -> Result<usize, IoFault>
        requires { IsReading account }
        ensures fits { IfOk result (λ n. n ≤ length into.new) }
        ensures reads { Reads name.now at (mem_files self.old) (mem_files self.new) into.new result }
        ensures cause { HasCauseAt account name.now (mem_faults self.old) (mem_faults self.new) result }
        ensures fails { FailsWhere (IsToFail self.old ⊎ (mem_files self.old name.now ≡ None)) result }
        ensures most { IfOk result
            (λ n. IsSomeAnd (mem_files self.old name.now) (λ content. GivesMost content at into.old into.new n)) }
        ensures into { OnErr result (into.new ≡ into.old) }
        ensures counted { CountsFailed account name.now (mem_faults self.old) (mem_faults self.new) result }
        ensures number { TakesNumber self.old self.new }
    {
        let fails = self.begins_to_fail();
        match place_of(&self.files, name) {
            Some(i) if !fails => Ok(give(&self.files[i].1, at, into)),
            _ => {
                note(self.alloc, &mut self.log, account, name)?;
                Err(IoFault::Failed)
            }
        }
    }

    fn create(&mut self, account: u32, name: &str) -> Result<(), IoFault>
        requires { IsWriting account }
        ensures creates { Creates name.now (mem_files self.old) (mem_files self.new) result }
        ensures cause { HasCauseAt account name.now (mem_faults self.old) (mem_faults self.new) result }
        ensures fails { FailsWhere (IsToFail self.old) result }
        ensures unchanged { OnErr result (AllStay (mem_files self.old) (mem_files self.new)) }
        ensures counted { CountsFailed account name.now (mem_faults self.old) (mem_faults self.new) result }
        ensures number { TakesNumber self.old self.new }
    {
        if self.begins_to_fail() {
            note(self.alloc, &mut self.log, account, name)?;
            return Err(IoFault::Failed);
        }
        empty(self.alloc, &mut self.files, name)?;
        Ok(())
    }

    fn append(&mut self, account: u32, name: &str, bytes: &[u8]) -> Result<(), IoFault>
        requires { IsWriting account }
        ensures appends { AppendsTo name.now bytes.now (mem_files self.old) (mem_files self.new) result }
        ensures cause { HasCauseAt account name.now (mem_faults self.old) (mem_faults self.new) result }
        ensures fails { FailsWhere (IsToFail self.old) result }
        ensures half { IsErrOf result IoFault.Failed
            → Appends name.now (take (length bytes.now / 2) bytes.now) (mem_files self.old) (mem_files self.new) }
        ensures counted { CountsFailed account name.now (mem_faults self.old) (mem_faults self.new) result }
        ensures number { TakesNumber self.old self.new }
    {
        if self.begins_to_fail() {
            note(self.alloc, &mut self.log, account, name)?;
            if let Err(_) = add(self.alloc, &mut self.files, name, &bytes[..bytes.len() / 2]) {
                self.log.pop();
                return Err(IoFault::NoMemory);
            }
            return Err(IoFault::Failed);
        }
        add(self.alloc, &mut self.files, name, bytes)?;
        Ok(())
    }
}
