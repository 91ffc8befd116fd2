ghost use Rattle.std.specs.Prelude.{◌≡◌, ◌/◌, ◌++◌, ◌↔◌, [], take, length, true, IsErrOf, IsTrue, OnOk};
ghost use Rattle.store_io.specs.Calls.{Writes};
ghost use Rattle.store_io.specs.Faults.{FailsWhere, HasCause};
ghost use Rattle.brick_spec.specs.Cause.{one_more};

use crate::{IoFault, Sink};
use std::alloc::Global;

/// A sink in memory. Its writes are numbered from 0, and those whose numbers were listed fail.
#[derive(Debug, Drop)]
pub struct MemSink {
    bytes: Vec<u8>,
    fails: Vec<u32>,
    writes: u64,
    faults: u64,
}

impl MemSink {
    ghost use Rattle.store_io.specs.MemSink.{mem_written, mem_sink_faults, mem_writes, mem_sink_fails, IsWriteToFail};
    ghost use Rattle.store_io.specs.MemSink.{TakesWrite};

    /// A sink to which nothing was written. Its writes whose numbers are in `fails` fail.
    pub fn new(alloc: Global, fails: Vec<u32>) -> MemSink
        ensures empty { mem_written result ≡ [] }
        ensures no_faults { mem_sink_faults result ≡ 0 }
        ensures first { mem_writes result ≡ 0 }
        ensures fails { mem_sink_fails result ≡ fails.items }
    {
        MemSink {
            bytes: Vec::new(alloc),
            fails,
            writes: 0,
            faults: 0,
        }
    }

    /// All that was written.
    pub fn bytes(&self) -> &[u8]
        ensures { result.now ≡ mem_written self.now }
    {
        &self.bytes
    }

    /// Takes the number of a write, and answers whether it is to fail.
    fn begins_to_fail(&mut self) -> bool
        ensures fails { IsTrue result ↔ IsWriteToFail self.old }
        ensures next { TakesWrite self.old self.new }
        ensures bytes { self.new.bytes ≡ self.old.bytes }
        ensures faults { self.new.faults ≡ self.old.faults }
    {
        let fails = self.fails.iter().any(|n| u64::from(*n) == self.writes);
        self.writes = self.writes.saturating_add(1);
        fails
    }
}

impl Sink for MemSink {
    ghost use Rattle.std.specs.Prelude.{true};
    ghost use Rattle.store_io.specs.MemSink.{mem_written, mem_sink_faults, IsWriteToFail, TakesWrite};

    ghost tells = { true };

    ghost written = { mem_written };

    ghost faults = { mem_sink_faults };

    fn write(&mut self, bytes: &[u8]) -> Result<(), IoFault>
        ensures writes { Writes bytes.now (mem_written self.old) (mem_written self.new) result }
        ensures cause { HasCause (mem_sink_faults self.old) (mem_sink_faults self.new) result }
        ensures fails { FailsWhere (IsWriteToFail self.old) result }
        ensures half { IsErrOf result IoFault.Failed
            → mem_written self.new ≡ mem_written self.old ++ take (length bytes.now / 2) bytes.now }
        ensures counted { IsErrOf result IoFault.Failed
            → mem_sink_faults self.new ≡ one_more (mem_sink_faults self.old) }
        ensures uncounted { OnOk result (mem_sink_faults self.new ≡ mem_sink_faults self.old) }
        ensures number { TakesWrite self.old self.new }
    {
        if self.begins_to_fail() {
            self.bytes.extend_from_slice(&bytes[..bytes.len() / 2])?;
            self.faults = self.faults.saturating_add(1);
            return Err(IoFault::Failed);
        }
        self.bytes.extend_from_slice(bytes)?;
        Ok(())
    }
}
