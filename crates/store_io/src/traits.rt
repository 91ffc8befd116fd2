ghost use Rattle.std.specs.Prelude.{◌≡◌, ◌≤◌, List, ℕ, Bool, Option, IsTrue, IfOk, length};
ghost use Rattle.brick_spec.specs.Files.{IsReading, IsWriting};
ghost use Rattle.store_io.specs.Calls.{Reads, Creates, AppendsTo, Writes};
ghost use Rattle.store_io.specs.declared.traits.IoFault.TheVariants.{NoMemory};
ghost use Rattle.store_io.specs.Faults.{HasCause, HasCauseAt};

use std::alloc::AllocError;
use thiserror::Error;

/// Why a call of a store or a sink gave up.
#[derive(Clone, Copy, Debug, PartialEq, Eq, Error)]
pub enum IoFault {
    /// Reading or writing failed, and a count of faults rose.
    #[error("reading or writing failed")]
    Failed,
    /// Memory ran out. What is held and all counts are as before.
    #[error("out of memory")]
    NoMemory,
}

impl From<AllocError> for IoFault {
    ghost from_gives = { λ _ e. e ≡ NoMemory };

    fn from(_: AllocError) -> IoFault {
        IoFault::NoMemory
    }
}

/// Files by name. Each call names the account on which its faults are counted: 0 reads the chain file, `1 + 2 * t`
/// reads and `2 + 2 * t` writes for tenant t below 16, and 33 writes what is generated.
pub trait Store {
    /// Whether it tells what it holds. Where it does not, no clause speaks of bytes.
    ghost tells: { Bool };

    /// The bytes at each name.
    ghost file: { Self → List ℕ → Option (List ℕ) };

    /// How often each account has failed on each name.
    ghost faults: { Self → ℕ → List ℕ → ℕ };

    /// Puts bytes of the file, from the place `at` on, at the front of `into` and answers how many. It answers 0 only
    /// at or past the end of the file, or for an empty `into`. A missing file is a failure.
    fn read_at(
        &mut self,
        account: u32,
        name: &str,
        at: u64,
        into: &mut [u8],
    ) -> Result<usize, IoFault>
        requires { IsReading account }
        ensures fits { IfOk result (λ n. n ≤ length into.new) }
        ensures reads { IsTrue tells → Reads name.now at (file self.old) (file self.new) into.new result }
        ensures cause { HasCauseAt account name.now (faults self.old) (faults self.new) result };

    /// Makes the file, or empties one that is there.
    fn create(&mut self, account: u32, name: &str) -> Result<(), IoFault>
        requires { IsWriting account }
        ensures creates { IsTrue tells → Creates name.now (file self.old) (file self.new) result }
        ensures cause { HasCauseAt account name.now (faults self.old) (faults self.new) result };

    /// Writes all the bytes at the end of the file, and makes one that is missing.
    fn append(&mut self, account: u32, name: &str, bytes: &[u8]) -> Result<(), IoFault>
        requires { IsWriting account }
        ensures appends { IsTrue tells → AppendsTo name.now bytes.now (file self.old) (file self.new) result }
        ensures cause { HasCauseAt account name.now (faults self.old) (faults self.new) result };
}

/// Where the report goes.
pub trait Sink {
    /// Whether it tells what was written. Where it does not, no clause speaks of bytes.
    ghost tells: { Bool };

    /// The bytes written so far.
    ghost written: { Self → List ℕ };

    /// How often it has failed.
    ghost faults: { Self → ℕ };

    /// Writes all the bytes.
    fn write(&mut self, bytes: &[u8]) -> Result<(), IoFault>
        ensures writes { IsTrue tells → Writes bytes.now (written self.old) (written self.new) result }
        ensures cause { HasCause (faults self.old) (faults self.new) result };
}
