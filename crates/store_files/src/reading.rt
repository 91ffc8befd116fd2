ghost use Rattle.std.specs.Prelude.{◌≡◌, ◌<◌, ◌≤◌, ◌^◌, ◌++◌, List, ℕ, Some, IfOk, OnOk, IsErrOf, IsSomeAnd, IsTrue};
ghost use Rattle.std.specs.Prelude.{length, vec_len};
ghost use Rattle.brick_spec.specs.Files.{IsReading, AllStay};
ghost use Rattle.store_files.specs.declared.reading.ReadFault.TheVariants.{NoMemory};
ghost use Rattle.store_files.specs.WholeFiles.{Causes};

use std::alloc::{AllocError, Global};
use store_io::{IoFault, Store};
use thiserror::Error;

/// How many bytes are asked of the store at once.
const CHUNK: usize = 65536;

/// How many bytes are copied at once: few, so that the copy stays with vector registers.
const STRIDE: usize = 1024;

/// Why a file was not read.
#[derive(Clone, Copy, Debug, PartialEq, Eq, Error)]
pub enum ReadFault {
    /// It has more bytes than the limit.
    #[error("the file has more bytes than are read")]
    TooLong,
    /// A call of the store failed.
    #[error("reading failed")]
    Failed,
    /// Memory ran out.
    #[error("out of memory")]
    NoMemory,
}

impl From<AllocError> for ReadFault {
    ghost from_gives = { λ _ e. e ≡ NoMemory };

    fn from(_: AllocError) -> ReadFault {
        ReadFault::NoMemory
    }
}

impl From<IoFault> for ReadFault {
    ghost use Rattle.store_files.specs.WholeFiles.{read_fault};

    ghost from_gives = { λ fault e. e ≡ read_fault fault };

    fn from(fault: IoFault) -> ReadFault {
        match fault {
            IoFault::Failed => ReadFault::Failed,
            IoFault::NoMemory => ReadFault::NoMemory,
        }
    }
}

/// A buffer of zeros.
fn zeros(alloc: Global, len: usize) -> Result<Vec<u8>, AllocError>
    ensures { IfOk result (λ v. vec_len v ≡ len) }
{
    vec![in alloc; 0u8; len]
}

/// Puts bytes behind those that are there.
fn put_behind(bytes: &mut Vec<u8>, more: &[u8]) -> Result<(), AllocError>
    ensures { OnOk result (bytes.new.items ≡ bytes.old.items ++ more.now) }
{
    let mut rest = more;
    while rest.len() > STRIDE {
        let (front, after) = rest.split_at(STRIDE);
        bytes.extend_from_slice(front)?;
        rest = after;
    }
    bytes.extend_from_slice(rest)
}

/// Reads a file through a buffer. Each read that does not end the file gives at least one byte, so there are at most
/// `limit + 1`.
fn read_through<S: Store>(
    alloc: Global,
    store: &mut S,
    account: u32,
    name: &str,
    limit: usize,
    chunk: &mut [u8],
) -> Result<Vec<u8>, ReadFault>
    requires room { 0 < length chunk.old }
    requires account { IsReading account }
    requires limit { limit < 2 ^ 62 }
    ensures whole { IsTrue S.tells → IfOk result (λ v. S.file store.old name.now ≡ Some v.items) }
    ensures within { IfOk result (λ v. vec_len v ≤ limit) }
    ensures too_long { IsTrue S.tells → IsErrOf result ReadFault.TooLong
        → IsSomeAnd (S.file store.old name.now) (λ content. limit < length content) }
    ensures held { IsTrue S.tells → AllStay (S.file store.old) (S.file store.new) }
    ensures cause { Causes account name.now (S.faults store.old) (S.faults store.new)
        (IsErrOf result ReadFault.Failed) }
{
    let mut bytes = Vec::with_capacity(alloc, CHUNK)?;
    while bytes.len() <= limit {
        let count = store.read_at(account, name, bytes.len() as u64, chunk)?;
        if count == 0 {
            return Ok(bytes);
        }
        put_behind(&mut bytes, &chunk[..count])?;
    }
    Err(ReadFault::TooLong)
}

/// The bytes of a file that has at most `limit` of them.
pub fn read_whole<S: Store>(
    alloc: Global,
    store: &mut S,
    account: u32,
    name: &str,
    limit: usize,
) -> Result<Vec<u8>, ReadFault>
    requires account { IsReading account }
    requires limit { limit < 2 ^ 62 }
    ensures whole { IsTrue S.tells → IfOk result (λ v. S.file store.old name.now ≡ Some v.items) }
    ensures within { IfOk result (λ v. vec_len v ≤ limit) }
    ensures too_long { IsTrue S.tells → IsErrOf result ReadFault.TooLong
        → IsSomeAnd (S.file store.old name.now) (λ content. limit < length content) }
    ensures held { IsTrue S.tells → AllStay (S.file store.old) (S.file store.new) }
    ensures cause { Causes account name.now (S.faults store.old) (S.faults store.new)
        (IsErrOf result ReadFault.Failed) }
{
    let mut chunk = zeros(alloc, CHUNK)?;
    read_through(alloc, store, account, name, limit, &mut chunk)
}
