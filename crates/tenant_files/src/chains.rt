//! The chain file of a store.
ghost use Rattle.std.specs.Prelude.{◌≡◌, ◌≤◌, IsTrue, IfOk, IsErrOf, length, map};
ghost use Rattle.brick_spec.specs.Files.{AllStay};
ghost use Rattle.run_spec.specs.Tenants.{AllApart};
ghost use Rattle.chain_types.specs.View.{chain_view};
ghost use Rattle.tenant_files.specs.Chains.{ReadsChains};
ghost use Rattle.store_files.specs.WholeFiles.{Causes};

use chain_file::{Chain, ChainFault, ChainSet};
use std::alloc::Global;
use store_files::{ReadFault, read_whole};
use store_io::Store;

/// The account that reads the chain file.
const CHAINS_ACCOUNT: u32 = 0;

/// The most bytes of a chain file.
const LONGEST_CHAIN_FILE: usize = 1048576;

/// Why a chain file gives no chains.
#[derive(Debug, Drop)]
pub enum ChainsFault {
    /// It was read and is not accepted. This is its first fault, or memory ran out before it was found.
    Refused(ChainFault),
    /// Reading it failed.
    Failed,
    /// Memory ran out.
    NoMemory,
}

/// Reads the chain file `chains`. The run that it is for writes to the folder `out`. The chains are 1 to 16, and no
/// file of one of them has the name of another's file or capture.
pub fn read_chains<S: Store>(
    alloc: Global,
    store: &mut S,
    chains: &str,
    out: &str,
) -> Result<Vec<Chain>, ChainsFault>
    ensures reads { IsTrue S.tells → ReadsChains chains.now out.now (S.file store.old) result }
    ensures few { IfOk result (λ set. length set.items ≤ 16) }
    ensures apart { IfOk result (λ set. AllApart out.now (map chain_view set.items)) }
    ensures held { IsTrue S.tells → AllStay (S.file store.old) (S.file store.new) }
    ensures cause { Causes 0 chains.now (S.faults store.old) (S.faults store.new) (IsErrOf result ChainsFault.Failed) }
{
    let bytes = match read_whole(alloc, store, CHAINS_ACCOUNT, chains, LONGEST_CHAIN_FILE) {
        Ok(bytes) => bytes,
        Err(ReadFault::TooLong) => return Err(ChainsFault::Refused(ChainFault::TooLong)),
        Err(ReadFault::Failed) => return Err(ChainsFault::Failed),
        Err(ReadFault::NoMemory) => return Err(ChainsFault::NoMemory),
    };
    match ChainSet::read(alloc, &bytes, chains, out) {
        Ok(set) => Ok(set.into_chains()),
        Err(fault) => Err(ChainsFault::Refused(fault)),
    }
}
