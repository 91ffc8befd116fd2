//! The captures of the tenants, read in order.
ghost use Rattle.std.specs.Prelude.{◌≡◌, ◌≢◌, ◌≤◌, ◌<◌, ◌+◌, ◌*◌, ◌++◌, ℕ, List, IfOk, OnOk, IsTrue, length, map};
ghost use Rattle.brick_spec.specs.Cause as cause;
ghost use Rattle.brick_spec.specs.Files.{AllStay};
ghost use Rattle.chain_types.specs.View.{chain_view};
ghost use Rattle.run_spec.specs.Seen.{held};
ghost use Rattle.tenant_files.specs.Inputs.{IsInput, AreInputs};

use brick_base::NoMemory;
use chain_file::Chain;
use pcap_io::Capture;
use run_report::{Refusal, refusal_of};
use std::alloc::Global;
use store_files::{ReadFault, read_whole};
use store_io::Store;

/// The most bytes of a capture.
const LONGEST_CAPTURE: usize = 33554432;

/// What reading a tenant's capture gave.
#[derive(Debug, Drop)]
pub enum TenantInput {
    /// The capture, whole.
    Whole(Capture),
    /// It has more bytes than are read.
    TooLong,
    /// It was read to its end, and is not whole.
    Bad(Refusal),
    /// Reading it failed.
    Unread,
}

/// The account that reads for a tenant.
fn reading_account(tenant: u32) -> u32
    requires { tenant < 16 }
    ensures { result ≡ cause.reading_account tenant }
{
    1 + 2 * tenant
}

/// Reads the capture of a tenant.
fn read_tenant<S: Store>(
    alloc: Global,
    store: &mut S,
    tenant: u32,
    chain: &Chain,
) -> Result<TenantInput, NoMemory>
    requires { tenant < 16 }
    ensures input { IfOk result
        (IsInput (IsTrue S.tells) tenant (chain_view chain.now) (held (S.file store.old) (S.faults store.old))
        (S.faults store.new)) }
    ensures held { IsTrue S.tells → AllStay (S.file store.old) (S.file store.new) }
    ensures later { (a : ℕ) (n : List ℕ) → S.faults store.old a n ≤ S.faults store.new a n }
    ensures others { (a : ℕ) (n : List ℕ) → a ≢ cause.reading_account tenant
        → S.faults store.new a n ≡ S.faults store.old a n }
{
    let bytes = match read_whole(
        alloc,
        store,
        reading_account(tenant),
        chain.capture.as_str(),
        LONGEST_CAPTURE,
    ) {
        Ok(bytes) => bytes,
        Err(ReadFault::TooLong) => return Ok(TenantInput::TooLong),
        Err(ReadFault::Failed) => return Ok(TenantInput::Unread),
        Err(ReadFault::NoMemory) => return Err(NoMemory),
    };
    match Capture::read(alloc, bytes) {
        Ok(capture) => Ok(TenantInput::Whole(capture)),
        Err(fault) => {
            let refusal = refusal_of(fault)?;
            Ok(TenantInput::Bad(refusal))
        }
    }
}

/// Reads the captures of these tenants, which are numbered from `tenant`, and puts them behind the others.
pub fn read_tenants<S: Store>(
    alloc: Global,
    store: &mut S,
    tenant: u32,
    chains: &[Chain],
    inputs: &mut Vec<TenantInput>,
) -> Result<(), NoMemory>
    requires few { tenant + length chains.now ≤ 16 }
    ensures inputs { OnOk result ((list : List _) × (inputs.new.items ≡ inputs.old.items ++ list)
        × AreInputs (IsTrue S.tells) tenant (map chain_view chains.now) (held (S.file store.old) (S.faults store.old))
        (S.faults store.new) list) }
    ensures held { IsTrue S.tells → AllStay (S.file store.old) (S.file store.new) }
    ensures later { (a : ℕ) (n : List ℕ) → S.faults store.old a n ≤ S.faults store.new a n }
    ensures others { (a : ℕ) (n : List ℕ) → 2 * (tenant + length chains.now) < a
        → S.faults store.new a n ≡ S.faults store.old a n }
{
    let Some((chain, rest)) = chains.split_first() else {
        return Ok(());
    };
    let input = read_tenant(alloc, store, tenant, chain)?;
    inputs.push(input)?;
    read_tenants(alloc, store, tenant + 1, rest, inputs)?;
    Ok(())
}
