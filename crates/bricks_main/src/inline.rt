//! A run without lanes: the chain file's tenants, from the files of a store to their files. All captures are read in
//! order, and then the tenants are made and written one after another.
ghost use Rattle.std.specs.Prelude.{◌≡◌, ◌≢◌, [], ◌≤◌, ◌<◌, ◌+◌, ◌*◌, ◌++◌, ℕ, List, OnOk, OnErr, IsTrue, length, map};
ghost use Rattle.brick_spec.specs.Cause.{reading_account, writing_account};
ghost use Rattle.chain_spec.specs.ChainSet as spec;
ghost use Rattle.chain_types.specs.View.{chain_view};
ghost use Rattle.run_spec.specs.Isolation.{none_refused, IsTrueOf};
ghost use Rattle.run_spec.specs.Report as report;
ghost use Rattle.run_spec.specs.Seen.{Held, Says, held};
ghost use Rattle.run_spec.specs.Tenants.{AllApart, TenantsRan, TenantsMay};
ghost use Rattle.run_report.specs.View.{line_view, outcome_view};
ghost use Rattle.tenant_files.specs.Run.{RanOn, CanRun, AllRan};

use brick_base::{Name, NoMemory};
use chain_file::Chain;
use chain_run::TenantWork;
use run_report::{Line, Outcome, TenantEnd};
use std::alloc::Global;
use store_io::Store;
use tenant_files::{ChainsFault, TenantInput, read_chains, read_tenants, write_made};
use tenant_run::make_tenant;

/// Makes and writes a tenant, where its capture was read whole. After a fault of writing the rest of its files are not
/// touched.
pub(crate) fn run_tenant<S: Store>(
    alloc: Global,
    store: &mut S,
    tenant: u32,
    chain: &Chain,
    input: &TenantInput,
    out: &str,
) -> Result<TenantEnd, NoMemory>
    requires { tenant < 16 }
    ensures ran { RanOn (IsTrue S.tells) out.now tenant (chain_view chain.now) [] input.now
        (held (S.file store.old) (S.faults store.old)) (held (S.file store.new) (S.faults store.new)) result }
    ensures later { (a : ℕ) (n : List ℕ) → S.faults store.old a n ≤ S.faults store.new a n }
    ensures others { (a : ℕ) (n : List ℕ) → a ≢ writing_account tenant
        → S.faults store.new a n ≡ S.faults store.old a n }
{
    match input {
        TenantInput::TooLong => Ok(TenantEnd::TooLong),
        TenantInput::Bad(refusal) => Ok(TenantEnd::BadCapture(*refusal)),
        TenantInput::Unread => Ok(TenantEnd::ReadFault),
        TenantInput::Whole(capture) => {
            let done = make_tenant::<TenantWork>(alloc, chain, capture)?;
            write_made(alloc, store, tenant, chain, out, capture, &done)
        }
    }
}

/// Makes and writes these tenants, which are numbered from `tenant`, one after another, and puts a line of each behind
/// the others.
fn run_tenants<S: Store>(
    alloc: Global,
    store: &mut S,
    tenant: u32,
    chains: &[Chain],
    inputs: &[TenantInput],
    out: &str,
    lines: &mut Vec<Line>,
) -> Result<(), NoMemory>
    requires few { tenant + length chains.now ≤ 16 }
    ensures ran { (first : Held)
        → CanRun (IsTrue S.tells) out.now tenant (map chain_view chains.now) first
        (held (S.file store.old) (S.faults store.old)) inputs.now
        → OnOk result ((told : List report.Line)
        × (map line_view lines.new.items ≡ map line_view lines.old.items ++ told)
        × TenantsRan (IsTrue S.tells) out.now first.faults none_refused tenant (map chain_view chains.now)
        (held (S.file store.old) (S.faults store.old)) (held (S.file store.new) (S.faults store.new)) told) }
    ensures may { (first : Held)
        → CanRun (IsTrue S.tells) out.now tenant (map chain_view chains.now) first
        (held (S.file store.old) (S.faults store.old)) inputs.now
        → OnErr result (IsTrue S.tells
        → TenantsMay out.now none_refused tenant (map chain_view chains.now) (S.file store.old) (S.file store.new)) }
    ensures later { (a : ℕ) (n : List ℕ) → S.faults store.old a n ≤ S.faults store.new a n }
    ensures others { (a : ℕ) (n : List ℕ) → 2 * (tenant + length chains.now) < a
        → S.faults store.new a n ≡ S.faults store.old a n }
{
    let Some((chain, more_chains)) = chains.split_first() else {
        return Ok(());
    };
    let Some((input, more_inputs)) = inputs.split_first() else {
        return Ok(());
    };
    let name = Name::new(alloc, chain.name.as_str())?;
    let end = run_tenant(alloc, store, tenant, chain, input, out)?;
    lines.push(Line { name, end })?;
    run_tenants(
        alloc,
        store,
        tenant + 1,
        more_chains,
        more_inputs,
        out,
        lines,
    )?;
    Ok(())
}

/// Reads the captures of all tenants, and then makes and writes the tenants. There is a line for each.
fn run_set<S: Store>(
    alloc: Global,
    store: &mut S,
    chains: &[Chain],
    out: &str,
) -> Result<Vec<Line>, NoMemory>
    requires few { length chains.now ≤ 16 }
    requires apart { AllApart out.now (map chain_view chains.now) }
    ensures ran { AllRan (IsTrue S.tells) out.now none_refused (map chain_view chains.now)
        (held (S.file store.old) (S.faults store.old)) (held (S.file store.new) (S.faults store.new)) result }
    ensures others { (a : ℕ) (n : List ℕ) → 2 * length chains.now < a
        → S.faults store.new a n ≡ S.faults store.old a n }
{
    let mut inputs = Vec::with_capacity(alloc, chains.len())?;
    let mut lines = Vec::with_capacity(alloc, chains.len())?;
    read_tenants(alloc, store, 0, chains, &mut inputs)?;
    run_tenants(alloc, store, 0, chains, &inputs, out, &mut lines)?;
    Ok(lines)
}

/// Reads the chain file, and runs its tenants.
pub fn run_files<S: Store>(alloc: Global, store: &mut S, chains: &str, out: &str) -> Outcome
    ensures is_true { IsTrueOf (IsTrue S.tells) chains.now out.now none_refused
        (held (S.file store.old) (S.faults store.old)) (held (S.file store.new) (S.faults store.new)) (outcome_view result) }
    ensures counts { (a : ℕ) (n : List ℕ) → 32 < a → S.faults store.new a n ≡ S.faults store.old a n }
    ensures tenants { IsTrue S.tells → (set : List spec.Chain) → Says chains.now out.now (S.file store.old) set
        → (a : ℕ) (n : List ℕ) → 2 * length set < a → S.faults store.new a n ≡ S.faults store.old a n }
{
    let set = match read_chains(alloc, store, chains, out) {
        Ok(set) => set,
        Err(ChainsFault::Refused(fault)) => return Outcome::ChainsRefused(fault),
        Err(ChainsFault::Failed) => return Outcome::StoreFault,
        Err(ChainsFault::NoMemory) => return Outcome::NoMemory,
    };
    match run_set(alloc, store, &set, out) {
        Ok(lines) => Outcome::Reported(lines),
        Err(NoMemory) => Outcome::NoMemory,
    }
}
