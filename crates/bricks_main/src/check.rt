//! Mode `check`: the chain file alone.
ghost use Rattle.std.specs.Prelude.{◌≡◌, ◌≢◌, List, ℕ, IfOk, IsTrue, map};
ghost use Rattle.brick_spec.specs.Cause.{chains_account};
ghost use Rattle.brick_spec.specs.Files.{AllStay};
ghost use Rattle.run_spec.specs.Seen.{held};
ghost use Rattle.run_spec.specs.Check.{IsTrueOfCheck, names_of as names_meant};
ghost use Rattle.chain_types.specs.View.{chain_view};
ghost use Rattle.run_report.specs.View.{outcome_view};

use brick_base::{Name, NoMemory};
use chain_file::Chain;
use run_report::Outcome;
use std::alloc::Global;
use store_io::Store;
use tenant_files::{ChainsFault, read_chains};

/// The names of the tenants.
fn names_of(alloc: Global, chains: &[Chain]) -> Result<Vec<Name>, NoMemory>
    ensures { IfOk result (λ names. names.items ≡ names_meant (map chain_view chains.now)) }
{
    let mut names = Vec::with_capacity(alloc, chains.len())?;
    for chain in chains {
        names.push(Name::new(alloc, chain.name.as_str())?)?;
    }
    Ok(names)
}

/// Reads the chain file alone.
pub fn check_files<S: Store>(alloc: Global, store: &mut S, chains: &str, out: &str) -> Outcome
    ensures is_true { IsTrueOfCheck (IsTrue S.tells) chains.now out.now
        (held (S.file store.old) (S.faults store.old)) (held (S.file store.new) (S.faults store.new)) (outcome_view result) }
    ensures held { IsTrue S.tells → AllStay (S.file store.old) (S.file store.new) }
    ensures others { (a : ℕ) (n : List ℕ) → a ≢ chains_account → S.faults store.new a n ≡ S.faults store.old a n }
{
    let set = match read_chains(alloc, store, chains, out) {
        Ok(set) => set,
        Err(ChainsFault::Refused(fault)) => return Outcome::ChainsRefused(fault),
        Err(ChainsFault::Failed) => return Outcome::StoreFault,
        Err(ChainsFault::NoMemory) => return Outcome::NoMemory,
    };
    match names_of(alloc, &set) {
        Ok(names) => Outcome::Checked(names),
        Err(NoMemory) => Outcome::NoMemory,
    }
}
