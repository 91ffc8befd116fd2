//! The run of a chain file's tenants over lanes.
ghost use Rattle.std.specs.Prelude.{◌≡◌, ◌≤◌, ◌<◌, ◌*◌, [], ℕ, List, IsTrue, length, map};
ghost use Rattle.chain_spec.specs.ChainSet as spec;
ghost use Rattle.chain_types.specs.View.{chain_view};
ghost use Rattle.run_spec.specs.Seen.{Held, Says, held};
ghost use Rattle.run_spec.specs.Tenants.{AllApart};
ghost use Rattle.run_report.specs.View.{line_view, outcome_view};
ghost use Rattle.tenant_files.specs.Run.{CanRun};
ghost use Rattle.tenant_files.specs.declared.inputs.TenantInput as input;
ghost use Rattle.work_crew.specs.JobView.{job_view};
ghost use Rattle.lane_runs.specs.Jobs.{AreTenants, jobs_of, unnumbered};
ghost use Rattle.lane_runs.specs.Ran.{JobsRan, SetRan, FilesRan};

use crate::jobs::{Tenant, part_tenants};
use crate::writing::write_tenants;
use brick_base::NoMemory;
use chain_file::Chain;
use chain_run::TenantWork;
use lane_core::LaneKit;
use run_report::{Line, Outcome};
use std::alloc::Global;
use std::sync::Wait;
use std::thread::Threads;
use store_io::Store;
use tenant_files::{ChainsFault, read_chains, read_tenants};
use tenant_lanes::make_tenants;
use work_core::TenantJob;

/// Runs the jobs over lanes, and writes the files of all tenants. There is a line for each.
fn run_jobs<S: Store, K: LaneKit, R: Threads + Wait + Sync>(
    rt: &R,
    alloc: Global,
    store: &mut S,
    kit: &mut K,
    tenants: &[Tenant],
    jobs: &[TenantJob],
    workers: u32,
    out: &str,
    lines: &mut Vec<Line>,
) -> Result<(), NoMemory>
    requires workers { (1 ≤ workers) × (workers ≤ 16) }
    requires few { (length tenants.now ≤ 16) × (length jobs.now ≤ 16) }
    requires tenants { (set : List spec.Chain) × (inputs : List input.TenantInput)
        × AreTenants 0 set inputs tenants.now × (map job_view jobs.now ≡ map unnumbered (jobs_of 0 set inputs)) }
    requires no_lines { lines.old.items ≡ [] }
    ensures open_lanes { K.open_lanes kit.new ≡ K.open_lanes kit.old }
    ensures ran { (first : Held) (set : List spec.Chain) (inputs : List input.TenantInput)
        → CanRun (IsTrue S.tells) out.now 0 set first (held (S.file store.old) (S.faults store.old)) inputs
        → AreTenants 0 set inputs tenants.now → map job_view jobs.now ≡ map unnumbered (jobs_of 0 set inputs)
        → JobsRan (IsTrue S.tells) out.now workers set inputs first (held (S.file store.old) (S.faults store.old))
        (held (S.file store.new) (S.faults store.new))
        (K.books kit.old) (K.books kit.new) (map line_view lines.new.items) result }
    ensures later { (a : ℕ) (n : List ℕ) → S.faults store.old a n ≤ S.faults store.new a n }
    ensures others { (a : ℕ) (n : List ℕ) → 2 * length tenants.now < a
        → S.faults store.new a n ≡ S.faults store.old a n }
{
    let done = make_tenants::<K, TenantWork, R>(rt, alloc, kit, jobs, workers)?;
    write_tenants(alloc, store, 0, tenants, jobs, &done, out, lines)
}

/// Reads the captures of all tenants, runs those over lanes that were read whole, and writes the files. There is a line
/// for each tenant.
fn run_set<S: Store, K: LaneKit, R: Threads + Wait + Sync>(
    rt: &R,
    alloc: Global,
    store: &mut S,
    kit: &mut K,
    chains: Vec<Chain>,
    workers: u32,
    out: &str,
) -> Result<Vec<Line>, NoMemory>
    requires workers { (1 ≤ workers) × (workers ≤ 16) }
    requires few { length chains.items ≤ 16 }
    requires apart { AllApart out.now (map chain_view chains.items) }
    ensures open_lanes { K.open_lanes kit.new ≡ K.open_lanes kit.old }
    ensures ran { SetRan (IsTrue S.tells) out.now workers (map chain_view chains.items)
        (held (S.file store.old) (S.faults store.old)) (held (S.file store.new) (S.faults store.new))
        (K.books kit.old) (K.books kit.new) result }
    ensures others { (a : ℕ) (n : List ℕ) → 2 * length chains.items < a
        → S.faults store.new a n ≡ S.faults store.old a n }
{
    let mut inputs = Vec::new(alloc);
    let mut tenants = Vec::new(alloc);
    let mut lines = Vec::new(alloc);
    read_tenants(alloc, store, 0, &chains, &mut inputs)?;
    let jobs = part_tenants(rt, alloc, chains, inputs, &mut tenants)?;
    run_jobs::<S, K, R>(
        rt, alloc, store, kit, &tenants, &jobs, workers, out, &mut lines,
    )?;
    Ok(lines)
}

/// Reads the chain file, and runs its tenants over lanes and so many workers.
pub fn run_files<S: Store, K: LaneKit, R: Threads + Wait + Sync>(
    rt: &R,
    alloc: Global,
    store: &mut S,
    kit: &mut K,
    chains: &str,
    out: &str,
    workers: u32,
) -> Outcome
    requires workers { (1 ≤ workers) × (workers ≤ 16) }
    ensures open_lanes { K.open_lanes kit.new ≡ K.open_lanes kit.old }
    ensures ran { FilesRan (IsTrue S.tells) chains.now out.now workers (held (S.file store.old) (S.faults store.old))
        (held (S.file store.new) (S.faults store.new))
        (K.books kit.old) (K.books kit.new) (outcome_view result) }
    ensures counts { (a : ℕ) (n : List ℕ) → 32 < a → S.faults store.new a n ≡ S.faults store.old a n }
    ensures tenants { IsTrue S.tells → (set : List spec.Chain) → Says chains.now out.now (S.file store.old) set
        → (a : ℕ) (n : List ℕ) → 2 * length set < a → S.faults store.new a n ≡ S.faults store.old a n }
{
    let set = match read_chains(alloc, store, chains, out) {
        Ok(set) => set,
        Err(ChainsFault::Refused(fault)) => return Outcome::ChainsRefused(fault),
        Err(ChainsFault::Failed) => return Outcome::StoreFault,
        Err(ChainsFault::NoMemory) => return Outcome::NoMemory,
    };
    match run_set::<S, K, R>(rt, alloc, store, kit, set, workers, out) {
        Ok(lines) => Outcome::Reported(lines),
        Err(NoMemory) => Outcome::NoMemory,
    }
}
