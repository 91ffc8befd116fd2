//! The files of the tenants, written one after another.
ghost use Rattle.std.specs.Prelude.{◌≡◌, ◌≢◌, ◌≤◌, ◌<◌, ◌+◌, ◌*◌, ℕ, List, IsTrue, length, map};
ghost use Rattle.std.specs.List.{AllByRecursion};
ghost use Rattle.brick_spec.specs.Cause.{writing_account};
ghost use Rattle.chain_spec.specs.ChainSet as spec;
ghost use Rattle.run_spec.specs.Isolation.{Refusals};
ghost use Rattle.run_spec.specs.Seen.{Held, held};
ghost use Rattle.run_report.specs.View.{line_view};
ghost use Rattle.tenant_files.specs.Run.{RanOn};
ghost use Rattle.tenant_files.specs.declared.inputs.TenantInput as input;
ghost use Rattle.lane_runs.specs.Writing.{IsDoneAt, IsReady, CanWrite, WroteAll};

use crate::jobs::{Part, Tenant};
use brick_base::{Name, NoMemory};
use run_report::{Line, TenantEnd};
use std::alloc::Global;
use store_io::Store;
use tenant_files::write_made;
use work_core::{TenantDone, TenantJob};

/// Writes the files of a tenant, where its capture was read whole.
fn write_tenant<S: Store>(
    alloc: Global,
    store: &mut S,
    tenant: u32,
    part: Part,
    jobs: &[TenantJob],
    done: &[TenantDone],
    out: &str,
) -> Result<TenantEnd, NoMemory>
    requires few { tenant < 16 }
    requires done { IsDoneAt jobs.now done.now part }
    ensures ran { (chain : spec.Chain) (refused : List ℕ) (i : input.TenantInput)
        → IsReady jobs.now done.now chain refused i part
        → RanOn (IsTrue S.tells) out.now tenant chain refused i (held (S.file store.old) (S.faults store.old))
        (held (S.file store.new) (S.faults store.new)) result }
    ensures later { (a : ℕ) (n : List ℕ) → S.faults store.old a n ≤ S.faults store.new a n }
    ensures others { (a : ℕ) (n : List ℕ) → a ≢ writing_account tenant
        → S.faults store.new a n ≡ S.faults store.old a n }
{
    match part {
        Part::Job(place) => {
            let job = &jobs[place];
            write_made(
                alloc,
                store,
                tenant,
                &job.chain,
                out,
                &job.capture,
                &done[place],
            )
        }
        Part::TooLong => Ok(TenantEnd::TooLong),
        Part::Bad(refusal) => Ok(TenantEnd::BadCapture(refusal)),
        Part::Unread => Ok(TenantEnd::ReadFault),
    }
}

/// Writes the files of these tenants, which are numbered from `tenant`, one after another, and puts a line of each
/// behind the others.
pub fn write_tenants<S: Store>(
    alloc: Global,
    store: &mut S,
    tenant: u32,
    tenants: &[Tenant],
    jobs: &[TenantJob],
    done: &[TenantDone],
    out: &str,
    lines: &mut Vec<Line>,
) -> Result<(), NoMemory>
    requires few { tenant + length tenants.now ≤ 16 }
    requires done { AllByRecursion (λ w. IsDoneAt jobs.now done.now w.part) tenants.now }
    ensures wrote { (first : Held) (set : List spec.Chain) (inputs : List input.TenantInput) (refused : Refusals)
        → CanWrite (IsTrue S.tells) out.now tenant refused set inputs first
        (held (S.file store.old) (S.faults store.old)) jobs.now done.now tenants.now
        → WroteAll (IsTrue S.tells) out.now tenant refused set inputs first.faults
        (held (S.file store.old) (S.faults store.old)) (held (S.file store.new) (S.faults store.new))
        (map line_view lines.old.items) (map line_view lines.new.items) result }
    ensures later { (a : ℕ) (n : List ℕ) → S.faults store.old a n ≤ S.faults store.new a n }
    ensures others { (a : ℕ) (n : List ℕ) → 2 * (tenant + length tenants.now) < a
        → S.faults store.new a n ≡ S.faults store.old a n }
{
    let Some((first, more)) = tenants.split_first() else {
        return Ok(());
    };
    let name = Name::new(alloc, first.name.as_str())?;
    let end = write_tenant(alloc, store, tenant, first.part, jobs, done, out)?;
    lines.push(Line { name, end })?;
    write_tenants(alloc, store, tenant + 1, more, jobs, done, out, lines)?;
    Ok(())
}
