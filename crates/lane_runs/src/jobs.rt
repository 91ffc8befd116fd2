//! The tenants between the reading of their captures and the writing of their files.
ghost use Rattle.std.specs.Prelude.{◌≡◌, ◌≤◌, ◌+◌, ◌++◌, [], IfOk, OnOk, length, map};
ghost use Rattle.chain_types.specs.View.{chain_view};
ghost use Rattle.work_crew.specs.JobView.{job_view};
ghost use Rattle.tenant_lanes.specs.Jobs.{job_of};
ghost use Rattle.lane_runs.specs.Jobs.{AreTenants, jobs_of, own_job, part_of, unnumbered};

use brick_base::{Name, NoMemory};
use chain_file::Chain;
use run_report::Refusal;
use std::alloc::Global;
use std::thread::Threads;
use tenant_files::TenantInput;
use tenant_lanes::{TenantCapture, new_jobs};
use work_core::TenantJob;

/// What reading a tenant's capture gave.
#[derive(Clone, Copy, Debug)]
pub enum Part {
    /// It was read whole: the place of the tenant's job among the jobs.
    Job(usize),
    /// It has more bytes than are read.
    TooLong,
    /// It was read to its end, and is not whole.
    Bad(Refusal),
    /// Reading it failed.
    Unread,
}

/// A tenant whose files are still to be written.
#[derive(Debug, Drop)]
pub struct Tenant {
    pub name: Name,
    pub part: Part,
}

/// Puts the capture of a tenant behind the others, where it was read whole.
fn add_part(
    chain: Chain,
    input: TenantInput,
    captures: &mut Vec<TenantCapture>,
) -> Result<Part, NoMemory>
    ensures part { IfOk result (λ part. part ≡ part_of (length captures.old.items) input) }
    ensures captures { OnOk result (map job_of captures.new.items
        ≡ map job_of captures.old.items ++ own_job 0 (chain_view chain) input) }
{
    match input {
        TenantInput::Whole(capture) => {
            let place = captures.len();
            captures.push(TenantCapture { chain, capture })?;
            Ok(Part::Job(place))
        }
        TenantInput::TooLong => Ok(Part::TooLong),
        TenantInput::Bad(refusal) => Ok(Part::Bad(refusal)),
        TenantInput::Unread => Ok(Part::Unread),
    }
}

/// Lists all tenants, and the captures of those whose capture was read whole, in order.
fn list_tenants(
    alloc: Global,
    chains: Vec<Chain>,
    inputs: Vec<TenantInput>,
    captures: &mut Vec<TenantCapture>,
    tenants: &mut Vec<Tenant>,
) -> Result<(), NoMemory>
    requires count { length chains.items ≡ length inputs.items }
    requires no_captures { captures.old.items ≡ [] }
    requires no_tenants { tenants.old.items ≡ [] }
    ensures count { OnOk result (length tenants.new.items ≡ length chains.items) }
    ensures captures { OnOk result (map job_of captures.new.items
        ≡ map unnumbered (jobs_of 0 (map chain_view chains.items) inputs.items)) }
    ensures tenants { OnOk result (AreTenants 0 (map chain_view chains.items) inputs.items tenants.new.items) }
{
    let mut chains = chains;
    let mut inputs = inputs;
    if let Some(chain) = chains.pop() {
        if let Some(input) = inputs.pop() {
            list_tenants(alloc, chains, inputs, captures, tenants)?;
            let name = Name::new(alloc, chain.name.as_str())?;
            let part = add_part(chain, input, captures)?;
            tenants.push(Tenant { name, part })?;
        }
    }
    Ok(())
}

/// Lists all tenants, in order, and makes a job of each whose capture was read whole, each job in a thread of its own.
pub fn part_tenants<R: Threads + Sync>(
    rt: &R,
    alloc: Global,
    chains: Vec<Chain>,
    inputs: Vec<TenantInput>,
    tenants: &mut Vec<Tenant>,
) -> Result<Vec<TenantJob>, NoMemory>
    requires count { length chains.items ≡ length inputs.items }
    requires no_tenants { tenants.old.items ≡ [] }
    ensures count { OnOk result (length tenants.new.items ≡ length chains.items) }
    ensures few { IfOk result (λ jobs. length jobs.items ≤ length chains.items) }
    ensures jobs { IfOk result (λ jobs. map job_view jobs.items
        ≡ map unnumbered (jobs_of 0 (map chain_view chains.items) inputs.items)) }
    ensures tenants { OnOk result (AreTenants 0 (map chain_view chains.items) inputs.items tenants.new.items) }
{
    let mut captures = Vec::new(alloc);
    list_tenants(alloc, chains, inputs, &mut captures, tenants)?;
    new_jobs(rt, alloc, captures)
}
