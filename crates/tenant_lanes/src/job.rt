//! Jobs of tenants.
ghost use Rattle.std.specs.Prelude.{◌≡◌, List, length, map, IfOk};
ghost use Rattle.chain_types.specs.View.{chain_view};
ghost use Rattle.work_crew.specs.JobView.{job_view};
ghost use Rattle.work_crew.specs.Members.{Members};
ghost use Rattle.tenant_lanes.specs.Jobs.{job_of};

use brick_base::NoMemory;
use chain_types::Chain;
use flow_key::classify_all;
use pcap_io::Capture;
use std::alloc::Global;
use std::thread;
use std::thread::Threads;
use work_core::TenantJob;
use work_crew::push_values;

/// A tenant's chain and its capture.
#[derive(Debug, Drop)]
pub struct TenantCapture {
    pub chain: Chain,
    pub capture: Capture,
}

/// The job of a tenant. All records of its capture are classified, also those that are longer than the chain's buffers.
/// Without memory the chain and the capture are given up.
pub fn new_job(alloc: Global, chain: Chain, capture: Capture) -> Result<TenantJob, NoMemory>
    ensures { IfOk result (λ job. (chain_view job.chain ≡ chain_view chain) × (job.capture ≡ capture)) }
{
    let classes = classify_all(alloc, chain.nat, &capture)?;
    Ok(TenantJob {
        capture,
        chain,
        classes,
    })
}

/// The job of each tenant, made in a thread of its own.
fn make_all<R: Threads + Sync>(
    rt: &R,
    alloc: Global,
    tenants: Vec<TenantCapture>,
) -> Result<Vec<Result<TenantJob, NoMemory>>, NoMemory>
    ensures count { IfOk result (λ rs. length rs.items ≡ length tenants.items) }
    ensures made { IfOk result (λ rs. Members (λ tenant r. IfOk r (λ job. job_view job
        ≡ job_of tenant)) tenants.items rs.items) }
{
    let outcomes = thread::map_vec(
        rt,
        tenants,
        &|tenant: TenantCapture| -> Result<TenantJob, NoMemory>
            ensures { IfOk result (λ job. job_view job ≡ job_of tenant) }
        { new_job(alloc, tenant.chain, tenant.capture) },
    )?;
    Ok(outcomes)
}

/// The jobs of tenants, in order, each made in a thread of its own.
pub fn new_jobs<R: Threads + Sync>(
    rt: &R,
    alloc: Global,
    tenants: Vec<TenantCapture>,
) -> Result<Vec<TenantJob>, NoMemory>
    ensures { IfOk result (λ jobs. map job_view jobs.items ≡ map job_of tenants.items) }
{
    let outcomes = make_all(rt, alloc, tenants)?;
    let mut jobs = Vec::new(alloc);
    push_values(outcomes, &mut jobs)?;
    Ok(jobs)
}
