//! Jobs and works of a chain file, and the crew that runs them.
ghost use Rattle.std.specs.Prelude.{◌≡◌, ◌≤◌, [], length, IfOk, OnOk};
ghost use Rattle.work_crew.specs.Crews.{AreNewWorks};
ghost use Rattle.work_crew.specs.Members.{Across};

use brick_base::NoMemory;
use chain_file::{Chain, ChainSet};
use chain_run::TenantWork;
use flow_key::classify_all;
use lane_core::LaneKit;
use pcap_io::Capture;
use std::alloc::Global;
use std::process::Abort;
use std::sync::Wait;
use std::test::Fail;
use std::thread::Threads;
use work_core::{NewWork, TenantDone, TenantJob};
use work_crew::run_crew;

/// A capture of these bytes.
pub fn read_capture(rt: &impl Abort, alloc: Global, bytes: &[u8]) -> Result<Capture, Fail> {
    let bytes = bytes.to_vec(alloc)?;
    assert!(rt; bytes.len() <= 33_554_432);
    match Capture::read(alloc, bytes) {
        Ok(capture) => Ok(capture),
        Err(_) => Err(Fail::from("a capture")),
    }
}

/// The chains of a chain file.
pub fn chains_of(alloc: Global, text: &str) -> Result<Vec<Chain>, Fail> {
    match ChainSet::read(alloc, text.as_bytes(), "c.toml", "out") {
        Ok(set) => Ok(set.into_chains()),
        Err(_) => Err(Fail::from("chains")),
    }
}

/// A work for each worker.
fn works_of<W: NewWork>(alloc: Global, job: &TenantJob, workers: u32) -> Result<Vec<W>, NoMemory>
    ensures { IfOk result (λ works. AreNewWorks W.ChainWork.follows W.ChainWork.ready W.ChainWork.stands W.ChainWork.ended W.ChainWork.broken workers job.now works) }
{
    let mut works = Vec::new(alloc);
    'each: for done in 0..workers {
        let work = W::of_chain(alloc, &job.chain)?;
        works.push(work)?;
    }
    Ok(works)
}

/// Puts the job of a chain and a capture behind the others, and its works behind theirs.
fn add_job<W: NewWork>(
    alloc: Global,
    chain: Chain,
    capture: Capture,
    workers: u32,
    jobs: &mut Vec<TenantJob>,
    works: &mut Vec<Vec<W>>,
) -> Result<(), NoMemory>
    requires { Across (AreNewWorks W.ChainWork.follows W.ChainWork.ready W.ChainWork.stands W.ChainWork.ended W.ChainWork.broken workers) jobs.old.items works.old.items }
    ensures { OnOk result (Across (AreNewWorks W.ChainWork.follows W.ChainWork.ready W.ChainWork.stands W.ChainWork.ended W.ChainWork.broken workers) jobs.new.items works.new.items) }
{
    let classes = classify_all(alloc, chain.nat, &capture)?;
    let job = TenantJob {
        capture,
        chain,
        classes,
    };
    let new = works_of::<W>(alloc, &job, workers)?;
    jobs.push(job)?;
    works.push(new)?;
    Ok(())
}

/// The jobs of a chain file whose tenants have these captures, and the works of each.
fn set_up<W: NewWork, R: Abort>(
    rt: &R,
    alloc: Global,
    text: &str,
    captures: &[&[u8]],
    workers: u32,
) -> Result<(Vec<TenantJob>, Vec<Vec<W>>), Fail>
    ensures { IfOk result (λ r. Across (AreNewWorks W.ChainWork.follows W.ChainWork.ready W.ChainWork.stands W.ChainWork.ended W.ChainWork.broken workers) r.0.items r.1.items) }
{
    let mut chains = chains_of(alloc, text)?;
    let mut jobs = Vec::new(alloc);
    let mut works = Vec::new(alloc);
    'each: for bytes in captures {
        assert!(rt; !chains.is_empty());
        let chain = chains.remove(0);
        let capture = read_capture(rt, alloc, bytes)?;
        add_job::<W>(alloc, chain, capture, workers, &mut jobs, &mut works)?;
    }
    assert!(rt; chains.is_empty());
    Ok((jobs, works))
}

/// What a crew of so many workers makes of the tenants of a chain file, which have these captures.
pub fn run_chains<K: LaneKit, R: Threads + Wait + Sync + Abort>(
    rt: &R,
    alloc: Global,
    kit: &mut K,
    text: &str,
    captures: &[&[u8]],
    workers: u32,
) -> Result<Result<Vec<TenantDone>, NoMemory>, Fail> {
    assert!(rt; workers >= 1 && workers <= 16);
    let (jobs, works) = set_up::<TenantWork, R>(rt, alloc, text, captures, workers)?;
    assert!(rt; jobs.len() <= 16);
    Ok(run_crew::<K, TenantWork, R>(rt, alloc, kit, jobs, works, workers))
}
