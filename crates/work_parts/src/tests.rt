ghost use Rattle.std.specs.Prelude.{◌≡◌, None};
ghost use Rattle.std.specs.List.{AllByRecursion};
ghost use Rattle.work_core.specs.AnswerLaws.{plan_answer, plan_lists, plan_rises, plan_keys, plan_counts};

use crate::join_parts;
use batch_ops::Batch;
use brick_base::NoMemory;
use pcap_io::{Frame, Item, Items};
use std::alloc::Global;
use std::process::Abort;
use std::test::Fail;
use work_core::{ChainWork, Returned, WorkResult};

/// A work that hands over what it was made with. It follows no plan, so no clause says what that is.
#[derive(Drop)]
struct FixedWork {
    groups: Vec<Items>,
    drops: [u32; 9],
    ended: Option<u32>,
    broken: bool,
}

impl ChainWork for FixedWork {
    ghost follows = { λ w p. ⊥ };

    ghost ready = { λ w. Unit {0} };

    ghost stands = { λ w list. Unit {0} };

    ghost finished = { λ w n list. Unit {0} };

    ghost ended = { λ w. w.ended };

    ghost broken = { λ w. w.broken };

    ghost answer = { plan_answer };

    fn turn(&mut self, alloc: Global, batch: &mut Batch, back: &mut Returned) {
        let many = batch.len();
        let mut gone = Returned::new();
        'each: while let Some(work) = batch.pop_front() {
            gone.push(work.packet.into_buffer());
        }
        back.take_over(&mut gone);
    }

    fn failed(&self) -> bool {
        self.broken
    }

    fn end(&mut self, alloc: Global, records: u32) {
        self.ended = Some(records);
    }

    fn take_results(self, alloc: Global) -> Result<WorkResult, NoMemory> {
        if self.broken || self.ended.is_none() {
            return Err(NoMemory);
        }
        let FixedWork {
            groups,
            drops,
            ended: _,
            broken: _,
        } = self;
        Ok(WorkResult { groups, drops })
    }

    ghost has_lists = { plan_lists };

    ghost rises = { plan_rises };

    ghost own_keys = { plan_keys };

    ghost capped = { plan_counts };
}

/// Items of these keys. Their original length tells the worker.
fn list(alloc: Global, worker: u32, keys: &[(u64, u32)]) -> Result<Items, Fail> {
    let mut items = Vec::new(alloc);
    for (a, j) in keys {
        items.push(Item {
            a: *a,
            j: *j,
            seconds: 0,
            fraction: 0,
            original: worker,
            frame: Frame::of(Vec::new(alloc)),
        })?;
    }
    Ok(Items::of(items))
}

/// Adds a work that gives two leaf groups items of these keys.
fn add_work(
    alloc: Global,
    works: &mut Vec<FixedWork>,
    worker: u32,
    first: &[(u64, u32)],
    second: &[(u64, u32)],
    drops: [u32; 9],
    broken: bool,
) -> Result<(), Fail>
    requires { AllByRecursion (λ w. Unit {0} × (w.ended ≡ None)) works.old.items }
    ensures { AllByRecursion (λ w. Unit {0} × (w.ended ≡ None)) works.new.items }
{
    let mut groups = Vec::new(alloc);
    groups.push(list(alloc, worker, first)?)?;
    groups.push(list(alloc, worker, second)?)?;
    works.push(FixedWork {
        groups,
        drops,
        ended: None,
        broken,
    })?;
    Ok(())
}

/// The keys of the items, and their workers.
fn keys(alloc: Global, items: &Items) -> Result<Vec<(u64, u32, u32)>, Fail> {
    let mut all = Vec::new(alloc);
    for item in items.as_slice() {
        all.push((item.a, item.j, item.original))?;
    }
    Ok(all)
}

/// The keys of each leaf group.
fn all_keys(alloc: Global, groups: &[Items]) -> Result<Vec<Vec<(u64, u32, u32)>>, Fail> {
    let mut all = Vec::new(alloc);
    for items in groups {
        all.push(keys(alloc, items)?)?;
    }
    Ok(all)
}

#[test]
fn parts_of_three_workers_are_joined(rt: HostRuntime) -> Result<(), Fail> {
    let alloc = rt.alloc();
    let mut works = Vec::new(alloc);
    add_work(
        alloc,
        &mut works,
        0,
        &[(1, 0), (4, 0), (4, 1)],
        &[(6, 0)],
        [0, 1, 2, 0, 0, 0, 0, u32::MAX, 5],
        false,
    )?;
    add_work(
        alloc,
        &mut works,
        1,
        &[],
        &[(0, 0), (9, 0)],
        [0, 0, 0, 7, 0, 0, 0, 1, u32::MAX],
        false,
    )?;
    add_work(
        alloc,
        &mut works,
        2,
        &[(0, 0), (2, 0)],
        &[(3, 0), (7, 0)],
        [0, 10, 0, 0, 0, 0, 8, 0, u32::MAX],
        false,
    )?;
    assert!(rt; !works.is_empty());
    let result = join_parts(alloc, works, 10)?;
    assert_eq!(rt; result.drops, [0, 11, 2, 7, 0, 0, 8, u32::MAX, u32::MAX]);
    let found = all_keys(alloc, &result.groups)?;
    assert_eq!(rt; found.len(), 2);
    assert_eq!(rt;
        found[0].as_slice(),
        [(0, 0, 2), (1, 0, 0), (2, 0, 2), (4, 0, 0), (4, 1, 0)].as_slice()
    );
    assert_eq!(rt;
        found[1].as_slice(),
        [(0, 0, 1), (3, 0, 2), (6, 0, 0), (7, 0, 2), (9, 0, 1)].as_slice()
    );
    Ok(())
}

#[test]
fn a_work_without_memory_gives_none(rt: HostRuntime) -> Result<(), Fail> {
    let alloc = rt.alloc();
    let mut works = Vec::new(alloc);
    add_work(alloc, &mut works, 0, &[(1, 0)], &[], [1; 9], false)?;
    add_work(alloc, &mut works, 1, &[], &[(0, 0)], [1; 9], true)?;
    assert!(rt; !works.is_empty());
    assert!(rt; join_parts(alloc, works, 10).is_err());
    Ok(())
}
