//! The cases, over any kit.
use crate::tests::books::{are_same_outputs, is_item, is_whole};
use crate::tests::captures::{LOWERED, QUERY, REPLY, capture_of, firewall_capture};
use crate::tests::generated::{RECORDS, generated_capture};
use crate::tests::refusing::RefusingKit;
use crate::tests::setting::{chains_of, read_capture, run_chains};
use brick_base::NoMemory;
use chain_run::TenantWork;
use lane_core::LaneKit;
use pcap_io::Item;
use std::alloc::Global;
use std::process::Abort;
use std::sync::Wait;
use std::test::Fail;
use std::thread::Threads;
use tenant_run::make_tenant;
use work_core::TenantDone;
use work_crew::GateKit;

/// A kit that is made for a case.
pub trait NewKit: LaneKit + Drop {
    fn new_kit(alloc: Global) -> Self;
}

/// The time to live is lowered.
const LOWERING: &str = "version = 1
[[tenant]]
name = \"a\"
capture = \"a.pcap\"
stages = [{ stage = \"ttl\" }]
[[tenant.group]]
name = \"g\"
";

/// Queries to port 53 and their answers pass, with one buffer.
const GUARDED: &str = "version = 1
[[tenant]]
name = \"a\"
capture = \"a.pcap\"
buffers = 1
stages = [
    { stage = \"firewall\", default = \"deny\", established = true, rule = [
        { verdict = \"allow\", match = { dport = 53 } },
        { verdict = \"deny\", match = { proto = \"udp\" } },
    ] },
]
[[tenant.group]]
name = \"g\"
";

/// Streams are cut into windows of 128 bytes; of UDP, queries to port 53 and their answers pass. Both go to one output.
/// What has port 99 goes to another.
const GROUPED: &str = "version = 1
[[tenant]]
name = \"a\"
capture = \"a.pcap\"
buffers = 4
stages = [{ stage = \"ttl\" }]
[[tenant.group]]
name = \"web\"
match = { proto = \"tcp\" }
stages = [{ stage = \"window\", size = 128 }]
[[tenant.group]]
name = \"odd\"
match = { port = 99 }
[[tenant.group]]
name = \"rest\"
into = \"web\"
stages = [
    { stage = \"firewall\", default = \"deny\", established = true, rule = [
        { verdict = \"allow\", match = { dport = 53 } },
    ] },
]
";

/// The first tenant is guarded, with one buffer; the second drops what comes while its two buffers are out.
const TWO: &str = "version = 1
[[tenant]]
name = \"a\"
capture = \"a.pcap\"
buffers = 1
stages = [
    { stage = \"firewall\", default = \"deny\", established = true, rule = [
        { verdict = \"allow\", match = { dport = 53 } },
        { verdict = \"deny\", match = { proto = \"udp\" } },
    ] },
]
[[tenant.group]]
name = \"g\"
[[tenant]]
name = \"b\"
capture = \"b.pcap\"
buffers = 2
dry = \"drop\"
stages = [{ stage = \"set_tos\", value = 8 }]
[[tenant.group]]
name = \"h\"
";

/// What the first tenant of a chain file makes of this capture, without lanes.
fn made(rt: &impl Abort, alloc: Global, text: &str, bytes: &[u8]) -> Result<TenantDone, Fail> {
    let chains = chains_of(alloc, text)?;
    let capture = read_capture(rt, alloc, bytes)?;
    match chains.first() {
        Some(chain) => Ok(make_tenant::<TenantWork>(alloc, chain, &capture)?),
        None => Err(Fail::from("a chain")),
    }
}

/// What one work makes of the generated capture, as it was counted without the program.
fn is_counted(rt: &impl Abort, made: &TenantDone) -> Result<(), Fail> {
    assert_eq!(rt; made.accepted, RECORDS);
    assert_eq!(rt; made.drops, [0, 0, 65, 0, 35, 0, 0, 0, 0]);
    let [web, odd] = made.outputs.as_slice() else {
        return Err(Fail::from("two outputs"));
    };
    assert_eq!(rt; (web.as_slice().len(), odd.as_slice().len()), (315, 47));
    Ok(())
}

/// What came of each tenant, where memory did not run out.
fn done_of<K: LaneKit, R: Threads + Wait + Sync + Abort>(
    rt: &R,
    alloc: Global,
    kit: &mut K,
    text: &str,
    captures: &[&[u8]],
    workers: u32,
) -> Result<Vec<TenantDone>, Fail> {
    let done = run_chains::<K, R>(rt, alloc, kit, text, captures, workers)??;
    assert_eq!(rt; done.len(), captures.len());
    assert_eq!(rt; kit.books().len(), captures.len());
    Ok(done)
}

/// What stands at this place.
fn at<T>(list: &[T], k: usize) -> Result<&T, Fail> {
    match list.get(k) {
        Some(x) => Ok(x),
        None => Err(Fail::from("a list that is too short")),
    }
}

/// The items of the only output.
fn only_output(done: &TenantDone) -> Result<&[Item], Fail> {
    match done.outputs.as_slice() {
        [items] => Ok(items.as_slice()),
        _ => Err(Fail::from("one output")),
    }
}

/// One frame and one worker.
pub fn one_frame<K: NewKit, R: Threads + Wait + Sync + Abort>(
    rt: &R,
    alloc: Global,
) -> Result<(), Fail> {
    let bytes = capture_of(alloc, &[&QUERY])?;
    let mut kit = K::new_kit(alloc);
    let done = done_of::<K, R>(rt, alloc, &mut kit, LOWERING, &[bytes.as_slice()], 1)?;
    let one = at(&done, 0)?;
    assert_eq!(rt; (one.accepted, one.refused.as_slice().len()), (1, 0));
    assert_eq!(rt; one.drops, [0; 9]);
    let items = only_output(one)?;
    assert_eq!(rt; items.len(), 1);
    is_item(rt, at(items, 0)?, 0, 0, &LOWERED);
    let book = at(kit.books(), 0)?;
    is_whole(rt, book, 256, 1, 1);
    assert_eq!(rt; book.missed, 0);
    Ok(())
}

/// The guarded tenant's row: records 0 and 1 are written as they came, and the two others dropped by the firewall.
fn is_guarded(rt: &impl Abort, done: &TenantDone) -> Result<(), Fail> {
    assert_eq!(rt; (done.accepted, done.refused.as_slice().len()), (4, 0));
    assert_eq!(rt; done.drops, [0, 0, 2, 0, 0, 0, 0, 0, 0]);
    let items = only_output(done)?;
    assert_eq!(rt; items.len(), 2);
    is_item(rt, at(items, 0)?, 0, 0, &QUERY);
    is_item(rt, at(items, 1)?, 1, 0, &REPLY);
    Ok(())
}

/// The firewall with one buffer, and 1, 3 and 16 workers.
pub fn firewall<K: NewKit, R: Threads + Wait + Sync + Abort>(
    rt: &R,
    alloc: Global,
) -> Result<(), Fail> {
    let bytes = firewall_capture(alloc)?;
    for workers in [1, 3, 16] {
        let mut kit = K::new_kit(alloc);
        let done = done_of::<K, R>(rt, alloc, &mut kit, GUARDED, &[bytes.as_slice()], workers)?;
        is_guarded(rt, at(&done, 0)?)?;
        is_whole(rt, at(kit.books(), 0)?, 1, workers as usize, 4);
    }
    Ok(())
}

/// The generated capture with four buffers and 1, 4 and 16 workers: what one work without lanes makes of it.
pub fn generated<K: NewKit, R: Threads + Wait + Sync + Abort>(
    rt: &R,
    alloc: Global,
) -> Result<(), Fail> {
    let bytes = generated_capture(alloc)?;
    let wanted = made(rt, alloc, GROUPED, &bytes)?;
    is_counted(rt, &wanted)?;
    for workers in [1, 4, 16] {
        let mut kit = K::new_kit(alloc);
        let done = done_of::<K, R>(rt, alloc, &mut kit, GROUPED, &[bytes.as_slice()], workers)?;
        let one = at(&done, 0)?;
        assert_eq!(rt; (one.accepted, one.refused.as_slice().len()), (RECORDS, 0));
        assert_eq!(rt; one.drops, wanted.drops);
        are_same_outputs(rt, &one.outputs, &wanted.outputs, 2);
        is_whole(rt, at(kit.books(), 0)?, 4, workers as usize, 500);
    }
    Ok(())
}

/// Two records of one worker, of which the second is sent when the first was received: the ingest does not end before
/// the worker begins.
pub fn gated<K: NewKit, R: Threads + Wait + Sync + Abort>(
    rt: &R,
    alloc: Global,
) -> Result<(), Fail> {
    let bytes = capture_of(alloc, &[&QUERY, &QUERY])?;
    let mut kit = GateKit::new(K::new_kit(alloc));
    let done = done_of::<GateKit<K>, R>(rt, alloc, &mut kit, LOWERING, &[bytes.as_slice()], 1)?;
    assert_eq!(rt; kit.misses(), 0);
    let items = only_output(at(&done, 0)?)?;
    assert_eq!(rt; items.len(), 2);
    is_item(rt, at(items, 0)?, 0, 0, &LOWERED);
    is_item(rt, at(items, 1)?, 1, 0, &LOWERED);
    is_whole(rt, at(kit.books(), 0)?, 256, 1, 2);
    Ok(())
}

/// The refused numbers rise, behind at least two accepted ones each, and the items are those of all other records, in
/// order.
fn are_others(rt: &impl Abort, refused: &[u32], items: &[Item]) {
    let mut accepted = 0usize;
    let mut passed = 0usize;
    for k in 0..RECORDS {
        if refused.get(passed) == Some(&k) {
            assert!(rt; accepted >= 2, "record {k}");
            passed = passed.wrapping_add(1);
        } else {
            match items.get(accepted) {
                Some(item) => assert_eq!(rt; (item.a, item.j), (k as u64, 0)),
                None => panic!(rt; "record {k}"),
            }
            accepted = accepted.wrapping_add(1);
        }
    }
    assert_eq!(rt; (refused.len(), items.len()), (passed, accepted));
}

/// Two tenants with different chains at once, of which the second refuses records.
pub fn two_tenants<K: NewKit, R: Threads + Wait + Sync + Abort>(
    rt: &R,
    alloc: Global,
) -> Result<(), Fail> {
    let first = firewall_capture(alloc)?;
    let second = generated_capture(alloc)?;
    for workers in [1, 4] {
        let mut kit = K::new_kit(alloc);
        let captures = [first.as_slice(), second.as_slice()];
        let done = done_of::<K, R>(rt, alloc, &mut kit, TWO, &captures, workers)?;
        is_guarded(rt, at(&done, 0)?)?;
        is_whole(rt, at(kit.books(), 0)?, 1, workers as usize, 4);
        let other = at(&done, 1)?;
        let items = only_output(other)?;
        assert_eq!(rt; other.drops, [0; 9]);
        assert_eq!(rt; other.accepted as usize, items.len());
        are_others(rt, other.refused.as_slice(), items);
        is_whole(rt, at(kit.books(), 1)?, 2, workers as usize, items.len());
        assert_eq!(rt;
            at(kit.books(), 1)?.missed,
            other.refused.as_slice().len() as u64
        );
    }
    Ok(())
}

/// The lane of the second tenant is not started: the first one's is shut unused.
pub fn start_refused<K: NewKit, R: Threads + Wait + Sync + Abort>(
    rt: &R,
    alloc: Global,
) -> Result<(), Fail> {
    let bytes = firewall_capture(alloc)?;
    let mut kit = RefusingKit {
        kit: K::new_kit(alloc),
        left: 1,
    };
    let captures = [bytes.as_slice(), bytes.as_slice()];
    let done = run_chains::<RefusingKit<K>, R>(rt, alloc, &mut kit, TWO, &captures, 3)?;
    match done {
        Ok(_) => Err(Fail::from("a crew without its second lane")),
        Err(NoMemory) => {
            assert_eq!(rt; kit.books().len(), 1);
            is_whole(rt, at(kit.books(), 0)?, 1, 3, 0);
            assert_eq!(rt; at(kit.books(), 0)?.missed, 0);
            Ok(())
        }
    }
}
