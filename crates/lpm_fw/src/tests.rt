ghost use Rattle.std.specs.Prelude.{◌≡◌};

use crate::routes::find_in;
use crate::{Established, Route, RouteFault, Routes, Rule, Rules, Verdict, are_short, inspect};
use brick_base::{Class, Dir, Ends};
use std::alloc::Global;
use std::collections::BTreeSet;
use std::process::Abort;
use std::test::Fail;
use tcp_udp::{Match, Tuple};

/// A row; the last byte of its next hop is `hop`.
fn row(to: u32, bits: u8, hop: u8) -> Route
    ensures { result.bits ≡ bits }
{
    Route {
        to,
        bits,
        via: [2, 0, 0, 0, 0, hop],
    }
}

/// 0.0.0.0/0, 10.0.0.0/8, 10.1.0.0/16 and 10.1.2.3/32.
const ROWS: [(u32, u8); 4] = [(0, 0), (0x0a000000, 8), (0x0a010000, 16), (0x0a010203, 32)];

/// Four prefixes, one in the other, from `first` on.
fn rows_from(alloc: Global, first: usize) -> Result<Vec<Route>, Fail> {
    let mut rows = Vec::new(alloc);
    for k in first..ROWS.len() {
        let (to, bits) = ROWS[k];
        rows.push(row(to, bits, k as u8))?;
    }
    Ok(rows)
}

/// What becomes of a table of these rows.
fn built(rt: &impl Abort, alloc: Global, rows: Vec<Route>) -> Result<Routes, RouteFault> {
    assert!(rt; rows.len() <= 4096);
    assert!(rt; are_short(&rows));
    Routes::build(alloc, rows)
}

/// Addresses, and the row of the longest of the four prefixes that contains each.
const WANTED: [(u32, u16); 11] = [
    (0x09ffffff, 0),
    (0x0a000000, 1),
    (0x0a00ffff, 1),
    (0x0a010000, 2),
    (0x0a010202, 2),
    (0x0a010203, 3),
    (0x0a010204, 2),
    (0x0a01ffff, 2),
    (0x0a020000, 1),
    (0x0affffff, 1),
    (0x0b000000, 0),
];

#[test]
fn the_longest_prefix_is_found(rt: HostRuntime) -> Result<(), Fail> {
    let routes = built(&rt, rt.alloc(), rows_from(rt.alloc(), 0)?)?;
    for (addr, row) in WANTED {
        assert_eq!(rt; routes.find(addr), Some(row), "{addr:x}");
    }
    // without the row for all addresses
    let routes = built(&rt, rt.alloc(), rows_from(rt.alloc(), 1)?)?;
    assert_eq!(rt; routes.find(0x0b000000), None);
    Ok(())
}

#[test]
fn the_longest_prefix_is_found_among_64_rows(rt: HostRuntime) -> Result<(), Fail> {
    // 172.16.0.0/24 to 172.16.59.0/24 behind the four
    let mut rows = rows_from(rt.alloc(), 0)?;
    for third in 0..60u32 {
        rows.push(row(0xac100000 + third * 256, 24, 9))?;
    }
    let routes = built(&rt, rt.alloc(), rows)?;
    for (addr, row) in WANTED {
        assert_eq!(rt; routes.find(addr), Some(row), "{addr:x}");
    }
    assert_eq!(rt; routes.find(0xac103b07), Some(63));
    assert_eq!(rt; routes.find(0xac103c00), Some(0));
    Ok(())
}

#[test]
fn the_first_fault_is_told(rt: HostRuntime) -> Result<(), Fail> {
    // 10.0.0.0/8 again, as row 4
    let mut rows = rows_from(rt.alloc(), 0)?;
    rows.push(row(0x0a000000, 8, 9))?;
    let fault = RouteFault::SamePrefix {
        first: 1,
        second: 4,
    };
    assert_eq!(rt; built(&rt, rt.alloc(), rows).err(), Some(fault));
    // 10.0.0.1/8 as row 0
    let mut rows = Vec::new(rt.alloc());
    rows.push(row(0x0a000001, 8, 0))?;
    rows.append(&mut rows_from(rt.alloc(), 1)?)?;
    let fault = RouteFault::HostBits { row: 0 };
    assert_eq!(rt; built(&rt, rt.alloc(), rows).err(), Some(fault));
    Ok(())
}

#[test]
fn a_table_has_4096_rows(rt: HostRuntime) -> Result<(), Fail> {
    let mut rows = Vec::new(rt.alloc());
    for k in 0..4096u32 {
        rows.push(row(0x0a000000 + k * 256, 24, (k % 256) as u8))?;
    }
    let routes = built(&rt, rt.alloc(), rows)?;
    assert_eq!(rt; routes.find(0x0a0fffff), Some(4095));
    assert_eq!(rt; routes.find(0x0a100000), None);
    Ok(())
}

/// The next number of a fixed sequence.
fn next(state: u64) -> u64 {
    state
        .wrapping_mul(6364136223846793005)
        .wrapping_add(1442695040888963407)
}

/// 4,096 rows of random prefixes of 8 to 32 bits, none twice.
fn random_rows(alloc: Global) -> Result<Vec<Route>, Fail> {
    let mut rows = Vec::new(alloc);
    let mut prefixes = BTreeSet::new(alloc);
    let mut state = 1;
    for _ in 0..8192 {
        state = next(state);
        let bits = 8 + (state >> 33) % 25;
        // the high byte is one of four, so that prefixes lie in one another
        let addr = (state >> 40) % (1 << 24) + ((state >> 35) % 4 << 24);
        let to = addr >> (32 - bits) << (32 - bits);
        if rows.len() < 4096 && prefixes.insert(to * 64 + bits)? {
            rows.push(row(to as u32, bits as u8, 0))?;
        }
    }
    Ok(rows)
}

#[test]
fn the_cells_say_what_a_scan_of_the_rows_says(rt: HostRuntime) -> Result<(), Fail> {
    let rows = random_rows(rt.alloc())?;
    let wanted = random_rows(rt.alloc())?;
    assert_eq!(rt; rows.len(), 4096);
    let routes = built(&rt, rt.alloc(), rows)?;
    assert!(rt; wanted.len() <= 4096);
    assert!(rt; are_short(&wanted));
    let mut state = 2;
    let (mut some, mut none) = (false, false);
    for _ in 0..100_000 {
        state = next(state);
        let addr = ((state >> 33) % (5 << 24)) as u32;
        let row = routes.find(addr);
        assert_eq!(rt; row, find_in(&wanted, addr), "{addr:x}");
        some |= row.is_some();
        none |= row.is_none();
    }
    assert!(rt; some && none);
    Ok(())
}

/// UDP from 10.0.0.1:1000 to 10.1.2.3 at a port, or back.
fn datagram(port: u16, back: bool) -> Tuple {
    let (near, far) = (0x0a000001, 0x0a010203);
    if back {
        Tuple {
            proto: 17,
            src: far,
            dst: near,
            ports: Some((port, 1000)),
        }
    } else {
        Tuple {
            proto: 17,
            src: near,
            dst: far,
            ports: Some((1000, port)),
        }
    }
}

/// Allows what goes to port 53, and denies other UDP.
fn names_alone(alloc: Global, default: Verdict) -> Result<Rules, Fail> {
    let any = Match {
        proto: None,
        src: None,
        dst: None,
        sport: None,
        dport: None,
        port: None,
    };
    let to_names = Match {
        dport: Some(53),
        ..any
    };
    let udp = Match {
        proto: Some(17),
        ..any
    };
    let mut rows = Vec::new(alloc);
    rows.push(Rule {
        verdict: Verdict::Allow,
        wanted: Some(to_names),
    })?;
    rows.push(Rule {
        verdict: Verdict::Deny,
        wanted: Some(udp),
    })?;
    Ok(Rules::new(rows, default))
}

#[test]
fn the_first_rule_that_is_met_decides(rt: HostRuntime) -> Result<(), Fail> {
    let rules = names_alone(rt.alloc(), Verdict::Allow)?;
    assert_eq!(rt; rules.verdict(&datagram(53, false)), Verdict::Allow);
    assert_eq!(rt; rules.verdict(&datagram(53, true)), Verdict::Deny);
    assert_eq!(rt; rules.verdict(&datagram(99, false)), Verdict::Deny);
    assert_eq!(rt; rules.verdict(&datagram(99, true)), Verdict::Deny);
    let tcp = Tuple {
        proto: 6,
        ..datagram(99, false)
    };
    assert_eq!(rt; rules.verdict(&tcp), Verdict::Allow);
    Ok(())
}

/// A record of a flow without a rank.
fn class(flow: u32, dir: Dir) -> Class {
    Class {
        flow,
        opened: 0,
        dir,
        rank: None,
        hash: 0,
        first: Ends {
            src: 0,
            sport: 0,
            dst: 0,
            dport: 0,
        },
        other: false,
    }
}

/// What is said of a query, its answer, a datagram to port 99 and its answer, and then of a frame without the IPv4 layer.
fn inspected(alloc: Global, established: bool) -> Result<[Verdict; 5], Fail> {
    let rules = names_alone(alloc, Verdict::Deny)?;
    let mut flows = Established::new(alloc)?;
    let items = [
        (class(0, Dir::Forward), Some(datagram(53, false))),
        (class(0, Dir::Reversed), Some(datagram(53, true))),
        (class(1, Dir::Forward), Some(datagram(99, false))),
        (class(1, Dir::Reversed), Some(datagram(99, true))),
        (class(2, Dir::Forward), None),
    ];
    let mut verdicts = [Verdict::Deny; 5];
    for k in 0..5 {
        let (class, tuple) = items[k];
        verdicts[k] = inspect(&rules, established, &mut flows, &class, &tuple)?;
    }
    Ok(verdicts)
}

#[test]
fn an_answer_is_allowed_where_its_flow_is_established(rt: HostRuntime) -> Result<(), Fail> {
    let (allow, deny) = (Verdict::Allow, Verdict::Deny);
    assert_eq!(rt;
        inspected(rt.alloc(), true)?,
        [allow, allow, deny, deny, allow]
    );
    assert_eq!(rt;
        inspected(rt.alloc(), false)?,
        [allow, deny, deny, deny, allow]
    );
    Ok(())
}

#[test]
fn an_answer_that_the_rules_allow_opens_no_flow(rt: HostRuntime) -> Result<(), Fail> {
    let rules = names_alone(rt.alloc(), Verdict::Deny)?;
    let mut flows = Established::new(rt.alloc())?;
    let reversed = class(0, Dir::Reversed);
    let to_names = Some(datagram(53, false));
    let other = Some(datagram(99, true));
    assert_eq!(rt;
        inspect(&rules, true, &mut flows, &reversed, &to_names)?,
        Verdict::Allow
    );
    assert_eq!(rt;
        inspect(&rules, true, &mut flows, &reversed, &other)?,
        Verdict::Deny
    );
    Ok(())
}

#[test]
fn flows_are_allowed(rt: HostRuntime) -> Result<(), Fail> {
    let mut flows = Established::new(rt.alloc())?;
    assert!(rt; !flows.allowed(0));
    flows.allow(0)?;
    flows.allow(7)?;
    assert!(rt; flows.allowed(0) && flows.allowed(7) && !flows.allowed(1));
    Ok(())
}
