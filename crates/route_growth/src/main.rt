//! Tables of routes of more and more rows, and addresses that are looked up in them.
//!
//! `route_growth ROWS ADDRESSES` builds a table of rows from a fixed sequence, looks so many addresses of another up,
//! and prints how many had a row. It is there so that its instructions can be counted: those of a table grow as its
//! rows do, and those of an address do not.
#![tactic(auto)]

use brick_base::NoMemory;
use lpm_fw::{Route, RouteFault, Routes, are_short};
use std::alloc::Global;
use std::env;
use std::process::ExitCode;

/// The most rows of a table.
const MOST_ROWS: u32 = 4096;

/// The next number of a fixed sequence.
fn next(state: u64) -> u64 {
    state
        .wrapping_mul(6364136223846793005)
        .wrapping_add(1442695040888963407)
}

/// An address whose twelve high bits are the number's, of which the lower ones are mixed from it.
fn address_by(k: u32) -> u32 {
    let mixed = (k as u64).wrapping_mul(0x9e37_79b9_7f4a_7c15);
    ((k % MOST_ROWS) << 20) + ((mixed >> 40) % (1 << 20)) as u32
}

/// A row of 16 to 32 bits, by a number. Rows of two numbers below the most have two prefixes.
fn row_by(k: u32) -> Route {
    let free = (k.wrapping_mul(0x9e37_79b9) >> 16) % 17;
    Route {
        to: address_by(k) >> free << free,
        bits: (32 - free) as u8,
        via: [2, 0, 0, 0, 0, 1],
    }
}

/// So many rows.
fn rows_of(alloc: Global, count: u32) -> Result<Vec<Route>, NoMemory> {
    let mut rows = Vec::with_capacity(alloc, count as usize)?;
    for k in 0..count {
        rows.push(row_by(k))?;
    }
    Ok(rows)
}

/// How many of so many addresses have a row. Each lies in the last 256 addresses round one that a row of some number
/// was made from.
fn found_in(routes: &Routes, addresses: u32) -> u32 {
    let mut state = 2;
    let mut found = 0u32;
    for _ in 0..addresses {
        state = next(state);
        let beside = address_by((state >> 52) as u32) ^ ((state >> 40) % 256) as u32;
        if routes.find(beside).is_some() {
            found = found.wrapping_add(1);
        }
    }
    found
}

/// How many addresses have a row in a table of so many.
fn count_found(alloc: Global, rows: u32, addresses: u32) -> Result<u32, RouteFault> {
    let Ok(rows) = rows_of(alloc, rows) else {
        return Err(RouteFault::NoMemory);
    };
    if rows.len() > MOST_ROWS as usize || !are_short(&rows) {
        return Ok(0);
    }
    let routes = Routes::build(alloc, rows)?;
    Ok(found_in(&routes, addresses))
}

fn main(rt: HostRuntime) -> ExitCode {
    let Ok(mut words) = env::args(&rt) else {
        return ExitCode::from(2);
    };
    let rows = words
        .nth(1)
        .and_then(|word| word.as_str().parse::<u32>().ok());
    let addresses = words
        .next()
        .and_then(|word| word.as_str().parse::<u32>().ok());
    let (Some(rows), Some(addresses)) = (rows, addresses) else {
        return ExitCode::from(2);
    };
    match count_found(rt.alloc(), rows, addresses) {
        Ok(found) => match println!(&rt; "{found}") {
            Ok(()) => ExitCode::SUCCESS,
            Err(_) => ExitCode::from(5),
        },
        Err(RouteFault::NoMemory) => ExitCode::from(6),
        Err(_) => ExitCode::from(4),
    }
}
