//! The first fault of a table of routes.

ghost use Rattle.std.specs.Prelude.{◌≡◌, ℕ, ◌≤◌, List, [], ◌∷◌, ◌++◌, length, map, Some, None, IfSome, IfErr, OnOk};
ghost use Rattle.brick_spec.specs.Route as spec;
ghost use Rattle.lpm_fw.specs.RouteView.{route_view, fault_view};
ghost use Rattle.lpm_fw.specs.Scan.{AreShort, ScannedFault};
ghost use Rattle.lpm_fw.specs.Firsts.{AreFirsts, prefix_view};
ghost use Rattle.lpm_fw.specs.declared.routes.Route.{Route};

use crate::prefix::Prefix;
use crate::routes::{Route, RouteFault};
use std::alloc::Global;
use std::collections::BTreeMap;

fn prefix_of(row: Route) -> Prefix
    ensures { prefix_view result ≡ (route_view row).to }
{
    Prefix {
        to: row.to,
        bits: row.bits,
    }
}

/// Whether the row's address has bits past its prefix.
fn has_host_bits(row: Route) -> bool
    requires { row.bits ≤ 32 }
    ensures { result ≡ spec.has_host_bits (route_view row).to }
{
    let free = 32 - row.bits as u32;
    0 < row.to as u64 % (1u64 << free)
}

/// What is wrong with row `r` behind the rows of which these are the prefixes.
fn fault_at(firsts: &BTreeMap<Prefix, u32>, row: Route, r: u32) -> Option<RouteFault>
    requires { row.bits ≤ 32 }
    ensures { (before : List Route) → AreFirsts before firsts.now → ScannedFault before row r result }
{
    if has_host_bits(row) {
        return Some(RouteFault::HostBits { row: r });
    }
    match firsts.get(&prefix_of(row)).copied() {
        Some(first) => Some(RouteFault::SamePrefix { first, second: r }),
        None => None,
    }
}

/// Row `r` comes behind the rows of which these are the prefixes, unless something is wrong with it.
fn add_row(firsts: &mut BTreeMap<Prefix, u32>, row: Route, r: u32) -> Result<(), RouteFault>
    requires { row.bits ≤ 32 }
    ensures right { (before : List Route) → AreFirsts before firsts.old
        → OnOk result (spec.fault_at (map route_view before) (route_view row) r ≡ None) }
    ensures firsts { (before : List Route) → AreFirsts before firsts.old → length before ≡ r
        → OnOk result (AreFirsts (before ++ row ∷ []) firsts.new) }
    ensures fault { (before : List Route) → AreFirsts before firsts.old
        → IfErr result (λ fault. IfSome (fault_view fault)
        (λ f. spec.fault_at (map route_view before) (route_view row) r ≡ Some f)) }
{
    if let Some(fault) = fault_at(firsts, row, r) {
        return Err(fault);
    }
    match firsts.insert(prefix_of(row), r) {
        Ok(_) => Ok(()),
        Err(_) => Err(RouteFault::NoMemory),
    }
}

/// Ok where no row has a fault, and else the first fault in the order of the rows. Each row is looked up once among the
/// prefixes of the rows before it.
pub(crate) fn check(alloc: Global, rows: &[Route]) -> Result<(), RouteFault>
    requires few { length rows.now ≤ 4096 }
    requires short { AreShort rows.now }
    ensures right { OnOk result (spec.AreRight (map route_view rows.now)) }
    ensures fault { IfErr result (λ fault. IfSome (fault_view fault) (spec.IsFirstFault (map route_view rows.now))) }
{
    let mut firsts = BTreeMap::new(alloc);
    for r in 0..rows.len() {
        add_row(&mut firsts, rows[r], r as u32)?;
    }
    Ok(())
}
