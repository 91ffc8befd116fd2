//! Routes.

ghost use Rattle.std.specs.Prelude.{◌≡◌, ◌↔◌, IsTrue, ℕ, ◌≤◌, ◌<◌, ◌+◌, ◌^◌, ◌≢◌, length, Option, Some, None, IfOk};
ghost use Rattle.std.specs.Prelude.{OnOk, IfErr, IfSome, MatchOption, take, map};
ghost use Rattle.std.specs.List.{slice_get, position};
ghost use Rattle.brick_spec.specs.Route as spec;
ghost use Rattle.lpm_fw.specs.RouteView.{route_view, fault_view};
ghost use Rattle.lpm_fw.specs.Scan.{AreRows, AreShort, Best};
ghost use Rattle.lpm_fw.specs.declared.routes.RouteFault.TheVariants.{NoMemory};

use crate::cells::{Unbuilt, fill, look_up};
use crate::faults::check;
use std::alloc::Global;
use std::fmt;
use std::marker::Model;
use thiserror::Error;

/// A row of a table of routes.
#[derive(Clone, Copy, Debug, PartialEq, Eq)]
pub struct Route {
    /// The lowest address that it is for, in network order as a number.
    pub to: u32,
    /// How many bits of an address are looked at, 0 to 32.
    pub bits: u8,
    /// The Ethernet address of the next hop.
    pub via: [u8; 6],
}

/// Why a table of routes is refused. Rows are numbered from 0.
#[derive(Clone, Copy, Debug, PartialEq, Eq, Error)]
pub enum RouteFault {
    /// Two rows have the same prefix. `first` is the earliest such row.
    #[error("rows {first} and {second} have the same prefix")]
    SamePrefix { first: u32, second: u32 },
    /// The address of a row has bits past its prefix.
    #[error("the address of row {row} has bits past its prefix")]
    HostBits { row: u32 },
    /// Memory ran out.
    #[error("out of memory")]
    NoMemory,
}

/// A table of routes: at most 4,096 rows without a fault.
#[derive(Drop)]
pub struct Routes {
    rows: Vec<Route>,
    // the cells of a table of many rows
    root: Vec<u16>,
    blocks: Vec<[u16; 256]>,
}

impl Model for Routes {
    ghost use Rattle.std.specs.Prelude.{List};
    ghost use Rattle.lpm_fw.specs.declared.routes.Route.{Route};
    ghost use Rattle.lpm_fw.specs.Cells.{IsTable};

    ghost Value = { List Route };

    ghost view = { λ r. r.rows.items };

    ghost invariant = { λ r. IsTable r.rows.items r.root.items r.blocks.items };
}

/// The rows, and not the cells that are made of them.
impl fmt::Debug for Routes {
    fn fmt<W: fmt::Write>(&self, f: &mut fmt::Formatter<W>) -> fmt::Result {
        f.debug_struct("Routes")
            .field("rows", &self.rows)
            .finish_non_exhaustive()
    }
}

impl Routes {
    /// The table of these rows, or the first fault: rows are tried in their order, each for bits past its prefix and
    /// then for the earliest row of the same prefix.
    pub fn build(alloc: Global, rows: Vec<Route>) -> Result<Routes, RouteFault>
        requires few { length rows.items ≤ 4096 }
        requires short { AreShort rows.items }
        ensures ok { IfOk result (λ routes. routes ≡ rows.items) }
        ensures right { OnOk result (spec.AreRight (map route_view rows.items)) }
        ensures fault { IfErr result (λ fault. fault ≢ NoMemory
            → IfSome (fault_view fault) (spec.IsFirstFault (map route_view rows.items))) }
    {
        check(alloc, &rows)?;
        with_cells(alloc, rows)
    }

    /// The row of the longest prefix that contains the address: none exactly where no prefix does.
    pub fn find(&self, addr: u32) -> Option<u16>
        ensures route { result ≡ spec.route_of (map route_view self.now) addr }
        ensures there { IfSome result (λ row. row < length self.now) }
    {
        if self.root.is_empty() {
            find_in(&self.rows, addr)
        } else {
            look_up(&self.rows, &self.root, &self.blocks, addr)
        }
    }

    /// The Ethernet address to which a row leads.
    pub fn via(&self, row: u16) -> [u8; 6]
        requires { row < length self.now }
        ensures { (route : Route) → slice_get self.now row ≡ Some route → result ≡ route.via }
    {
        self.rows[row as usize].via
    }
}

ghost use Rattle.lpm_fw.specs.declared.routes.Route.{Route};

/// How many rows a table with cells has at least.
const MANY: usize = 64;

/// The table of these rows, with cells where they are many.
fn with_cells(alloc: Global, rows: Vec<Route>) -> Result<Routes, RouteFault>
    requires { AreRows rows.items }
    ensures ok { IfOk result (λ routes. routes ≡ rows.items) }
    ensures fault { IfErr result (λ fault. fault ≡ NoMemory) }
{
    let mut root = Vec::new(alloc);
    let mut blocks = Vec::new(alloc);
    if rows.len() >= MANY {
        match fill(alloc, &rows, &mut root, &mut blocks) {
            Ok(()) => {}
            Err(Unbuilt::NoMemory) => return Err(RouteFault::NoMemory),
            Err(Unbuilt::Blocks) => root = Vec::new(alloc),
        }
    }
    Ok(Routes { rows, root, blocks })
}

/// Whether no row looks at more than 32 bits of an address, as `Routes::build` asks.
pub fn are_short(rows: &[Route]) -> bool
    ensures { IsTrue result ↔ AreShort rows.now }
{
    for row in rows {
        if row.bits > 32 {
            return false;
        }
    }
    true
}

/// Whether the row's prefix contains the address.
fn leads_to(row: Route, addr: u32) -> bool
    requires { row.bits ≤ 32 }
    ensures { result ≡ spec.leads_to addr (route_view row) }
{
    let free = 32 - row.bits as u32;
    addr as u64 >> free == row.to as u64 >> free
}

/// The row of the longest prefix that contains the address.
pub(crate) fn find_in(rows: &[Route], addr: u32) -> Option<u16>
    requires few { length rows.now ≤ 4096 }
    requires short { AreShort rows.now }
    ensures route { result ≡ spec.route_of (map route_view rows.now) addr }
    ensures there { IfSome result (λ row. row < length rows.now) }
{
    let mut best = None;
    for k in 0..rows.len() {
        best = better(rows, addr, best, k);
    }
    best
}

/// The better one of row `k` and the best before it.
fn better(rows: &[Route], addr: u32, best: Option<u16>, k: usize) -> Option<u16>
    requires few { length rows.now ≤ 4096 }
    requires short { AreShort rows.now }
    requires there { k < length rows.now }
    requires best { Best rows.now addr k best }
    ensures { Best rows.now addr (k + 1) result }
{
    let row = rows[k];
    if !leads_to(row, addr) {
        return best;
    }
    match best {
        Some(b) => {
            if rows[b as usize].bits < row.bits {
                Some(k as u16)
            } else {
                best
            }
        }
        None => Some(k as u16),
    }
}
