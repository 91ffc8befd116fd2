//! A table of cells over the ranges of addresses.

ghost use Rattle.std.specs.Prelude.{◌≡◌, ◌≢◌, ℕ, ◌≤◌, ◌<◌, ◌+◌, ◌-◌, ◌*◌, ◌/◌, ◌%◌, ◌^◌, List, [], ◌∷◌, ◌++◌, length};
ghost use Rattle.std.specs.Prelude.{Some, None, IfSome, IfOk, OnOk};
ghost use Rattle.std.specs.List.{slice_get, slice_index};
ghost use Rattle.lpm_fw.specs.Cells as spec;
ghost use Rattle.lpm_fw.specs.Parts.{rows_in};
ghost use Rattle.lpm_fw.specs.Scan.{AreShort};
ghost use Rattle.lpm_fw.specs.declared.routes.Route.{Route};
ghost use Rattle.lpm_fw.specs.declared.cells.Unbuilt.TheVariants.{NoMemory as OutOfMemory};

use crate::parts::Parts;
use crate::routes::Route;
use brick_base::NoMemory;
use std::alloc::Global;

/// How many rows a table has at most. A greater cell is a block.
const ROWS: u16 = 4096;

/// The row of a cell that is no block.
fn row_of(cell: u16) -> Option<u16>
    ensures { result ≡ spec.row_of cell }
{
    if cell == 0 { None } else { Some(cell - 1) }
}

/// The row for an address: at most three cells are read.
pub(crate) fn look_up(rows: &[Route], root: &[u16], blocks: &[[u16; 256]], addr: u32) -> Option<u16>
    requires { spec.AreCells rows.now root.now blocks.now 65536 }
    ensures { spec.Finds rows.now addr result }
{
    let cell = root[(addr >> 16) as usize];
    if cell <= ROWS {
        return row_of(cell);
    }
    let cell = blocks[(cell - ROWS - 1) as usize][(addr >> 8) as usize % 256];
    if cell <= ROWS {
        return row_of(cell);
    }
    row_of(blocks[(cell - ROWS - 1) as usize][addr as usize % 256])
}

/// The cell of a row, where there is one.
fn row_cell(best: Option<u16>) -> u16
    requires { IfSome best (λ r. r < 4096) }
    ensures row { spec.row_of result ≡ best }
    ensures few { result < 4097 }
{
    match best {
        Some(r) => r + 1,
        None => 0,
    }
}

/// The longer one of the best row and another.
fn longer(rows: &[Route], best: Option<u16>, k: u16) -> Option<u16>
    requires k { k < length rows.now }
    requires best { IfSome best (λ r. r < length rows.now) }
    ensures within { IfSome result (λ r. r < length rows.now) }
    ensures longer { spec.IsLonger rows.now best k result }
{
    match best {
        Some(b) => {
            if rows[b as usize].bits < rows[k as usize].bits {
                Some(k)
            } else {
                best
            }
        }
        None => Some(k),
    }
}

/// The cells of the 256 parts of a range, and the rows that lie inside the parts.
#[derive(Drop)]
struct Divided {
    cells: [u16; 256],
    inside: Parts,
}

/// Puts a row into the cells of the parts that it contains: those whose numbers begin with the bits of the number of
/// `part` that are above the last `free` of eight.
fn cover(rows: &[Route], cells: &mut [u16; 256], part: usize, free: u32, k: u16)
    requires few { length rows.now ≤ 4096 }
    requires part { part < 256 }
    requires free { free ≤ 8 }
    requires k { k < length rows.now }
    requires rows { spec.HaveRows rows.now cells.old }
    ensures rows { spec.HaveRows rows.now cells.new }
    ensures here { (i : ℕ) → i < 256 → i / 2 ^ free ≡ part / 2 ^ free
        → spec.IsLonger rows.now (spec.row_of (slice_index cells.old i)) k (spec.row_of (slice_index cells.new i)) }
    ensures others { (i : ℕ) → i < 256 → i / 2 ^ free ≢ part / 2 ^ free
        → slice_index cells.new i ≡ slice_index cells.old i }
{
    let size = 1usize << free;
    let first = part / size * size;
    for i in first..first + size {
        cells[i] = row_cell(longer(rows, row_of(cells[i]), k));
    }
}

/// The part of 2 ^ `w` addresses, of the 256 of a range, that has the row's first address.
fn part_of(row: Route, w: u32) -> usize
    requires { w ≤ 24 }
    ensures part { result ≡ row.to / 2 ^ w % 256 }
    ensures address { row.to < 2 ^ 32 }
{
    (row.to >> w) as usize % 256
}

/// Puts a row into the cells of the parts of 2 ^ `w` addresses that it contains, or among the rows inside a part.
fn place(
    alloc: Global,
    rows: &[Route],
    divided: &mut Divided,
    k: u16,
    w: u32,
) -> Result<(), NoMemory>
    requires few { length rows.now ≤ 4096 }
    requires short { AreShort rows.now }
    requires w { w ≤ 24 }
    requires k { k < length rows.now }
    requires small { (row : Route) → slice_get rows.now k ≡ Some row → 32 ≤ row.bits + (w + 8) }
    requires rows { spec.HaveRows rows.now divided.old.cells }
    ensures rows { spec.HaveRows rows.now divided.new.cells }
    ensures address { w ≡ 0 → divided.new.inside ≡ divided.old.inside }
    ensures placed { (a : ℕ) (list : List ℕ) (from : ℕ) → slice_get list from ≡ Some k
        → spec.IsInside rows.now (w + 8) a k
        → spec.AreDivided rows.now w a list from divided.old.cells divided.old.inside
        → OnOk result (spec.AreDivided rows.now w a list (from + 1) divided.new.cells divided.new.inside) }
{
    let row = rows[k as usize];
    let free = 32 - row.bits as u32;
    let part = part_of(row, w);
    if free >= w {
        cover(rows, &mut divided.cells, part, free - w, k);
        return Ok(());
    }
    divided.inside.push(alloc, part, k)?;
    Ok(())
}

/// The cells of the 256 parts of 2 ^ `w` addresses of a range, by the rows that lie inside the range and the best one
/// round it. Each row is looked at once.
fn divide(
    alloc: Global,
    rows: &[Route],
    best: Option<u16>,
    inside: &[u16],
    w: u32,
) -> Result<Divided, NoMemory>
    requires few { length rows.now ≤ 4096 }
    requires short { AreShort rows.now }
    requires w { w ≤ 24 }
    requires range { spec.AreOfRange rows.now (w + 8) inside.now best }
    ensures rows { IfOk result (λ divided. spec.HaveRows rows.now divided.cells) }
    ensures address { w ≡ 0 → IfOk result (λ divided. (part : ℕ) → rows_in divided.inside part ≡ []) }
    ensures divided { (a : ℕ) → spec.AreSorted rows.now (w + 8) a [] 0 inside.now best
        → IfOk result (λ divided. spec.AreDivided rows.now w a [] 0 divided.cells divided.inside) }
{
    let mut divided = Divided {
        cells: [row_cell(best); 256],
        inside: Parts::new(alloc),
    };
    for j in 0..inside.len() {
        place(alloc, rows, &mut divided, inside[j], w)?;
    }
    Ok(divided)
}

/// Why a table has no cells.
#[derive(Clone, Copy, Debug, PartialEq, Eq)]
pub(crate) enum Unbuilt {
    NoMemory,
    /// A cell has no number for a further block.
    Blocks,
}

impl From<NoMemory> for Unbuilt {
    ghost from_gives = { λ _ e. e ≡ OutOfMemory };

    fn from(_error: NoMemory) -> Unbuilt {
        Unbuilt::NoMemory
    }
}

/// Puts a block behind the others, and gives its cell.
fn put_block(blocks: &mut Vec<[u16; 256]>, block: [u16; 256]) -> Result<u16, Unbuilt>
    ensures more { spec.AreMore blocks.old.items blocks.new.items }
    ensures cell { IfOk result (λ cell. 4097 ≤ cell) }
    ensures block { IfOk result (λ cell. slice_get blocks.new.items (cell - 4097) ≡ Some block) }
{
    let number = blocks.len();
    if number > 61_438 {
        return Err(Unbuilt::Blocks);
    }
    match blocks.push(block) {
        Ok(_) => Ok(ROWS + 1 + number as u16),
        Err(_) => Err(Unbuilt::NoMemory),
    }
}

/// The cells of the 256 parts of 256 ^ `level` addresses of a range. The blocks that they need come behind the others.
fn cells_of(
    alloc: Global,
    rows: &[Route],
    best: Option<u16>,
    inside: &[u16],
    level: u32,
    blocks: &mut Vec<[u16; 256]>,
) -> Result<[u16; 256], Unbuilt>
    requires few { length rows.now ≤ 4096 }
    requires short { AreShort rows.now }
    requires level { level ≤ 2 }
    requires range { spec.AreOfRange rows.now (8 * level + 8) inside.now best }
    ensures more { spec.AreMore blocks.old.items blocks.new.items }
    ensures long { IfOk result (λ cells. length cells ≡ 256) }
    ensures cells { (a : ℕ) → spec.AreSorted rows.now (8 * level + 8) a [] 0 inside.now best
        → IfOk result (λ cells. spec.AreParts rows.now blocks.new.items level a cells 256) }
{
    let divided = divide(alloc, rows, best, inside, 8 * level)?;
    let mut cells = divided.cells;
    for i in 0..256 {
        let inside = divided.inside.get(i);
        if inside.is_empty() {
            continue;
        }
        let best = row_of(cells[i]);
        let block = cells_of(alloc, rows, best, inside, level - 1, blocks)?;
        cells[i] = put_block(blocks, block)?;
    }
    Ok(cells)
}

/// Puts the cells of a range behind the others.
fn put_cells(root: &mut Vec<u16>, cells: &[u16; 256]) -> Result<(), NoMemory>
    ensures { OnOk result (root.new.items ≡ root.old.items ++ cells.now) }
{
    root.extend_from_slice(cells)?;
    Ok(())
}

/// The numbers of all rows.
fn every(alloc: Global, rows: &[Route]) -> Result<Vec<u16>, NoMemory>
    requires few { length rows.now ≤ 4096 }
    ensures long { IfOk result (λ every. length every.items ≡ length rows.now) }
    ensures each { IfOk result (λ every. (k : ℕ) → k < length every.items → slice_get every.items k ≡ Some k) }
{
    let mut every = Vec::new(alloc);
    for k in 0..rows.len() {
        every.push(k as u16)?;
    }
    Ok(every)
}

/// The cells for these rows.
pub(crate) fn fill(
    alloc: Global,
    rows: &[Route],
    root: &mut Vec<u16>,
    blocks: &mut Vec<[u16; 256]>,
) -> Result<(), Unbuilt>
    requires few { length rows.now ≤ 4096 }
    requires short { AreShort rows.now }
    requires root { root.old.items ≡ [] }
    ensures { OnOk result (spec.AreCells rows.now root.new.items blocks.new.items 65536) }
{
    let every = every(alloc, rows)?;
    let divided = divide(alloc, rows, None, &every, 24)?;
    for high in 0..256 {
        let best = row_of(divided.cells[high]);
        let inside = divided.inside.get(high);
        let cells = cells_of(alloc, rows, best, inside, 2, blocks)?;
        put_cells(root, &cells)?;
    }
    Ok(())
}
