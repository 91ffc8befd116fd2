//! Seats and works, in rows.
ghost use Rattle.std.specs.Prelude.{◌≡◌, ℕ, ◌+◌, ◌<◌, ◌≤◌, List, [], ◌∷◌, ◌++◌, length, Some, IfOk, slice_get, vec_len};
ghost use Rattle.std.specs.Prelude.{vec_capacity};
ghost use Rattle.work_crew.specs.Rows.{Each, HasPlaces, HasRoom, HasTaken, IsEmptied, IsTurned};
ghost use Rattle.work_crew.specs.declared.row.Row.{Row};

use crate::starting::put;
use brick_base::NoMemory;
use std::alloc::Global;

/// Seats and their works: those of a worker lane by lane, or those of a lane worker by worker.
#[derive(Debug, Drop)]
pub struct Row<S, W> {
    pub seats: Vec<S>,
    pub works: Vec<W>,
}

/// Puts a seat and its work behind those of a row, where there is room. It takes no memory.
fn take_in<S: Drop, W: Drop>(row: &mut Row<S, W>, seat: S, work: W)
    requires room { HasRoom row.old }
    ensures taken { HasTaken seat work row.old row.new }
{
    put(&mut row.seats, seat);
    put(&mut row.works, work);
}

/// Moves what stands at each place w of a row behind what is in column w.
fn move_row<S: Drop, W: Drop>(row: &mut Row<S, W>, columns: &mut [Row<S, W>])
    requires same { length row.old.works.items ≡ length row.old.seats.items }
    requires few { length row.old.seats.items ≤ length columns.old }
    requires room { Each HasRoom columns.old }
    ensures count { length columns.new ≡ length columns.old }
    ensures emptied { IsEmptied row.old row.new }
    ensures taken { (w : ℕ) (seat : S) (work : W) (old new : Row S W) → slice_get row.old.seats.items w ≡ Some seat
        → slice_get row.old.works.items w ≡ Some work
        → slice_get columns.old w ≡ Some old → slice_get columns.new w ≡ Some new → HasTaken seat work old new }
    ensures others { (w : ℕ) → length row.old.seats.items ≤ w → slice_get columns.new w ≡ slice_get columns.old w }
{
    if let Some(seat) = row.seats.pop() {
        if let Some(work) = row.works.pop() {
            let w = row.seats.len();
            move_row(row, columns);
            take_in(&mut columns[w], seat, work);
        }
    }
}

/// Moves what stands in rows into columns: what stands at place w of row t then stands at place t of column w. It takes
/// no memory.
pub fn turn_round<S: Drop, W: Drop>(rows: &mut [Row<S, W>], columns: &mut [Row<S, W>])
    requires rows { Each (HasPlaces (length columns.old) 0) rows.old }
    requires columns { Each (HasPlaces 0 (length rows.old)) columns.old }
    ensures rows_count { length rows.new ≡ length rows.old }
    ensures columns_count { length columns.new ≡ length columns.old }
    ensures rows { Each (HasPlaces 0 (length columns.old)) rows.new }
    ensures columns { Each (HasPlaces (length rows.old) (length rows.old)) columns.new }
    ensures turned { IsTurned rows.old columns.new }
{
    'each: for t in 0..rows.len() {
        move_row(&mut rows[t], columns);
    }
}

/// So many rows with room for so many places each, and nothing in them.
pub fn empty_rows<S: Drop, W: Drop>(
    alloc: Global,
    rows: usize,
    places: usize,
) -> Result<Vec<Row<S, W>>, NoMemory>
    ensures count { IfOk result (λ list. length list.items ≡ rows) }
    ensures empty { IfOk result (λ list. Each (HasPlaces 0 places) list.items) }
{
    let mut list = Vec::new(alloc);
    'each: for done in 0..rows {
        let seats = Vec::with_capacity(alloc, places)?;
        let works = Vec::with_capacity(alloc, places)?;
        list.push(Row { seats, works })?;
    }
    Ok(list)
}
