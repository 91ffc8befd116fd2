//! Balance tables that change from a record on.

ghost use Rattle.std.specs.Prelude.{◌≡◌, ◌↔◌, IsTrue, ℕ, ◌<◌, ◌≤◌, [], Some, length, IfOk};
ghost use Rattle.std.specs.List.{slice_get, slice_index_or};
ghost use Rattle.brick_spec.specs.Balance.{backend_in};
ghost use Rattle.flow_spec.specs.Balancing.{epoch_of};
ghost use Rattle.lb_maglev.specs.EpochTables.{epoch_tables, AreNamed};
ghost use Rattle.lb_maglev.specs.declared.epochs.Epoch.{Epoch};

use crate::table::Maglev;
use brick_base::{Name, NoMemory};
use std::alloc::Global;
use std::marker::Model;

/// An epoch: flows that are opened from a record on go to these backends, until the next epoch begins.
#[derive(Debug, Drop)]
pub struct Epoch {
    /// The number of that record, from 0 at the head of the capture.
    pub from: u32,
    /// The names of the backends, 1 to 64, in the order in which they take turns.
    pub names: Vec<Name>,
}

/// The balance tables of 1 to 16 epochs. Contracts see where each epoch begins, and its table.
#[derive(Debug, Drop)]
pub struct Epochs {
    begins: Vec<u32>,
    tables: Vec<Maglev>,
}

impl Model for Epochs {
    ghost use Rattle.lb_maglev.specs.EpochTables.{EpochTables, AreEpochTables};

    ghost Value = { EpochTables };

    ghost view = { λ e. record { begins = e.begins.items; tables = e.tables.items } };

    ghost invariant = { λ e. AreEpochTables (record { begins = e.begins.items; tables = e.tables.items }) };
}

impl Epochs {
    /// The tables of these epochs, 1 to 16, in the order in which they begin: the first at record 0, and each later one
    /// behind the one before it.
    pub fn build(alloc: Global, rows: Vec<Epoch>) -> Result<Epochs, NoMemory>
        requires some { 1 ≤ length rows.items }
        requires few { length rows.items ≤ 16 }
        requires named { AreNamed rows.items }
        ensures tables { IfOk result (λ epochs. epochs ≡ epoch_tables rows.items) }

        // Each hash leads to a backend of the epoch.
        ensures backends { IfOk result (λ epochs. (e hash : ℕ) (row : Epoch) → slice_get rows.items e ≡ Some row
            → backend_in (slice_index_or epochs.tables e []) hash < length row.names.items) }
    {
        let mut tables = Vec::new(alloc);
        for k in 0..rows.len() {
            tables.push(Maglev::build(alloc, &rows[k].names)?)?;
        }
        let begins = rows.iter().map(|row| row.from).collect(alloc)?;
        Ok(Epochs { begins, tables })
    }

    /// To which backend a flow goes, by the number of its first record and the hash of its key: the number of the epoch
    /// in which it was opened, from 0, and the number of the backend in the list of that epoch, from 0. No memory is
    /// taken.
    pub fn backend(&self, opened: u32, hash: u64) -> (u8, u8)
        ensures epoch { result.0 ≡ epoch_of self.now.begins opened }
        ensures backend { result.1 ≡ backend_in (slice_index_or self.now.tables result.0 []) hash }
        ensures within { result.0 < length self.now.begins }
    {
        let epoch = epoch_at(&self.begins, opened);
        (epoch as u8, self.tables[epoch].backend(hash))
    }
}

/// Whether each epoch has 1 to 64 names, as `Epochs::build` asks.
pub fn are_named(rows: &[Epoch]) -> bool
    ensures { IsTrue result ↔ AreNamed rows.now }
{
    for row in rows {
        if row.names.is_empty() || row.names.len() > 64 {
            return false;
        }
    }
    true
}

/// The last epoch that begins at a record or before it, the first one where none does.
fn epoch_at(begins: &[u32], opened: u32) -> usize
    requires { 1 ≤ length begins.now }
    ensures last { result ≡ epoch_of begins.now opened }
    ensures within { result < length begins.now }
{
    let mut epoch = 0;
    for k in 0..begins.len() {
        if begins[k] <= opened {
            epoch = k;
        }
    }
    epoch
}
