//! The backends of a stage, epoch by epoch.

ghost use Rattle.std.specs.Prelude.{◌≡◌, IfOk};
ghost use Rattle.flow_stages.specs.Rows.{names_in, macs_in, begins_in, rows_in, begins_built, names_built, macs_built};

use brick_base::{Name, NoMemory};
use chain_types::{Backend, Change};
use lb_maglev::Epoch;
use std::alloc::Global;

/// The names of backends.
fn names_of(alloc: Global, backends: &[Backend]) -> Result<Vec<Name>, NoMemory>
    ensures { IfOk result (λ names. names.items ≡ names_in backends.now) }
{
    let mut names = Vec::new(alloc);
    for k in 0..backends.len() {
        let name = Name::new(alloc, backends[k].name.as_str())?;
        names.push(name)?;
    }
    Ok(names)
}

/// Their Ethernet addresses.
fn macs_of(alloc: Global, backends: &[Backend]) -> Result<Vec<[u8; 6]>, NoMemory>
    ensures { IfOk result (λ macs. macs.items ≡ macs_in backends.now) }
{
    let mut macs = Vec::new(alloc);
    for k in 0..backends.len() {
        macs.push(backends[k].mac)?;
    }
    Ok(macs)
}

/// Where each epoch begins, and the names of its backends.
pub(crate) fn epochs_of(
    alloc: Global,
    backends: &[Backend],
    changes: &[Change],
) -> Result<Vec<Epoch>, NoMemory>
    ensures begins { IfOk result (λ rows. begins_built rows.items ≡ begins_in changes.now) }
    ensures names { IfOk result (λ rows. names_built rows.items ≡ rows_in names_in backends.now changes.now) }
{
    let mut rows = Vec::new(alloc);
    let names = names_of(alloc, backends)?;
    rows.push(Epoch { from: 0, names })?;
    for k in 0..changes.len() {
        let names = names_of(alloc, &changes[k].backends)?;
        rows.push(Epoch {
            from: changes[k].from,
            names,
        })?;
    }
    Ok(rows)
}

/// The Ethernet addresses of the backends of each epoch.
pub(crate) fn addresses_of(
    alloc: Global,
    backends: &[Backend],
    changes: &[Change],
) -> Result<Vec<Vec<[u8; 6]>>, NoMemory>
    ensures { IfOk result (λ macs. macs_built macs.items ≡ rows_in macs_in backends.now changes.now) }
{
    let mut rows = Vec::new(alloc);
    rows.push(macs_of(alloc, backends)?)?;
    for k in 0..changes.len() {
        let macs = macs_of(alloc, &changes[k].backends)?;
        rows.push(macs)?;
    }
    Ok(rows)
}
