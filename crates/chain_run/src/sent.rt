//! A tenant's work goes to a worker's thread.

use crate::path::TenantWork;
use work_core::NewWork;

/// Takes any work of a chain, which may be given to another thread.
fn is_work<W: NewWork>() {}

/// A worker is given the works of its tenants.
fn works_are_sent() {
    is_work::<TenantWork>();
}
