//! What goes from thread to thread.

use crate::{Batch, Outlet, Results, Work};

/// Takes any type of which the values may be given to another thread.
fn is_sent<T: Send>() {}

/// A worker is given batches, and hands on what is in its outlets.
fn batches_are_sent() {
    is_sent::<Work>();
    is_sent::<Batch>();
    is_sent::<Outlet>();
    is_sent::<Results>();
}
