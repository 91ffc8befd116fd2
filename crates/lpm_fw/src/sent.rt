//! What goes from thread to thread.

use crate::{Established, Routes, Rules};

/// Takes any type of which the values may be given to another thread, and lent to several.
fn is_shared<T: Send + Sync>() {}

/// Workers are lent tables of routes and rules, and each keeps the flows that it allowed.
fn tables_are_shared() {
    is_shared::<Routes>();
    is_shared::<Rules>();
    is_shared::<Established>();
}
