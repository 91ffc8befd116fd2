//! What goes from thread to thread.

use crate::{Epochs, Maglev};

/// Takes any type of which the values may be given to another thread, and lent to several.
fn is_shared<T: Send + Sync>() {}

/// Workers are lent balance tables.
fn tables_are_shared() {
    is_shared::<Maglev>();
    is_shared::<Epochs>();
}
