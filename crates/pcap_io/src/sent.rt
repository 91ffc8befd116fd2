//! What goes from thread to thread.

use crate::{Capture, Item, Items, ItemsBuilder};

/// Takes any type of which the values may be given to another thread, and lent to several.
fn is_shared<T: Send + Sync>() {}

/// Workers are lent captures, and gather and answer items.
fn captures_and_items_are_shared() {
    is_shared::<Capture>();
    is_shared::<Item>();
    is_shared::<Items>();
    is_shared::<ItemsBuilder>();
}
