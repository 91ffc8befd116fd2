//! What goes from thread to thread.

use crate::{Class, Name, NoMemory, Reason};

/// Takes any type of which the values may be given to another thread, and lent to several.
fn is_shared<T: Send + Sync>() {}

/// Workers are given the classes of records, and lent names; they answer reasons and want of memory.
fn classes_and_names_are_shared() {
    is_shared::<Class>();
    is_shared::<Name>();
    is_shared::<Reason>();
    is_shared::<NoMemory>();
}
