//! What goes from thread to thread.

use crate::Scan;

/// Takes any type of which the values may be given to another thread.
fn is_sent<T: Send>() {}

/// A worker is given the scans of its flows.
fn scans_are_sent() {
    is_sent::<Scan>();
}
