//! What goes from thread to thread.

use crate::ScanStage;

/// Takes any type of which the values may be given to another thread.
fn is_sent<T: Send>() {}

/// A worker's stage keeps scans of its flows.
fn stages_are_sent() {
    is_sent::<ScanStage>();
}
