//! What goes from thread to thread.

use crate::WindowStage;

/// Takes any type of which the values may be given to another thread.
fn is_sent<T: Send>() {}

/// A worker's stage keeps streams of its flows.
fn stages_are_sent() {
    is_sent::<WindowStage>();
}
