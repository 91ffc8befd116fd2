//! What goes from thread to thread.

use crate::Stream;

/// Takes any type of which the values may be given to another thread.
fn is_sent<T: Send>() {}

/// A worker is given the streams of its flows.
fn streams_are_sent() {
    is_sent::<Stream>();
}
