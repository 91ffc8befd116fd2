//! What threads share, and what goes from thread to thread.

use crate::{QueueIngest, QueueKit, QueueLane, QueueWorker};

/// Takes any type of which threads may share the values.
fn is_shared<T: Sync>() {}

/// Takes any type of which the values may be given to another thread.
fn is_sent<T: Send>() {}

/// The seats of a lane share it, each in a thread of its own.
fn lanes_are_shared() {
    is_shared::<QueueKit>();
    is_shared::<QueueLane>();
    is_sent::<QueueIngest>();
    is_sent::<QueueWorker>();
}
