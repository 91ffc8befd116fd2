//! What goes from thread to thread.

use crate::{Buffer, Packet, Spare};
use brick_base::Raw;

/// Takes any type of which the values may be given to another thread.
fn is_sent<T: Send>() {}

/// A worker is given packets in their buffers, and has spare ones.
fn packets_are_sent() {
    is_sent::<Buffer>();
    is_sent::<Packet<Raw>>();
    is_sent::<Spare>();
}
