//! What goes from thread to thread.

use crate::Groups;

/// Takes any type of which the values may be given to another thread, and lent to several.
fn is_shared<T: Send + Sync>() {}

/// Workers are lent the matches of groups.
fn groups_are_shared() {
    is_shared::<Groups>();
}
