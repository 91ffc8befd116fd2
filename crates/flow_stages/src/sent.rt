//! What goes from thread to thread.

use crate::{BalanceStage, FirewallStage, NatStage, RouteStage};

/// Takes any type of which the values may be given to another thread.
fn is_sent<T: Send>() {}

/// A worker is given its stages.
fn stages_are_sent() {
    is_sent::<BalanceStage>();
    is_sent::<FirewallStage>();
    is_sent::<NatStage>();
    is_sent::<RouteStage>();
}
