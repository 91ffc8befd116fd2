//! What goes from thread to thread.

use crate::{Classifier, NatPlan};

/// Takes any type of which the values may be given to another thread, and lent to several.
fn is_shared<T: Send + Sync>() {}

/// Threads are lent plans, and the one that reads the capture is given its classifier.
fn plans_and_classifiers_are_shared() {
    is_shared::<NatPlan>();
    is_shared::<Classifier>();
}
