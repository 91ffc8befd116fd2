//! The classes of all records of a capture.

ghost use Rattle.std.specs.Prelude.{◌≡◌, IfOk, map, option_map};
ghost use Rattle.brick_spec.specs.FlowClass as spec;
ghost use Rattle.brick_base.specs.Flow.{class_view};
ghost use Rattle.flow_key.specs.View.{plan_view};
ghost use Rattle.flow_key.specs.Frames.{frames_of};

use crate::classifier::Classifier;
use crate::plan::NatPlan;
use brick_base::{Class, NoMemory};
use pcap_io::Capture;
use std::alloc::Global;

/// The class of each record of a capture, in order, also of those that are refused or dropped later.
pub fn classify_all(
    alloc: Global,
    nat: Option<NatPlan>,
    capture: &Capture,
) -> Result<Vec<Class>, NoMemory>
    ensures { IfOk result (λ classes. map class_view classes.items
        ≡ spec.classes_of (option_map plan_view nat) (frames_of capture.now)) }
{
    let mut classifier = Classifier::new(alloc, nat)?;
    let mut classes = Vec::with_capacity(alloc, capture.count() as usize)?;
    for k in 0..capture.count() {
        let class = classifier.classify(capture.entry(k).frame)?;
        classes.push(class)?;
    }
    Ok(classes)
}
