//! Crews over each kit of lanes.
mod books;
mod captures;
mod cases;
mod generated;
mod refusing;
mod setting;

use crate::tests::cases::{
    NewKit, firewall, gated, generated, one_frame, start_refused, two_tenants,
};
use lane_queue::QueueKit;
use lane_table::TableKit;
use std::alloc::Global;
use std::test::Fail;

impl NewKit for TableKit {
    fn new_kit(alloc: Global) -> TableKit {
        TableKit::new(alloc)
    }
}

impl NewKit for QueueKit {
    fn new_kit(alloc: Global) -> QueueKit {
        QueueKit::new(alloc)
    }
}

#[test]
fn one_frame_and_one_worker(rt: HostRuntime) -> Result<(), Fail> {
    one_frame::<TableKit, HostRuntime>(&rt, rt.alloc())?;
    one_frame::<QueueKit, HostRuntime>(&rt, rt.alloc())
}

#[test]
fn a_firewall_with_one_buffer(rt: HostRuntime) -> Result<(), Fail> {
    firewall::<TableKit, HostRuntime>(&rt, rt.alloc())?;
    firewall::<QueueKit, HostRuntime>(&rt, rt.alloc())
}

#[test]
fn generated_records_in_four_buffers(rt: HostRuntime) -> Result<(), Fail> {
    generated::<TableKit, HostRuntime>(&rt, rt.alloc())?;
    generated::<QueueKit, HostRuntime>(&rt, rt.alloc())
}

#[test]
fn the_second_record_waits_for_the_first(rt: HostRuntime) -> Result<(), Fail> {
    gated::<TableKit, HostRuntime>(&rt, rt.alloc())?;
    gated::<QueueKit, HostRuntime>(&rt, rt.alloc())
}

#[test]
fn one_tenant_drops_and_one_waits(rt: HostRuntime) -> Result<(), Fail> {
    two_tenants::<TableKit, HostRuntime>(&rt, rt.alloc())?;
    two_tenants::<QueueKit, HostRuntime>(&rt, rt.alloc())
}

#[test]
fn the_second_lane_is_refused(rt: HostRuntime) -> Result<(), Fail> {
    start_refused::<TableKit, HostRuntime>(&rt, rt.alloc())?;
    start_refused::<QueueKit, HostRuntime>(&rt, rt.alloc())
}
