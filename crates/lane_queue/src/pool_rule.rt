// What a pass of a lane's pool knows, the rule of the pool, and the names of its steps.
ghost use Rattle.lane_queue.specs.PoolRule.{Pool, first_view, Fills, Puts, Takes, Rest, Whole, kept_parts, given_part};
ghost use Rattle.lane_queue.specs.PoolRule.{both_parts, spent};

use crossbeam_queue::protocol::{Join, Lesson, Outcome, Protocol, Split};
use packet_owner::Buffer;
use std::collections::LinkedList;

/// What a pass knows. No value of it is made.
pub struct PoolView {
    /// Its share of 1,024 parts.
    pub parts: u64,
    /// It may take buffers.
    pub takes: bool,
    /// The slots of the buffers that it put, and of those that it took.
    pub put: LinkedList<u32>,
    pub taken: LinkedList<u32>,
    /// The room of each buffer, and the number that each slot is below, once a buffer was put.
    pub size: Option<(u32, u32)>,
}

pub struct PoolRule;

impl Protocol<Buffer, PoolView> for PoolRule {
    ghost holds = { Pool };

    ghost first = { first_view };
}

/// The one pass that there is puts a buffer in, which may make the pool larger.
pub struct Fill;

impl Outcome<Buffer, PoolView> for Fill {
    ghost then = { Fills };
}

impl Lesson<Buffer, PoolView> for Fill {
    ghost fact = { Whole };
}

/// A buffer is put back.
pub struct Put;

impl Outcome<Buffer, PoolView> for Put {
    ghost then = { Puts };
}

impl Lesson<Buffer, PoolView> for Put {
    ghost fact = { λ v items. Unit {0} };
}

/// A buffer is taken.
pub struct Take;

impl Outcome<Buffer, PoolView> for Take {
    ghost then = { Takes };
}

impl Lesson<Buffer, PoolView> for Take {
    ghost fact = { Rest };
}

/// What the pass with all parts learns.
pub struct All;

impl Lesson<Buffer, PoolView> for All {
    ghost fact = { Whole };
}

/// One part goes to a worker, which may put.
pub struct Part;

impl Split<PoolView> for Part {
    ghost left = { kept_parts };

    ghost right = { given_part };
}

impl Join<PoolView> for Part {
    ghost both = { both_parts };

    ghost spent = { spent };
}
