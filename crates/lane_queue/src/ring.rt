// The calls on a ring.
ghost use Rattle.std.specs.Prelude.{◌≡◌, MatchOption};
ghost use Rattle.crossbeam_queue.specs.Passes.{view, IsPassOf, IsSamePass};
ghost use Rattle.lane_queue.specs.RingRule.{MaySend, Sends, MayGet, Gets};

use crate::ring_rule::{GetItem, Item, PutItem, RingRule, RingView};
use crossbeam_queue::{Pass, RuledArrayQueue};
use std::sync::Wait;
use std::thread;

/// A ring: a queue with a place for each buffer, and one for END.
pub type RingQueue = RuledArrayQueue<Item, RingView, RingRule>;

pub type RingPass = Pass<Item, RingView>;

/// Puts an item behind the others.
pub fn push<R: Wait>(rt: &R, ring: &RingQueue, pass: &mut RingPass, item: Item)
    requires pass { IsPassOf ring.now pass.old }
    requires may { MaySend (view pass.old) item }
    ensures same { IsSamePass pass.old pass.new }
    ensures put { Sends (view pass.old) item (view pass.new) }
{
    let mut value = item;
    for _ in rt.forever() {
        match ring.push_as::<PutItem, R>(rt, pass, value) {
            Ok(()) => return,
            Err(back) => value = back,
        }
        thread::yield_now();
    }
    unreachable!()
}

/// Takes the first item, if there is one.
pub fn pop<R: Wait>(rt: &R, ring: &RingQueue, pass: &mut RingPass) -> Option<Item>
    requires pass { IsPassOf ring.now pass.old }
    requires may { MayGet (view pass.old) }
    ensures same { IsSamePass pass.old pass.new }
    ensures got { MatchOption result (view pass.new ≡ view pass.old) (λ x. Gets (view pass.old) x (view pass.new)) }
{
    ring.pop_as::<GetItem, R>(rt, pass)
}
