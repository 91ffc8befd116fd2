// The calls on a lane's pool.
ghost use Rattle.std.specs.Prelude.{◌≡◌, ℕ, ◌+◌, ◌<◌, ◌≤◌, true, [], ◌∷◌, ◌++◌, MatchOption};
ghost use Rattle.crossbeam_queue.specs.Passes.{view, IsPassOf, IsSamePass};
ghost use Rattle.lane_spec.specs.Counts.{times};
ghost use Rattle.lane_queue.specs.PoolRule.{pool_view, FitsPool, Takes};

use crate::pool_rule::{PoolRule, PoolView, Put, Take};
use crossbeam_queue::{Pass, RuledArrayQueue};
use packet_owner::Buffer;
use std::sync::Wait;
use std::thread;

/// A lane's pool: a queue with a place for each buffer.
pub type Pool = RuledArrayQueue<Buffer, PoolView, PoolRule>;

pub type PoolPass = Pass<Buffer, PoolView>;

/// Takes a buffer. `None` shows that all that this pass has put was taken by it.
pub fn take<R: Wait>(rt: &R, pool: &Pool, pass: &mut PoolPass) -> Option<Buffer>
    requires pass { IsPassOf pool.now pass.old }
    requires may { (0 < (view pass.old).parts) × ((view pass.old).takes ≡ true) }
    ensures same { IsSamePass pass.old pass.new }
    ensures given { MatchOption result ((view pass.new ≡ view pass.old)
        × ((i : ℕ) → times i (view pass.old).put
        ≤ times i (view pass.old).taken)) (λ b. Takes (view pass.old) b (view pass.new)) }
{
    pool.pop_as::<Take, R>(rt, pass)
}

/// Puts a buffer back.
pub fn put<R: Wait>(rt: &R, pool: &Pool, pass: &mut PoolPass, b: Buffer)
    requires pass { IsPassOf pool.now pass.old }
    requires may { (0 < (view pass.old).parts) × FitsPool (view pass.old).size b }
    ensures same { IsSamePass pass.old pass.new }
    ensures put { view pass.new
        ≡ pool_view (view pass.old).parts (view pass.old).takes ((view pass.old).put ++ b.slot
        ∷ []) (view pass.old).taken (view pass.old).size }
{
    let mut value = b;
    for _ in rt.forever() {
        match pool.push_as::<Put, R>(rt, pass, value) {
            Ok(()) => return,
            Err(back) => value = back,
        }
        thread::yield_now();
    }
    unreachable!()
}
