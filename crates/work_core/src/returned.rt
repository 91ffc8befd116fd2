ghost use Rattle.std.specs.Prelude.{◌≡◌, ◌<◌, ◌≤◌, ◌+◌, ◌-◌, [], ◌∷◌, ◌++◌, Option, Some, None, take, drop, length};
ghost use Rattle.std.specs.Prelude.{MatchOption};
ghost use Rattle.std.specs.List.{slice_index_or, slice_set};

use packet_owner::Buffer;
use std::marker::Model;
use std::mem::swap;

/// The most buffers that go back at once.
const MOST: usize = 32;

/// At most 32 buffers that go back, in order.
#[derive(Debug, Drop)]
pub struct Returned {
    // each place from `front` up to that before `end` has a buffer, and no other has one
    buffers: [Option<Buffer>; MOST],
    front: usize,
    end: usize,
}

impl Model for Returned {
    ghost use Rattle.std.specs.Prelude.{◌≡◌, ◌≤◌, List, map, take, drop, Some, length};
    ghost use Rattle.packet_owner.specs.Buffer.{BufferModel};
    ghost use Rattle.work_core.specs.Returned.{buffers_of};

    ghost Value = { List BufferModel };

    ghost view = { λ r. buffers_of (drop r.front (take r.end r.buffers)) };

    ghost invariant = { λ r. (r.front ≤ r.end) × (r.end ≤ 32) × (length r.buffers ≡ 32)
        × (drop r.front (take r.end r.buffers) ≡ map Some (buffers_of (drop r.front (take r.end r.buffers)))) };
}

/// Takes out what stands at a place.
fn take_at(buffers: &mut [Option<Buffer>; MOST], at: usize) -> Option<Buffer>
    requires { at < length buffers.old }
    ensures value { result ≡ slice_index_or buffers.old at result }
    ensures items { buffers.new ≡ slice_set buffers.old at None }
{
    buffers[at].take()
}

/// Puts a buffer into a place that has none.
fn put_at(buffers: &mut [Option<Buffer>; MOST], at: usize, buffer: Buffer)
    requires { at < length buffers.old }
    ensures items { take (at + 1) buffers.new ≡ take at buffers.old ++ Some buffer ∷ [] }
    ensures long { length buffers.new ≡ length buffers.old }
{
    buffers[at] = Some(buffer);
}

/// Moves what stands from `front` on to the first places.
#[inline(never)]
fn close_up(buffers: &mut [Option<Buffer>; MOST], front: usize)
    requires { front ≤ length buffers.old }
    ensures items { take (length buffers.old - front) buffers.new ≡ drop front buffers.old }
    ensures long { length buffers.new ≡ length buffers.old }
{
    buffers.rotate_left(front);
}

/// Makes room for one more behind those from `front` up to `end`, and answers where these stand then.
fn make_room(buffers: &mut [Option<Buffer>; MOST], front: usize, end: usize) -> (usize, usize)
    requires within { (front ≤ end) × (end ≤ 32) × (length buffers.old ≡ 32) }
    requires few { end < 32 + front }
    ensures within { (result.0 ≤ result.1) × (result.1 < 32) }
    ensures items { drop result.0 (take result.1 buffers.new) ≡ drop front (take end buffers.old) }
    ensures long { length buffers.new ≡ 32 }
{
    if end < MOST {
        return (front, end);
    }
    close_up(buffers, front);
    (0, end - front)
}

impl Returned {
    /// No buffer.
    pub fn new() -> Returned
        ensures { result ≡ [] }
    {
        Returned {
            buffers: Default::default(),
            front: 0,
            end: 0,
        }
    }

    /// Adds a buffer at the end.
    #[inline]
    pub fn push(&mut self, buffer: Buffer)
        requires { length self.old < 32 }
        ensures { self.new ≡ self.old ++ buffer ∷ [] }
    {
        let (front, end) = make_room(&mut self.buffers, self.front, self.end);
        put_at(&mut self.buffers, end, buffer);
        self.front = front;
        self.end = end + 1;
    }

    /// Takes the first buffer out. There is none where all were taken.
    pub fn pop(&mut self) -> Option<Buffer>
        ensures { MatchOption result ((self.old ≡ []) × (self.new ≡ [])) (λ b. self.old ≡ b ∷ self.new) }
    {
        if self.front == self.end {
            // The places begin anew.
            self.front = 0;
            self.end = 0;
            return None;
        }
        let first = take_at(&mut self.buffers, self.front);
        self.front += 1;
        first
    }

    /// Takes over the buffers of another, which has none then. Those that were here are given up.
    pub fn take_over(&mut self, other: &mut Returned)
        ensures here { self.new ≡ other.old }
        ensures none_left { other.new ≡ [] }
    {
        'each: while let Some(buffer) = self.pop() {
            buffer.retire();
        }
        swap(self, other);
    }
}
