//! How a backend goes over the places.

ghost use Rattle.std.specs.Prelude.{◌≡◌, ◌<◌, ◌≤◌, true, length, IfOk};
ghost use Rattle.brick_spec.specs.Balance.{is_free, offset_of, skip_of, preferred_place, first_free, with_taken};
ghost use Rattle.lb_maglev.specs.Passed.{ArePassed};

use crate::hashes;
use crate::table::PLACES;
use brick_base::{Name, NoMemory};
use std::alloc::Global;

/// How a backend goes over the places in the order of its preference.
#[derive(Clone, Copy, Debug)]
pub struct Walk {
    /// The place that it prefers to all others.
    offset: usize,
    /// How far on its next preferred place is.
    skip: usize,
    /// How many of its preferred places it has passed. They are taken.
    next: usize,
    ghost offset_fits: { offset < 251 },
    ghost skip_fits: { skip ≤ 250 },
    ghost next_fits: { next ≤ 251 },
}

impl Walk {
    /// The walk of the backend with this name, which has passed no place.
    pub fn new(alloc: Global, name: &Name) -> Result<Walk, NoMemory>
        ensures { IfOk result (λ walk. (walk.offset ≡ offset_of name.now) × (walk.skip ≡ skip_of name.now)
            × (walk.next ≡ 0)) }
    {
        let offset = hashes::offset_of(alloc, name)?;
        let skip = hashes::skip_of(alloc, name)?;
        Ok(Walk {
            offset,
            skip,
            next: 0,
        })
    }

    /// Its preferred place `j`, from 0.
    fn place(&self, j: usize) -> usize
        requires { j < 251 }
        ensures { result ≡ preferred_place self.now.offset self.now.skip j }
    {
        (self.offset + j * self.skip) % PLACES
    }

    /// How many of its preferred places are taken before the first that is free: 251 where none is.
    fn taken_before(&self, places: &[Option<u8>]) -> usize
        requires long { length places.now ≡ 251 }
        requires passed { ArePassed places.now self.now.offset self.now.skip self.now.next }
        ensures onward { self.now.next ≤ result }
        ensures within { result ≤ 251 }
        ensures passed { ArePassed places.now self.now.offset self.now.skip result }
        ensures free { result < 251 → is_free places.now (preferred_place self.now.offset self.now.skip result) ≡ true }
    {
        for j in self.next..PLACES {
            if places[self.place(j)].is_none() {
                return j;
            }
        }
        PLACES
    }

    /// The backend takes its first preferred place that is still free, where there is one.
    pub fn take_turn(&mut self, places: &mut [Option<u8>], backend: u8)
        requires long { length places.old ≡ 251 }
        requires passed { ArePassed places.old self.old.offset self.old.skip self.old.next }
        ensures taken { places.new
            ≡ with_taken places.old (first_free places.old self.old.offset self.old.skip) backend }
        ensures offset { self.new.offset ≡ self.old.offset }
        ensures skip { self.new.skip ≡ self.old.skip }
        ensures passed { ArePassed places.new self.new.offset self.new.skip self.new.next }
        ensures onward { self.old.next ≤ self.new.next }
    {
        self.next = self.taken_before(places);
        if self.next < PLACES {
            let place = self.place(self.next);
            places[place] = Some(backend);
            self.next += 1;
        }
    }
}
