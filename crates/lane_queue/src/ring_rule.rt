// What lies in a ring, what a pass of it knows, the rule of a ring, and the names of its steps.
ghost use Rattle.std.specs.Prelude.{Option, None};
ghost use Rattle.lane_queue.specs.declared.ring_rule.RingAbout.{RingAbout};
ghost use Rattle.lane_queue.specs.RingRule.{Ring, first_view, Sends, Gets, IsDone, first_sender, first_getter};
ghost use Rattle.lane_queue.specs.RingRule.{both_halves, spent};

use brick_base::Raw;
use crossbeam_queue::protocol::{Join, Lesson, Outcome, Protocol, Split};
use packet_owner::Packet;
use pcap_io::Capture;
use std::collections::LinkedList;
use std::fmt;
use std::marker::{Brand, PhantomData};
use std::snapshot::Snapshot;

/// What a ring is made with: the lane's number of buffers, the room of each, how many records may be sent in it, and of
/// which capture.
#[derive(Drop)]
pub struct RingAbout {
    pub buffers: u32,
    pub bytes: u32,
    pub share: u32,
    pub capture: Snapshot<Capture>,
}

/// Its numbers: a snapshot is not read.
impl fmt::Debug for RingAbout {
    fn fmt<W: fmt::Write>(&self, f: &mut fmt::Formatter<W>) -> fmt::Result {
        f.debug_struct("RingAbout")
            .field("buffers", &self.buffers)
            .field("bytes", &self.bytes)
            .field("share", &self.share)
            .finish_non_exhaustive()
    }
}

/// What lies in a ring.
#[derive(Debug, Drop)]
pub enum Item {
    Packet(Packet<Raw>),
    End,
}

/// What a pass knows. No value of it is made.
pub struct RingView {
    pub sends: bool,
    pub gets: bool,
    /// The pairs of a slot and a number that were sent, and that were got.
    pub sent: LinkedList<(u32, u64)>,
    pub got: LinkedList<(u32, u64)>,
    /// END was put, and taken.
    pub put: bool,
    pub taken: bool,
    /// What the ring is made with, once its worker has a pass.
    pub about: Option<RingAbout>,
}

pub struct RingRule;

impl Protocol<Item, RingView> for RingRule {
    ghost holds = { Ring };

    ghost first = { first_view };
}

pub struct PutItem;

impl Outcome<Item, RingView> for PutItem {
    ghost then = { Sends };
}

impl Lesson<Item, RingView> for PutItem {
    ghost fact = { λ v items. Unit {0} };
}

pub struct GetItem;

impl Outcome<Item, RingView> for GetItem {
    ghost then = { Gets };
}

impl Lesson<Item, RingView> for GetItem {
    ghost fact = { λ v items. Unit {0} };
}

/// What the pass learns that has both roles.
pub struct Done;

impl Lesson<Item, RingView> for Done {
    ghost fact = { IsDone };
}

/// What a ring is made with, which the call that gives its worker a pass picks.
pub trait RingKey {
    ghost about: { Option RingAbout };
}

impl RingKey for Brand {
    ghost about = { None };
}

/// The one pass of a new ring sends, and its worker's gets.
pub struct Opens<K> {
    key: PhantomData<K>,
}

impl<K: RingKey> Split<RingView> for Opens<K> {
    ghost left = { λ v. first_sender K.about };

    ghost right = { λ v. first_getter K.about };
}

/// The pass that sends takes the worker's in.
pub struct Both;

impl Join<RingView> for Both {
    ghost both = { both_halves };

    ghost spent = { spent };
}
