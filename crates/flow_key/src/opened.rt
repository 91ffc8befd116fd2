//! Flows that records opened.

ghost use Rattle.std.specs.Prelude.{◌≡◌, option_map};
ghost use Rattle.std.specs.Option.{is_none};
ghost use Rattle.brick_spec.specs.FlowClass as spec;
ghost use Rattle.brick_base.specs.Flow.{ends_view};
ghost use Rattle.tcp_udp.specs.View.{tuple_view};

use crate::ends::{ends_of, flow_hash};
use brick_base::{Class, Dir, Ends};
use tcp_udp::Tuple;

/// A flow: the five-tuple of its first record, none for the flow of class Other, and that record's class. What a class
/// tells of the flow is computed once, here.
#[derive(Clone, Copy, Debug)]
pub(crate) struct Opened {
    pub(crate) first: Option<Tuple>,
    pub(crate) class: Class,
    ghost hashed: { class.hash ≡ spec.flow_hash (option_map tuple_view first) },
    ghost ends: { ends_view class.first ≡ spec.ends_of (option_map tuple_view first) },
    ghost other: { class.other ≡ is_none (option_map tuple_view first) },
}

impl Opened {
    ghost use Rattle.brick_spec.specs.Flow.{Forward};
    ghost use Rattle.brick_base.specs.Flow.{class_view, dir_view};
    ghost use Rattle.flow_key.specs.OpenedView.{opened_view};

    /// The flow of this number that a record of this five-tuple opens, by its rank and the record's number.
    pub(crate) fn by(number: u32, first: &Option<Tuple>, rank: Option<u32>, opened: u32) -> Opened
        ensures flow { opened_view result
            ≡ record { first = option_map tuple_view first.now; rank = rank; opened = opened } }
        ensures class { class_view result.class
            ≡ record { flow = spec.flow_with number (opened_view result); dir = Forward } }
    {
        Opened {
            first: *first,
            class: Class {
                flow: number,
                opened,
                rank,
                hash: flow_hash(first),
                first: ends_of(first),
                dir: Dir::Forward,
                other: first.is_none(),
            },
        }
    }

    /// The class of a record of this flow, by the flow's number and the record's direction.
    #[inline]
    pub(crate) fn class_of(&self, number: u32, dir: Dir) -> Class
        ensures { class_view result
            ≡ record { flow = spec.flow_with number (opened_view self.now); dir = dir_view dir } }
    {
        Class {
            flow: number,
            first: Ends { ..self.class.first },
            dir,
            ..self.class
        }
    }
}
