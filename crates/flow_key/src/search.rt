//! The searches of a classifier.

ghost use Rattle.std.specs.Prelude.{◌≡◌, ◌<◌, ℕ, Option, Some, None, length, IfSome, IsSome, true, map};
ghost use Rattle.std.specs.Prelude.{option_map};
ghost use Rattle.std.specs.List.{position};
ghost use Rattle.std.specs.BTreeMap.{get};
ghost use Rattle.brick_spec.specs.FlowClass as spec;
ghost use Rattle.brick_base.specs.Flow.{dir_view};
ghost use Rattle.tcp_udp.specs.View.{tuple_view};
ghost use Rattle.flow_key.specs.View.{plan_view, key_view};
ghost use Rattle.flow_key.specs.OpenedView.{opened_view};
ghost use Rattle.flow_key.specs.Found.{found_view, found_by_key, reversed_tuple};
ghost use Rattle.flow_key.specs.Maps.{AreRanks, AreFound, HaveOwnKeys, key_cmp};
ghost use Rattle.flow_key.specs.declared.key.Key.{Key};

use crate::ends::{destination_end, is_same_end, key_of, source_end};
use crate::key::{Key, slot_of};
use crate::opened::Opened;
use crate::plan::NatPlan;
use brick_base::Dir;
use std::collections::BTreeMap;
use tcp_udp::Tuple;

/// Whether the frame is a reply of the flow through the plan.
fn is_reply(plan: &NatPlan, tuple: &Tuple, flow: &Opened) -> bool
    ensures { result ≡ spec.is_reply (plan_view plan.now) (tuple_view tuple.now) (opened_view flow.now) }
{
    match (tuple.ports, &flow.first, flow.class.rank) {
        (Some((_, dport)), Some(first), Some(rank)) => {
            tuple.dst == plan.outside
                && dport as u64 == plan.base as u64 + rank as u64
                && rank < plan.ports
                && first.proto == tuple.proto
                && is_same_end(source_end(tuple), destination_end(first))
        }
        _ => false,
    }
}

/// The rank of each flow of which the frame is a reply.
fn rank_of(plan: &NatPlan, tuple: &Tuple) -> Option<u32>
    ensures { (f : spec.Opened) → spec.is_reply (plan_view plan.now) (tuple_view tuple.now) f ≡ true → f.rank ≡ result }
{
    match tuple.ports {
        Some((_, dport)) if dport >= plan.base => Some((dport - plan.base) as u32),
        _ => None,
    }
}

/// The flow of which the frame is a reply: at most one has its rank.
fn reply_in(plan: &NatPlan, flows: &[Opened], ranks: &[u32], tuple: &Tuple) -> Option<u32>
    requires { AreRanks (map opened_view flows.now) ranks.now }
    ensures reply { result
        ≡ position (spec.is_reply (plan_view plan.now) (tuple_view tuple.now)) (map opened_view flows.now) }
    ensures within { IfSome result (λ number. number < length flows.now) }
{
    match rank_of(plan, tuple) {
        Some(rank) => {
            if rank as usize >= ranks.len() {
                return None;
            }
            let number = ranks[rank as usize];
            if is_reply(plan, tuple, &flows[number as usize]) {
                Some(number)
            } else {
                None
            }
        }
        None => None,
    }
}

/// Whether the frame goes out through the plan.
pub(crate) fn goes_out(plan: &Option<NatPlan>, tuple: &Option<Tuple>) -> bool
    ensures { result ≡ spec.goes_out (option_map plan_view plan.now) (option_map tuple_view tuple.now) }
{
    match (plan, tuple) {
        (Some(plan), Some(tuple)) => tuple.ports.is_some() && plan.inside.contains(tuple.src),
        _ => false,
    }
}

/// The direction of a frame in the flow of a first frame.
fn direction(first: &Option<Tuple>, tuple: &Tuple) -> Dir
    ensures { dir_view result ≡ spec.direction_by (option_map tuple_view first.now) (Some (tuple_view tuple.now)) }
{
    match first {
        Some(first) if !is_same_end(source_end(tuple), source_end(first)) => Dir::Reversed,
        _ => Dir::Forward,
    }
}

/// The five-tuple of a frame that goes the other way.
#[inline]
fn reversed(tuple: &Tuple) -> Tuple
    ensures { tuple_view result ≡ reversed_tuple (tuple_view tuple.now) }
{
    let ports = match tuple.ports {
        Some((sport, dport)) => Some((dport, sport)),
        None => None,
    };
    Tuple {
        proto: tuple.proto,
        src: tuple.dst,
        dst: tuple.src,
        ports,
    }
}

/// The direction of a frame whose five-tuple is that of a flow's first frame, or that one the other way.
#[inline]
fn direction_between(first: &Tuple, tuple: &Tuple) -> Option<Dir>
    ensures key { IsSome result → spec.key_of (tuple_view first.now) ≡ spec.key_of (tuple_view tuple.now) }
    ensures dir { IfSome result (λ dir. dir_view dir
        ≡ spec.direction_by (Some (tuple_view first.now)) (Some (tuple_view tuple.now))) }
{
    if *tuple == *first {
        Some(Dir::Forward)
    } else if *tuple == reversed(first) {
        Some(Dir::Reversed)
    } else {
        None
    }
}

/// The flow of which the frame is a reply, where there is a plan.
#[inline(always)]
fn reply_of(
    plan: &Option<NatPlan>,
    flows: &[Opened],
    ranks: &[u32],
    tuple: &Option<Tuple>,
) -> Option<u32>
    requires { AreRanks (map opened_view flows.now) ranks.now }
    ensures reply { result
        ≡ spec.reply_of (option_map plan_view plan.now) (map opened_view flows.now) (option_map tuple_view tuple.now) }
    ensures within { IfSome result (λ number. number < length flows.now) }
{
    match (plan, tuple) {
        (Some(plan), Some(tuple)) => reply_in(plan, flows, ranks, tuple),
        _ => None,
    }
}

/// The flow that was opened last of those with the slot of the frame, where that has the frame's key, and the frame's
/// direction.
#[inline(always)]
fn find_recent(flows: &[Opened], recent: &[u32], tuple: &Tuple) -> Option<(u32, Dir)>
    requires { HaveOwnKeys (map opened_view flows.now) }
    ensures found { IsSome result
        → found_view result ≡ found_by_key (map opened_view flows.now) (Some (tuple_view tuple.now)) }
    ensures within { IfSome result (λ found. found.0 < length flows.now) }
{
    let number = *recent.get(slot_of(tuple))?;
    let flow = flows.get(number as usize)?;
    let first = flow.first.as_ref()?;
    let dir = direction_between(first, tuple)?;
    Some((number, dir))
}

/// The flow of the frame's key, by the map, and the frame's direction. The five-tuple is given by value: so it
/// is put into memory here alone.
#[inline(never)]
fn find_in_map(flows: &[Opened], keys: &BTreeMap<Key, u32>, tuple: Tuple) -> Option<(u32, Dir)>
    requires { (k : Key)
        → get key_cmp keys.now k ≡ position (spec.has_key (key_view k)) (map opened_view flows.now) }
    ensures found { found_view result
        ≡ found_by_key (map opened_view flows.now) (Some (tuple_view tuple)) }
    ensures within { IfSome result (λ found. found.0 < length flows.now) }
{
    let number = *keys.get(&key_of(&tuple))?;
    let dir = direction(&flows[number as usize].first, &tuple);
    Some((number, dir))
}

/// The earlier flow of the frame's key, and the frame's direction.
#[inline(always)]
fn find_by_key(
    flows: &[Opened],
    keys: &BTreeMap<Key, u32>,
    recent: &[u32],
    other: Option<u32>,
    tuple: &Option<Tuple>,
) -> Option<(u32, Dir)>
    requires key { (k : Key)
        → get key_cmp keys.now k ≡ position (spec.has_key (key_view k)) (map opened_view flows.now) }
    requires own { HaveOwnKeys (map opened_view flows.now) }
    requires other { other ≡ position spec.is_other_flow (map opened_view flows.now) }
    ensures found { found_view result
        ≡ found_by_key (map opened_view flows.now) (option_map tuple_view tuple.now) }
    ensures within { IfSome result (λ found. found.0 < length flows.now) }
{
    let Some(tuple) = tuple else {
        return Some((other?, Dir::Forward));
    };
    match find_recent(flows, recent, tuple) {
        Some(found) => Some(found),
        None => find_in_map(flows, keys, Tuple { ..*tuple }),
    }
}

/// The earlier flow of a record, and the record's direction.
#[inline(always)]
pub(crate) fn find(
    plan: &Option<NatPlan>,
    flows: &[Opened],
    keys: &BTreeMap<Key, u32>,
    recent: &[u32],
    other: Option<u32>,
    ranks: &[u32],
    tuple: &Option<Tuple>,
) -> Option<(u32, Dir)>
    requires { AreFound (map opened_view flows.now) keys.now other ranks.now }
    ensures found { found_view result
        ≡ spec.found_in (option_map plan_view plan.now) (map opened_view flows.now) (option_map tuple_view tuple.now) }
    ensures within { IfSome result (λ found. found.0 < length flows.now) }
{
    match reply_of(plan, flows, ranks, tuple) {
        Some(number) => Some((number, Dir::Reversed)),
        None => find_by_key(flows, keys, recent, other, tuple),
    }
}
