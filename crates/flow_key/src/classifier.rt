//! The classifier.

ghost use Rattle.std.specs.Prelude.{◌≡◌, ◌<◌, ◌+◌, ◌^◌, ℕ, Option, Some, None, List, [], ◌∷◌, ◌++◌, length, IfOk, OnOk};
ghost use Rattle.std.specs.Prelude.{OnErr, cond, vec_len, map, option_map};
ghost use Rattle.std.specs.Vec.{vec_capacity};
ghost use Rattle.std.specs.Option.{is_none};
ghost use Rattle.std.specs.BTreeMap.{get};
ghost use Rattle.brick_spec.specs.FlowClass as spec;
ghost use Rattle.brick_base.specs.Flow.{class_view};
ghost use Rattle.tcp_udp.specs.View.{tuple_view};
ghost use Rattle.flow_key.specs.View.{plan_view, key_view};
ghost use Rattle.flow_key.specs.Maps.{key_cmp};
ghost use Rattle.flow_key.specs.declared.key.Key.{Key};

use crate::ends::key_of;
use crate::key::{Key, SLOTS, slot_of};
use crate::opened::Opened;
use crate::plan::NatPlan;
use crate::search::{find, goes_out};
use brick_base::{Class, Dir, NoMemory};
use std::alloc::Global;
use std::collections::BTreeMap;
use std::fmt;
use std::marker::Model;
use tcp_udp::Tuple;

/// Tells of which flow each record of a capture is, in the order of the records. It keeps the flows that were opened,
/// and no frame.
#[derive(Drop)]
pub struct Classifier {
    plan: Option<NatPlan>,
    flows: Vec<Opened>,
    keys: BTreeMap<Key, u32>,
    // at each slot the flow that was opened last of those whose first frames have it: most searches end there
    recent: Vec<u32>,
    other: Option<u32>,
    // the flow at each rank
    ranks: Vec<u32>,
    records: u64,
}

impl Model for Classifier {
    ghost use Rattle.std.specs.Prelude.{map, option_map};
    ghost use Rattle.flow_key.specs.View.{plan_view};
    ghost use Rattle.flow_key.specs.OpenedView.{opened_view};
    ghost use Rattle.flow_key.specs.Maps.{ClassifierModel, AreMaps};

    ghost Value = { ClassifierModel };

    ghost view = { λ c. record {
      plan = option_map plan_view c.plan;
      known = record { flows = map opened_view c.flows.items; records = c.records };
    } };

    ghost invariant = { λ c. AreMaps (map opened_view c.flows.items) c.keys c.other c.ranks.items c.records };
}

/// The plan, and how many records came and opened flows; not the flows.
impl fmt::Debug for Classifier {
    fn fmt<W: fmt::Write>(&self, f: &mut fmt::Formatter<W>) -> fmt::Result {
        f.debug_struct("Classifier")
            .field("plan", &self.plan)
            .field("records", &self.records)
            .field("flows", &self.flows.len())
            .finish_non_exhaustive()
    }
}

impl Classifier {
    ghost use Rattle.brick_base.specs.Flow.{dir_view};
    ghost use Rattle.flow_key.specs.Maps.{after_frames, after_record, class_of_record, class_found};

    /// A classifier to which no record came.
    pub fn new(alloc: Global, nat: Option<NatPlan>) -> Result<Classifier, NoMemory>
        ensures { IfOk result (λ c. c ≡ after_frames (option_map plan_view nat) []) }
    {
        Ok(Classifier {
            plan: nat,
            flows: Vec::new(alloc),
            keys: BTreeMap::new(alloc),
            recent: vec![in alloc; 0u32; SLOTS]?,
            other: None,
            ranks: Vec::new(alloc),
            records: 0,
        })
    }

    /// The class of the next record, by its frame and by the frames so far. Without memory nothing changes.
    #[inline(always)]
    pub fn classify(&mut self, frame: &[u8]) -> Result<Class, NoMemory>
        requires { self.old.known.records < 2 ^ 32 }
        ensures class { (plan : Option spec.NatPlan) (frames : List (List ℕ)) → self.old ≡ after_frames plan frames
            → IfOk result (λ c. class_view c ≡ spec.class_of plan frames frame.now) }
        ensures known { (plan : Option spec.NatPlan) (frames : List (List ℕ)) → self.old ≡ after_frames plan frames
            → OnOk result (self.new ≡ after_frames plan (frames ++ frame.now ∷ [])) }
        ensures err { OnErr result (self.new ≡ self.old) }
    {
        let (flow, dir) = self.find_or_open(&Tuple::read(frame))?;
        Ok(self.flows[flow as usize].class_of(flow, dir))
    }

    /// The number of the next record's flow and the record's direction, by its five-tuple and by the flows so far.
    /// Where none of these is its flow, it opens one.
    #[inline(always)]
    fn find_or_open(&mut self, tuple: &Option<Tuple>) -> Result<(u32, Dir), NoMemory>
        requires { self.old.known.records < 2 ^ 32 }
        ensures class { IfOk result (λ found. class_found self.new.known.flows (found.0, dir_view found.1)
            ≡ class_of_record self.old (option_map tuple_view tuple.now)) }
        ensures within { IfOk result (λ found. found.0 < length self.new.known.flows) }
        ensures known { OnOk result (self.new ≡ after_record self.old (option_map tuple_view tuple.now)) }
        ensures err { OnErr result (self.new ≡ self.old) }
    {
        let found = find(
            &self.plan,
            &self.flows,
            &self.keys,
            &self.recent,
            self.other,
            &self.ranks,
            tuple,
        );
        match found {
            Some(found) => {
                self.records += 1;
                Ok(found)
            }
            None => Ok((self.open(*tuple)?, Dir::Forward)),
        }
    }

    /// The record opens a flow, and this is its number. Without memory nothing changes.
    /// The five-tuple is given by value: so it is put into memory here alone.
    #[cold]
    #[inline(never)]
    fn open(&mut self, tuple: Option<Tuple>) -> Result<u32, NoMemory>
        requires few { self.old.known.records < 2 ^ 32 }
        requires none { spec.found_in self.old.plan self.old.known.flows (option_map tuple_view tuple) ≡ None }
        ensures number { IfOk result (λ number. number ≡ length self.old.known.flows) }
        ensures known { OnOk result (self.new ≡ after_record self.old (option_map tuple_view tuple)) }
        ensures err { OnErr result (self.new ≡ self.old) }
    {
        self.flows.reserve(1)?;
        self.ranks.reserve(1)?;
        let number = count(&self.flows);
        let ranked = goes_out(&self.plan, &tuple);
        put_key(&mut self.keys, &mut self.other, &tuple, number)?;
        let rank = put_rank(&mut self.ranks, ranked, number);
        let flow = Opened::by(number, &tuple, rank, self.records as u32);
        push_flow(&mut self.flows, flow);
        note_recent(&mut self.recent, &tuple, number);
        self.records += 1;
        Ok(number)
    }
}

/// The flow of the tuple's key is this one.
fn put_key(
    keys: &mut BTreeMap<Key, u32>,
    other: &mut Option<u32>,
    tuple: &Option<Tuple>,
    number: u32,
) -> Result<(), NoMemory>
    ensures keys { OnOk result ((q : Key)
        → get key_cmp keys.new q
        ≡ cond (spec.has_first_key (key_view q) (option_map tuple_view tuple.now)) (Some number)
        (get key_cmp keys.old q)) }
    ensures other { OnOk result (other.new ≡ cond (is_none tuple.now) (Some number) other.old) }
    ensures keys_stay { OnErr result ((q : Key) → get key_cmp keys.new q ≡ get key_cmp keys.old q) }
    ensures other_stays { OnErr result (other.new ≡ other.old) }
{
    if let Some(tuple) = tuple {
        keys.insert(key_of(tuple), number)?;
    } else {
        *other = Some(number);
    }
    Ok(())
}

/// The flow of the five-tuple's slot is this one.
fn note_recent(recent: &mut Vec<u32>, tuple: &Option<Tuple>, number: u32) {
    if let Some(tuple) = tuple {
        let slot = slot_of(tuple);
        if slot < recent.len() {
            recent[slot] = number;
        }
    }
}

/// The flow of the next rank is this one, where it has a rank.
fn put_rank(ranks: &mut Vec<u32>, ranked: bool, number: u32) -> Option<u32>
    requires room { vec_len ranks.old < vec_capacity ranks.old }
    requires few { vec_len ranks.old < 2 ^ 32 }
    ensures ranks { ranks.new.items ≡ cond ranked (ranks.old.items ++ number ∷ []) ranks.old.items }
    ensures rank { result ≡ cond ranked (Some (length ranks.old.items)) None }
{
    if !ranked {
        return None;
    }
    let rank = ranks.len() as u32;
    ranks.push(number).unwrap();
    Some(rank)
}

/// How many flows were opened.
fn count(flows: &[Opened]) -> u32
    requires { length flows.now < 2 ^ 32 }
    ensures { result ≡ length flows.now }
{
    flows.len() as u32
}

fn push_flow(flows: &mut Vec<Opened>, flow: Opened)
    requires { vec_len flows.old < vec_capacity flows.old }
    ensures { flows.new.items ≡ flows.old.items ++ flow ∷ [] }
{
    flows.push(flow).unwrap();
}
