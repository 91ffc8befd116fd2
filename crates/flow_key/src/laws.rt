//! What the numbers of flows tell, as laws.

ghost use Rattle.brick_spec.specs.ClassLaws.{FlowsAreCounted};
ghost use Rattle.flow_key.specs.Laws.{NumbersTellFlows};

/// A law: records with one flow number have one flow.
pub fn numbers_tell_flows()
    ensures { NumbersTellFlows }
{}

/// A law: a flow's number is how many records before its first one opened a flow, its rank how many of these opened a
/// flow with a rank, and `opened` is its first record.
pub fn flows_are_counted()
    ensures { FlowsAreCounted }
{}
