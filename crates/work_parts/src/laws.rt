ghost use Rattle.work_parts.specs.Workers.{WorkersHaveNoFlow, FlowsComeWhole, WorkersAnswerAsOne};
ghost use Rattle.work_parts.specs.Tenants.{MergedHasLeaves, WorkersMakeTenant};

use work_core::chains_own_keys;

/// A law: two workers have no flow in common.
pub fn workers_have_no_flow()
    ensures { WorkersHaveNoFlow }
{}

/// A law: a flow comes to its worker whole, and in order.
pub fn flows_come_whole()
    ensures { FlowsComeWhole }
{}

/// A law: whatever the sharing, what the workers answer, joined, is what one work answers for all records.
pub fn workers_answer_as_one()
    ensures { WorkersAnswerAsOne }
{}

/// A law: joined answers have a list for each leaf group of the chain, as `join_outputs` asks.
pub fn merged_has_leaves()
    ensures { MergedHasLeaves }
{}

/// A law: what the workers of a tenant answer for its accepted records, joined, is the tenant meaning.
pub fn workers_make_tenant()
    ensures { WorkersMakeTenant }
{
    chains_own_keys();
}
