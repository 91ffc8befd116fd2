//! Stateful inspection: the items of flows, decided one by one.

ghost use Rattle.std.specs.Prelude.{◌≡◌, ◌&&◌, if◌then◌else◌, ℕ, List, false, IsOk, IfOk, OnOk, OnErr, option_map};
ghost use Rattle.std.specs.FinSet as set;
ghost use Rattle.brick_spec.specs.FlowStage.{FlowItem, left_by};
ghost use Rattle.brick_spec.specs.Firewall as spec;
ghost use Rattle.brick_base.specs.Flow.{dir_view};
ghost use Rattle.tcp_udp.specs.View.{tuple_view};
ghost use Rattle.lpm_fw.specs.RuleView.{verdict_view};
ghost use Rattle.lpm_fw.specs.Inspection.{stage_of, StandsFor, with_item, IsItem, outcome_by};

use crate::established::Established;
use crate::rules::{Rules, Verdict};
use brick_base::{Class, Dir, NoMemory};
use tcp_udp::Tuple;

/// What the rules alone say of a frame. One without the IPv4 layer is allowed.
fn verdict_of(rules: &Rules, t: &Option<Tuple>) -> Verdict
    ensures { spec.is_allow (verdict_view result)
        ≡ spec.allows_tuple rules.now.rows rules.now.default (option_map tuple_view t.now) }
{
    match t {
        None => Verdict::Allow,
        Some(t) => rules.verdict(t),
    }
}

/// Decides an item of a flow that goes forward. If it is allowed, the flow is put into the set, where there is one.
fn inspect_forward(
    rules: &Rules,
    established: bool,
    flows: &mut Established,
    flow: u32,
    t: &Option<Tuple>,
) -> Result<Verdict, NoMemory>
    ensures verdict { IfOk result (λ verdict. spec.is_allow (verdict_view verdict)
        ≡ spec.allows_tuple rules.now.rows rules.now.default (option_map tuple_view t.now)) }
    ensures ok { IfOk result (λ verdict. flows.new
        ≡ (if established && spec.is_allow (verdict_view verdict) then set.insert flows.old flow else flows.old)) }
    ensures err { OnErr result (flows.new ≡ flows.old) }
    ensures off { established ≡ false → IsOk result }
{
    let verdict = verdict_of(rules, t);
    if established && verdict == Verdict::Allow {
        flows.allow(flow)?;
    }
    Ok(verdict)
}

/// Decides the next item of a flow, by its class and the five-tuple that its frame has there. The rules decide; but
/// where `established` is on, an item that goes back is allowed if one of its flow that went forward was allowed
/// before. The set keeps those flows: it begins empty, and each stage has its own. Without `established` nothing is
/// kept and no memory is needed. Without memory the set stays as it was, and the item is not decided.
pub fn inspect(
    rules: &Rules,
    established: bool,
    flows: &mut Established,
    class: &Class,
    t: &Option<Tuple>,
) -> Result<Verdict, NoMemory>
    ensures verdict { (before : ℕ → List FlowItem) (x : FlowItem) → StandsFor established rules.now flows.old before
        → IsItem class.now t.now x
        → IfOk result (λ verdict. (stage_of established rules.now).on_item (before class.now.flow) x
        ≡ left_by x (outcome_by (verdict_view verdict) x.item)) }
    ensures kept { (before : ℕ → List FlowItem) (x : FlowItem) → StandsFor established rules.now flows.old before
        → IsItem class.now t.now x
        → OnOk result (StandsFor established rules.now flows.new (with_item before class.now.flow x)) }
    ensures err { OnErr result (flows.new ≡ flows.old) }
    ensures off { established ≡ false → IsOk result }
    ensures unkept { established ≡ false → flows.new ≡ flows.old }
{
    match class.dir {
        Dir::Forward => inspect_forward(rules, established, flows, class.flow, t),
        Dir::Reversed => {
            if established && flows.allowed(class.flow) {
                return Ok(Verdict::Allow);
            }
            Ok(verdict_of(rules, t))
        }
    }
}
