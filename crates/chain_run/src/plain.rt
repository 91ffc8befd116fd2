//! The plain stages of a chain.

ghost use Rattle.std.specs.Prelude.{Option, map, option_map, IfOk, OnOk, IsTrue};
ghost use Rattle.chain_spec.specs.ChainSet as spec;
ghost use Rattle.flow_key.specs.View.{plan_view};
ghost use Rattle.lpm_fw.specs.RuleView.{rule_view, verdict_view};
ghost use Rattle.chain_types.specs.ChainParts.{unparsed_view};
ghost use Rattle.chain_types.specs.StageView.{stage_view, stages_view, backends_view, change_view};
ghost use Rattle.brick_spec.specs.FlowClass.{NatPlan as NatPlanMeaning};
ghost use Rattle.chain_run.specs.Plain.{IsPlain, ArePlain, PlainBuilt, AddsPlain, IsFirst};

use brick_base::NoMemory;
use chain_types::{Backend, Change, Stage, Unparsed};
use flow_key::NatPlan;
use flow_stages::{BalanceStage, FirewallStage, NatStage, RouteStage};
use lpm_fw::{Rule, Rules, Verdict};
use map_filter::{OnlyStage, ParsedStage, TosStage, TtlStage};
use scan_stage::ScanStage;
use stage_row::PlainStage;
use std::alloc::Global;
use std::sync::Arc;

/// The stage of a firewall's rules.
fn firewall_of(
    alloc: Global,
    default: Verdict,
    established: bool,
    rules: &[Rule],
) -> Result<PlainStage, NoMemory>
    ensures { IfOk result (λ p. (nat : Option NatPlanMeaning)
        → PlainBuilt nat (spec.Firewall (verdict_view default) established (map rule_view rules.now)) p) }
{
    let rows = rules.to_vec(alloc)?;
    let stage = FirewallStage::new(alloc, Rules::new(rows, default), established)?;
    Ok(PlainStage::Firewall(stage))
}

/// The stage of backends and their changes.
fn balance_of(
    alloc: Global,
    backends: &[Backend],
    changes: &[Change],
) -> Result<PlainStage, NoMemory>
    requires { IsTrue (spec.is_stage_right (spec.Balance (backends_view backends.now) (map change_view changes.now))) }
    ensures { IfOk result (λ p. (nat : Option NatPlanMeaning)
        → PlainBuilt nat (spec.Balance (backends_view backends.now) (map change_view changes.now)) p) }
{
    let stage = BalanceStage::new(alloc, backends, changes)?;
    Ok(PlainStage::Balance(stage))
}

/// The stage of a text, with this reach.
fn scan_of(alloc: Global, text: &[u8], reach: u32) -> Result<PlainStage, NoMemory>
    requires { IsTrue (spec.is_stage_right (spec.Scan text.now reach)) }
    ensures { IfOk result (λ p. (nat : Option NatPlanMeaning) → PlainBuilt nat (spec.Scan text.now reach) p) }
{
    let stage = ScanStage::new(alloc, text, reach)?;
    Ok(PlainStage::Scan(stage))
}

/// The plain stage that a stage is.
fn plain_of(alloc: Global, nat: &Option<NatPlan>, stage: &Stage) -> Result<PlainStage, NoMemory>
    requires right { IsTrue (spec.is_stage_right (stage_view stage.now)) }
    requires plain { IsPlain (option_map plan_view nat.now) (stage_view stage.now) }
    ensures { IfOk result (λ p. PlainBuilt (option_map plan_view nat.now) (stage_view stage.now) p) }
{
    match stage {
        Stage::Ttl => Ok(PlainStage::Ttl(TtlStage)),
        Stage::SetTos { value } => Ok(PlainStage::Tos(TosStage { value: *value })),
        Stage::Only { wanted } => Ok(PlainStage::Only(OnlyStage { wanted: *wanted })),
        Stage::Firewall {
            default,
            established,
            rules,
        } => firewall_of(alloc, *default, *established, rules.as_slice()),
        Stage::Route { mac, routes } => Ok(PlainStage::Route(RouteStage {
            routes: Arc::clone(routes)?,
            mac: *mac,
        })),
        Stage::Nat => match nat {
            None => unreachable!(),
            Some(plan) => Ok(PlainStage::Nat(NatStage { plan: *plan })),
        },
        Stage::Balance { backends, changes } => {
            balance_of(alloc, backends.as_slice(), changes.as_slice())
        }
        Stage::Window { .. } => unreachable!(),
        Stage::Scan { text, reach } => scan_of(alloc, text.as_slice(), *reach),
    }
}

/// Adds the plain stages that some stages are.
pub(crate) fn add_plain(
    alloc: Global,
    nat: &Option<NatPlan>,
    stages: &[Stage],
    plain: &mut Vec<PlainStage>,
) -> Result<(), NoMemory>
    requires { ArePlain (option_map plan_view nat.now) (stages_view stages.now) }
    ensures { OnOk result
        (AddsPlain (option_map plan_view nat.now) (stages_view stages.now) plain.old.items plain.new.items) }
{
    for stage in stages {
        let one = plain_of(alloc, nat, stage)?;
        plain.push(one)?;
    }
    Ok(())
}

/// The stages before the first: one that drops what has no IPv4 layer, where that is asked.
pub(crate) fn first_stages(alloc: Global, unparsed: Unparsed) -> Result<Vec<PlainStage>, NoMemory>
    ensures { IfOk result (λ plain. IsFirst (unparsed_view unparsed) plain.items) }
{
    let mut plain = Vec::new(alloc);
    if unparsed == Unparsed::Drop {
        plain.push(PlainStage::Parsed(ParsedStage))?;
    }
    Ok(plain)
}
