//! The rules of a stage `firewall`.

ghost use Rattle.std.specs.Prelude.{◌≡◌, ◌≤◌, IfOk, codes, length, vec_len, map, option_map};
ghost use Rattle.toml.specs.View.{view, array_view, table_view};
ghost use Rattle.chain_spec.specs.Fields.{each, word_from};
ghost use Rattle.chain_spec.specs.StageWalk as spec;
ghost use Rattle.lpm_fw.specs.RuleView.{verdict_view, rule_view};
ghost use Rattle.chain_text.specs.Gives.{Gives};

use crate::matches::match_at;
use chain_text::{ChainFault, array_in, known, range, required, table_in, value_at};
use lpm_fw::{Rule, Verdict};
use std::alloc::Global;
use toml::value::Array;
use toml::{Table, Value};

fn verdict_of(text: &str) -> Option<Verdict>
    ensures { option_map verdict_view result ≡ spec.verdict_of text.now }
{
    match text {
        "allow" => Some(Verdict::Allow),
        "deny" => Some(Verdict::Deny),
        _ => None,
    }
}

/// The verdict that a key's value names: else Range.
pub(crate) fn verdict_in(
    alloc: Global,
    place: u32,
    key: &str,
    value: &Value,
) -> Result<Verdict, ChainFault>
    ensures { Gives verdict_view result (word_from place key.now spec.verdict_of (view value.now)) }
{
    let Some(text) = value.as_str() else {
        return Err(range(alloc, place, key));
    };
    match verdict_of(text) {
        Some(verdict) => Ok(verdict),
        None => Err(range(alloc, place, key)),
    }
}

#[tactic(auto, unfolding(chain_spec::specs::StageWalk::rule_values))]
fn rule_values(alloc: Global, place: u32, table: &Table) -> Result<Rule, ChainFault>
    ensures { Gives rule_view result (spec.rule_values place (table_view table.now)) }
{
    let row = ["verdict", "match"];
    known(alloc, place, row.as_slice(), table)?;
    let verdict = required(alloc, place, "verdict", table)?;
    let verdict = verdict_in(alloc, place, "verdict", verdict)?;
    let wanted = match_at(alloc, place, value_at(table, "match"))?;
    Ok(Rule { verdict, wanted })
}

/// The rule of one member of the list.
#[tactic(auto, unfolding(chain_spec::specs::StageWalk::rule_at))]
fn rule_at(alloc: Global, place: u32, before: &[Rule], value: &Value) -> Result<Rule, ChainFault>
    ensures { Gives rule_view result (spec.rule_at place (map rule_view before.now) (view value.now)) }
{
    let table = table_in(alloc, place, "rule", value)?;
    rule_values(alloc, place, table)
}

fn rules(alloc: Global, place: u32, array: &Array) -> Result<Vec<Rule>, ChainFault>
    ensures value { Gives (λ v. map rule_view v.items) result (each (spec.rule_at place) (array_view array.now)) }
    ensures len { IfOk result (λ v. vec_len v ≡ vec_len array.now) }
{
    let mut rules = Vec::new(alloc);
    for value in array {
        let rule = rule_at(alloc, place, rules.as_slice(), value)?;
        rules.push(rule)?;
    }
    Ok(rules)
}

/// 0 to 256 rules. No value is no rule.
#[tactic(auto, unfolding(chain_spec::specs::StageWalk::rules_at))]
pub(crate) fn rules_at(
    alloc: Global,
    place: u32,
    value: Option<&Value>,
) -> Result<Vec<Rule>, ChainFault>
    ensures value { Gives (λ v. map rule_view v.items) result
        (spec.rules_at place (option_map (λ v. view v.now) value.entry)) }
    ensures few { IfOk result (λ v. length v.items ≤ 256) }
{
    let Some(value) = value else {
        return Ok(Vec::new(alloc));
    };
    let array = array_in(alloc, place, "rule", 0, 256, value)?;
    rules(alloc, place, array)
}
