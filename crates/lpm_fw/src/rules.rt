//! The rules of a firewall.

ghost use Rattle.std.specs.Prelude.{◌≡◌, map, option_map};
ghost use Rattle.brick_spec.specs.Firewall as spec;
ghost use Rattle.tcp_udp.specs.View.{tuple_view};
ghost use Rattle.tcp_udp.specs.MatchView.{match_view};
ghost use Rattle.lpm_fw.specs.RuleView.{verdict_view, rule_view};

use std::marker::Model;
use tcp_udp::{Match, Tuple};

/// What a firewall says of a frame.
#[derive(Clone, Copy, Debug, PartialEq, Eq)]
pub enum Verdict {
    Allow,
    Deny,
}

/// What is said of the frames that meet a match. One without a match is met by every frame.
#[derive(Clone, Copy, Debug, PartialEq, Eq)]
pub struct Rule {
    pub verdict: Verdict,
    pub wanted: Option<Match>,
}

/// Rules in their order, and what is said where none is met.
#[derive(Debug, Drop)]
pub struct Rules {
    rows: Vec<Rule>,
    default: Verdict,
}

impl Model for Rules {
    ghost use Rattle.std.specs.Prelude.{map};
    ghost use Rattle.lpm_fw.specs.RuleView.{verdict_view, rule_view};
    ghost use Rattle.lpm_fw.specs.RulesModel.{RulesModel};

    ghost Value = { RulesModel };

    ghost view = { λ r. record { rows = map rule_view r.rows.items; default = verdict_view r.default } };
}

/// Whether a frame of this five-tuple meets the match, if there is one.
fn is_met(wanted: &Option<Match>, t: &Tuple) -> bool
    ensures { result ≡ spec.is_met (option_map match_view wanted.now) (tuple_view t.now) }
{
    match wanted {
        None => true,
        Some(wanted) => wanted.meets_tuple(t),
    }
}

impl Rules {
    /// These rules, and what is said where none is met.
    pub fn new(rows: Vec<Rule>, default: Verdict) -> Rules
        ensures rows { result.rows ≡ map rule_view rows.items }
        ensures default { result.default ≡ verdict_view default }
    {
        Rules { rows, default }
    }

    /// What is said of a frame of this five-tuple: the first rule that is met decides, and else the default.
    pub fn verdict(&self, t: &Tuple) -> Verdict
        ensures { verdict_view result ≡ spec.verdict_of self.now.rows self.now.default (tuple_view t.now) }
    {
        for rule in &self.rows {
            if is_met(&rule.wanted, t) {
                return rule.verdict;
            }
        }
        self.default
    }
}
