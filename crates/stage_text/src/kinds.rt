//! Which stage a table names.

ghost use Rattle.std.specs.Prelude.{◌≡◌, codes, option_map};
ghost use Rattle.toml.specs.View.{view, table_view};
ghost use Rattle.chain_spec.specs.Fields as fields;
ghost use Rattle.chain_spec.specs.StageWalk as spec;
ghost use Rattle.chain_text.specs.Gives.{Gives};
ghost use Rattle.stage_text.specs.Kinds.{kind_view};

use chain_text::{ChainFault, known, range};
use std::alloc::Global;
use toml::{Table, Value};

/// The stages that a file may name.
#[derive(Clone, Copy, Debug, PartialEq, Eq)]
pub(crate) enum Kind {
    Ttl,
    SetTos,
    Only,
    Firewall,
    Route,
    Nat,
    Balance,
    Window,
    Scan,
}

fn kind_of(text: &str) -> Option<Kind>
    ensures { option_map kind_view result ≡ spec.kind_of text.now }
{
    match text {
        "ttl" => Some(Kind::Ttl),
        "set_tos" => Some(Kind::SetTos),
        "only" => Some(Kind::Only),
        "firewall" => Some(Kind::Firewall),
        "route" => Some(Kind::Route),
        "nat" => Some(Kind::Nat),
        "balance" => Some(Kind::Balance),
        "window" => Some(Kind::Window),
        "scan" => Some(Kind::Scan),
        _ => None,
    }
}

pub(crate) fn kind_in(alloc: Global, place: u32, value: &Value) -> Result<Kind, ChainFault>
    ensures { Gives kind_view result (fields.word_from place (codes "stage") spec.kind_of (view value.now)) }
{
    let Some(text) = value.as_str() else {
        return Err(range(alloc, place, "stage"));
    };
    match kind_of(text) {
        Some(kind) => Ok(kind),
        None => Err(range(alloc, place, "stage")),
    }
}

/// No key but those of the table of a stage `firewall`.
fn known_in_firewall(alloc: Global, place: u32, table: &Table) -> Result<(), ChainFault>
    ensures { Gives (λ _. tt) result (fields.known place (spec.stage_row spec.FirewallKind) (table_view table.now)) }
{
    let row = ["stage", "default", "established", "rule"];
    known(alloc, place, row.as_slice(), table)
}

/// No key but those of the stage's table.
pub(crate) fn known_in(
    alloc: Global,
    place: u32,
    kind: Kind,
    table: &Table,
) -> Result<(), ChainFault>
    ensures { Gives (λ _. tt) result (fields.known place (spec.stage_row (kind_view kind)) (table_view table.now)) }
{
    match kind {
        Kind::Ttl | Kind::Nat => {
            let row = ["stage"];
            known(alloc, place, row.as_slice(), table)
        }
        Kind::SetTos => {
            let row = ["stage", "value"];
            known(alloc, place, row.as_slice(), table)
        }
        Kind::Only => {
            let row = ["stage", "match"];
            known(alloc, place, row.as_slice(), table)
        }
        Kind::Firewall => known_in_firewall(alloc, place, table),
        Kind::Route => {
            let row = ["stage", "mac", "route"];
            known(alloc, place, row.as_slice(), table)
        }
        Kind::Balance => {
            let row = ["stage", "backend", "epoch"];
            known(alloc, place, row.as_slice(), table)
        }
        Kind::Window => {
            let row = ["stage", "size", "reach"];
            known(alloc, place, row.as_slice(), table)
        }
        Kind::Scan => {
            let row = ["stage", "find", "reach"];
            known(alloc, place, row.as_slice(), table)
        }
    }
}
