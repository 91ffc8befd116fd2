//! Matches in a chain file.

ghost use Rattle.std.specs.Prelude.{◌≡◌, codes, option_map};
ghost use Rattle.toml.specs.View.{view};
ghost use Rattle.chain_spec.specs.Fields as fields;
ghost use Rattle.chain_spec.specs.StageWalk as spec;
ghost use Rattle.chain_text.specs.Gives.{Gives};
ghost use Rattle.tcp_udp.specs.MatchView.{match_view};

use chain_text::{ChainFault, known, number_at, prefix_at, range, table_in, value_at};
use std::alloc::Global;
use tcp_udp::Match;
use toml::Value;

/// The number of a protocol (IANA, protocol numbers).
fn protocol_of(text: &str) -> Option<u8>
    ensures { result ≡ spec.protocol_of text.now }
{
    match text {
        "tcp" => Some(6),
        "udp" => Some(17),
        "icmp" => Some(1),
        _ => None,
    }
}

fn protocol_at(alloc: Global, place: u32, value: Option<&Value>) -> Result<Option<u8>, ChainFault>
    ensures { Gives (λ p. p) result (spec.protocol_at place (option_map (λ v. view v.now) value.entry)) }
{
    let Some(value) = value else {
        return Ok(None);
    };
    let Some(text) = value.as_str() else {
        return Err(range(alloc, place, "proto"));
    };
    match protocol_of(text) {
        Some(protocol) => Ok(Some(protocol)),
        None => Err(range(alloc, place, "proto")),
    }
}

fn port_at(
    alloc: Global,
    place: u32,
    key: &str,
    value: Option<&Value>,
) -> Result<Option<u16>, ChainFault>
    ensures { Gives (λ n. n) result
        (fields.number_at place key.now 0 65535 (option_map (λ v. view v.now) value.entry)) }
{
    match number_at(alloc, place, key, 0, 65_535, value)? {
        Some(port) => Ok(Some(port as u16)),
        None => Ok(None),
    }
}

/// The match that a key's value is.
#[tactic(auto, unfolding(chain_spec::specs::StageWalk::match_in))]
pub(crate) fn match_in(alloc: Global, place: u32, value: &Value) -> Result<Match, ChainFault>
    ensures { Gives match_view result (spec.match_in place (view value.now)) }
{
    let table = table_in(alloc, place, "match", value)?;
    let row = ["proto", "src", "dst", "sport", "dport", "port"];
    known(alloc, place, row.as_slice(), table)?;
    let proto = protocol_at(alloc, place, value_at(table, "proto"))?;
    let src = prefix_at(alloc, place, "src", value_at(table, "src"))?;
    let dst = prefix_at(alloc, place, "dst", value_at(table, "dst"))?;
    let sport = port_at(alloc, place, "sport", value_at(table, "sport"))?;
    let dport = port_at(alloc, place, "dport", value_at(table, "dport"))?;
    let port = port_at(alloc, place, "port", value_at(table, "port"))?;
    Ok(Match {
        proto,
        src,
        dst,
        sport,
        dport,
        port,
    })
}

/// A match, and none where there is no value.
pub fn match_at(
    alloc: Global,
    place: u32,
    value: Option<&Value>,
) -> Result<Option<Match>, ChainFault>
    ensures { Gives (option_map match_view) result (spec.match_at place (option_map (λ v. view v.now) value.entry)) }
{
    match value {
        None => Ok(None),
        Some(value) => {
            let wanted = match_in(alloc, place, value)?;
            Ok(Some(wanted))
        }
    }
}
