//! Words of a tenant's table.

ghost use Rattle.std.specs.Prelude.{◌≡◌, option_map};
ghost use Rattle.toml.specs.View.{view};
ghost use Rattle.chain_spec.specs.ChainWalk as spec;
ghost use Rattle.chain_text.specs.Gives.{Gives};
ghost use Rattle.chain_types.specs.ChainParts.{dry_view, unparsed_view};

use chain_text::{ChainFault, range};
use chain_types::{Dry, Unparsed};
use std::alloc::Global;
use toml::Value;

fn dry_of(text: &str) -> Option<Dry>
    ensures { option_map dry_view result ≡ spec.dry_of text.now }
{
    match text {
        "wait" => Some(Dry::Wait),
        "drop" => Some(Dry::Drop),
        _ => None,
    }
}

pub(crate) fn dry_or_wait(
    alloc: Global,
    place: u32,
    value: Option<&Value>,
) -> Result<Dry, ChainFault>
    ensures { Gives dry_view result (spec.dry_or_wait place (option_map (λ v. view v.now) value.entry)) }
{
    let Some(value) = value else {
        return Ok(Dry::Wait);
    };
    let Some(text) = value.as_str() else {
        return Err(range(alloc, place, "dry"));
    };
    match dry_of(text) {
        Some(dry) => Ok(dry),
        None => Err(range(alloc, place, "dry")),
    }
}

fn unparsed_of(text: &str) -> Option<Unparsed>
    ensures { option_map unparsed_view result ≡ spec.unparsed_of text.now }
{
    match text {
        "pass" => Some(Unparsed::Pass),
        "drop" => Some(Unparsed::Drop),
        _ => None,
    }
}

pub(crate) fn unparsed_or_pass(
    alloc: Global,
    place: u32,
    value: Option<&Value>,
) -> Result<Unparsed, ChainFault>
    ensures { Gives unparsed_view result (spec.unparsed_or_pass place (option_map (λ v. view v.now) value.entry)) }
{
    let Some(value) = value else {
        return Ok(Unparsed::Pass);
    };
    let Some(text) = value.as_str() else {
        return Err(range(alloc, place, "unparsed"));
    };
    match unparsed_of(text) {
        Some(unparsed) => Ok(unparsed),
        None => Err(range(alloc, place, "unparsed")),
    }
}
