//! The numbers and words of a tenant.

ghost use Rattle.toml.specs.View.{table_view};
ghost use Rattle.chain_spec.specs.ChainWalk as spec;
ghost use Rattle.chain_text.specs.Gives.{Gives};
ghost use Rattle.chain_file.specs.View.{settings_view};

use crate::named::Settings;
use crate::words::{dry_or_wait, unparsed_or_pass};
use chain_text::{ChainFault, number_or, value_at};
use std::alloc::Global;
use toml::Table;

#[tactic(auto, unfolding(chain_spec::specs::ChainWalk::settings_in))]
pub(crate) fn settings_in(alloc: Global, place: u32, table: &Table) -> Result<Settings, ChainFault>
    ensures { Gives settings_view result (spec.settings_in place (table_view table.now)) }
{
    let buffers = number_or(
        alloc,
        place,
        "buffers",
        1,
        1024,
        256,
        value_at(table, "buffers"),
    )?;
    let bytes = number_or(
        alloc,
        place,
        "bytes",
        64,
        65_600,
        65_600,
        value_at(table, "bytes"),
    )?;
    let dry = dry_or_wait(alloc, place, value_at(table, "dry"))?;
    let unparsed = unparsed_or_pass(alloc, place, value_at(table, "unparsed"))?;
    Ok(Settings {
        buffers,
        bytes,
        dry,
        unparsed,
    })
}
