//! From bytes to a table.

ghost use Rattle.toml.specs.View.{table_view};
ghost use Rattle.chain_spec.specs.ChainWalk as spec;
ghost use Rattle.chain_text.specs.Gives.{Gives};

use crate::fault::ChainFault;
use std::alloc::Global;
use toml::Table;

/// The most bytes of a chain file that is read.
const LONGEST_CHAIN_FILE: usize = 1_048_576;

/// The table that the bytes of a chain file write: TooLong comes where they are more than 1,048,576, and NotToml where
/// `toml` reads no document.
#[tactic(auto, unfolding(chain_spec::specs::ChainWalk::tree, chain_spec::specs::ChainWalk::document))]
pub fn table_of(alloc: Global, bytes: &[u8]) -> Result<Table, ChainFault>
    ensures { Gives table_view result (spec.tree bytes.now) }
{
    if bytes.len() > LONGEST_CHAIN_FILE {
        return Err(ChainFault::TooLong);
    }
    let text = match std::str::from_utf8(bytes) {
        Ok(text) => text,
        Err(_) => return Err(ChainFault::NotToml),
    };
    match toml::table_from_str(alloc, text) {
        Ok(table) => Ok(table),
        Err(error) => {
            if error.is_memory() {
                Err(ChainFault::NoMemory)
            } else {
                Err(ChainFault::NotToml)
            }
        }
    }
}
