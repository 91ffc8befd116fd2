//! The plan of a translation.

ghost use Rattle.std.specs.Prelude.{option_map};
ghost use Rattle.toml.specs.View.{view, table_view};
ghost use Rattle.chain_spec.specs.ChainWalk as spec;
ghost use Rattle.flow_key.specs.View.{plan_view};
ghost use Rattle.chain_text.specs.Gives.{Gives};

use chain_text::{ChainFault, address_in, known, number_in, prefix_in, required, table_in};
use flow_key::NatPlan;
use std::alloc::Global;
use toml::{Table, Value};

#[tactic(auto, unfolding(chain_spec::specs::ChainWalk::nat_values))]
fn nat_values(alloc: Global, place: u32, table: &Table) -> Result<NatPlan, ChainFault>
    ensures { Gives plan_view result (spec.nat_values place (table_view table.now)) }
{
    let row = ["inside", "outside", "base", "ports"];
    known(alloc, place, row.as_slice(), table)?;
    let inside = required(alloc, place, "inside", table)?;
    let inside = prefix_in(alloc, place, "inside", inside)?;
    let outside = required(alloc, place, "outside", table)?;
    let outside = address_in(alloc, place, "outside", outside)?;
    let base = required(alloc, place, "base", table)?;
    let base = number_in(alloc, place, "base", 1, 65_535, base)?;
    let ports = required(alloc, place, "ports", table)?;
    let ports = number_in(alloc, place, "ports", 1, 65_536 - base, ports)?;
    Ok(NatPlan {
        inside,
        outside,
        base: base as u16,
        ports,
    })
}

/// The plan of the table `nat`, and none where there is no value.
#[tactic(auto, unfolding(chain_spec::specs::ChainWalk::nat_at))]
pub fn nat_at(
    alloc: Global,
    place: u32,
    value: Option<&Value>,
) -> Result<Option<NatPlan>, ChainFault>
    ensures { Gives (option_map plan_view) result (spec.nat_at place (option_map (λ v. view v.now) value.entry)) }
{
    let Some(value) = value else {
        return Ok(None);
    };
    let table = table_in(alloc, place, "nat", value)?;
    let plan = nat_values(alloc, place, table)?;
    Ok(Some(plan))
}
