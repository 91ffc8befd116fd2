ghost use Rattle.std.specs.Prelude.{◌≡◌, option_map, IfOk};
ghost use Rattle.flow_key.specs.View.{plan_view};
ghost use Rattle.chain_types.specs.View.{chain_view};
ghost use Rattle.chain_run.specs.Sound.{IsChainSound};
ghost use Rattle.chain_run.specs.Built.{RootBuilt};

use crate::groups::build_groups;
use crate::paths::{Site, StagesPath};
use crate::places::RootPlace;
use brick_base::NoMemory;
use chain_nodes::Pipe;
use chain_types::Chain;
use std::alloc::Global;

/// The root of a chain, beside so many spare buffers of so many bytes.
pub fn build_root<P: StagesPath>(
    alloc: Global,
    chain: &Chain,
    count: u32,
    bytes: u32,
) -> Result<RootPlace<P>, NoMemory>
    requires { IsChainSound count bytes (chain_view chain.now) }
    ensures { IfOk result (λ t. RootBuilt P.Operator.meaning count bytes (chain_view chain.now) t) }
{
    let site = Site {
        nat: chain.nat,
        count,
        bytes,
    };
    let path = P::of_stages(alloc, &site, chain.unparsed, chain.stages.as_slice())?;
    let next = build_groups(alloc, &site, chain.groups.as_slice())?;
    let place = Pipe::new(alloc, path, next, count)?;
    Ok(RootPlace { place })
}
