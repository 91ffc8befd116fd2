ghost use Rattle.std.specs.Prelude.{◌≡◌, ◌≤◌, IfOk, IsTrue, option_map};
ghost use Rattle.chain_spec.specs.ChainSet.{are_stages_right};
ghost use Rattle.chain_types.specs.ChainParts.{unparsed_view};
ghost use Rattle.chain_types.specs.StageView.{stages_view};
ghost use Rattle.flow_key.specs.View.{plan_view};
ghost use Rattle.tenant_spec.specs.ChainPlan.{before_stages};
ghost use Rattle.chain_run.specs.Sound.{AreSound};
ghost use Rattle.chain_run.specs.Built.{IsPath};

use brick_base::NoMemory;
use chain_types::{Stage, Unparsed};
use flow_key::NatPlan;
use stage_path::Direct;
use std::alloc::Global;

/// What the paths of a chain have in common.
#[derive(Clone, Copy, Debug, Drop)]
pub struct Site {
    /// How addresses are translated.
    pub nat: Option<NatPlan>,
    /// How many spare buffers there are.
    pub count: u32,
    /// How many bytes each of them has.
    pub bytes: u32,
}

/// Stages of a chain, one after another.
pub trait StagesPath: Direct + Drop {
    /// The path of these stages, to which nothing came. What has no IPv4 layer is dropped before the first, where that
    /// is asked.
    fn of_stages(
        alloc: Global,
        site: &Site,
        unparsed: Unparsed,
        stages: &[Stage],
    ) -> Result<Self, NoMemory>
        requires right { IsTrue (are_stages_right (stages_view stages.now)) }
        requires sound { AreSound (option_map plan_view site.now.nat) site.now.count site.now.bytes 0
            (stages_view stages.now) }
        ensures { IfOk result
            (λ p. IsPath Self.Operator.meaning (option_map plan_view site.now.nat) site.now.count site.now.bytes
            (before_stages (unparsed_view unparsed)) (stages_view stages.now) p) };
}
