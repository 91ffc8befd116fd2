//! Groups in a group.

ghost use Rattle.std.specs.Prelude.{IsTrue};
ghost use Rattle.brick_spec.specs.Name.{is_name};
ghost use Rattle.chain_spec.specs.ChainSet.{are_stages_right};
ghost use Rattle.chain_types.specs.StageView.{stages_view};

use crate::stage::Stage;
use brick_base::Name;
use tcp_udp::Match;

/// A group in a group: what it takes, and where it leads.
#[derive(Debug, Drop)]
pub struct Leaf {
    pub name: Name,
    /// None takes every frame.
    pub wanted: Option<Match>,
    /// At most 32.
    pub stages: Vec<Stage>,
    /// The place of its output among the chain's outputs.
    pub output: u32,
    pub ghost named: { IsTrue (is_name name) },
    pub ghost stages_right: { IsTrue (are_stages_right (stages_view stages.items)) },
}

/// What stands behind a group's stages.
#[derive(Debug, Drop)]
pub enum Below {
    /// The place of its output among the chain's outputs.
    Output(u32),
    /// 1 to 4 groups with distinct names. A frame goes to the first that takes it.
    Inner(Vec<Leaf>),
}
