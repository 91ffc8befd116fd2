//! Groups.

ghost use Rattle.std.specs.Prelude.{IsTrue};
ghost use Rattle.brick_spec.specs.Name.{is_name};
ghost use Rattle.chain_spec.specs.ChainSet.{are_stages_right, is_below_right};
ghost use Rattle.chain_types.specs.StageView.{stages_view};
ghost use Rattle.chain_types.specs.BelowView.{below_view};

use crate::leaf::Below;
use crate::stage::Stage;
use brick_base::Name;
use tcp_udp::Match;

/// A group of a tenant: what it takes, and where it leads.
#[derive(Debug, Drop)]
pub struct Group {
    pub name: Name,
    /// None takes every frame.
    pub wanted: Option<Match>,
    /// At most 32.
    pub stages: Vec<Stage>,
    /// What stands behind its stages.
    pub below: Below,
    pub ghost named: { IsTrue (is_name name) },
    pub ghost stages_right: { IsTrue (are_stages_right (stages_view stages.items)) },
    pub ghost below_right: { IsTrue (is_below_right (below_view below)) },
}
