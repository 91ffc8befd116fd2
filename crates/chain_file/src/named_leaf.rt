//! Groups in a group as a chain file has them.

ghost use Rattle.std.specs.Prelude.{IsTrue};
ghost use Rattle.brick_spec.specs.Name.{is_name};
ghost use Rattle.chain_spec.specs.ChainSet.{are_stages_right};
ghost use Rattle.chain_types.specs.StageView.{stages_view};

use brick_base::Name;
use chain_types::Stage;
use tcp_udp::Match;

/// A group in a group with the name of its output.
#[derive(Drop)]
pub(crate) struct NamedLeaf {
    pub(crate) name: Name,
    pub(crate) wanted: Option<Match>,
    pub(crate) stages: Vec<Stage>,
    pub(crate) into: Name,
    ghost named: { IsTrue (is_name name) },
    ghost into_named: { IsTrue (is_name into) },
    ghost stages_right: { IsTrue (are_stages_right (stages_view stages.items)) },
}

/// What stands behind a group's stages.
#[derive(Drop)]
pub(crate) enum NamedBelow {
    /// The name of its output.
    Into(Name),
    /// 1 to 4 groups.
    Within(Vec<NamedLeaf>),
}
