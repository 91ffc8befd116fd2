//! Groups and settings as a chain file has them.

ghost use Rattle.std.specs.Prelude.{◌≤◌, IsTrue};
ghost use Rattle.brick_spec.specs.Name.{is_name};
ghost use Rattle.chain_spec.specs.ChainSet.{are_stages_right, is_named_below_right};
ghost use Rattle.chain_types.specs.StageView.{stages_view};
ghost use Rattle.chain_file.specs.NamedView.{named_below_view};

use crate::named_leaf::NamedBelow;
use brick_base::Name;
use chain_types::{Dry, Stage, Unparsed};
use tcp_udp::Match;

/// A group with the names of its outputs.
#[derive(Drop)]
pub(crate) struct NamedGroup {
    pub(crate) name: Name,
    pub(crate) wanted: Option<Match>,
    pub(crate) stages: Vec<Stage>,
    pub(crate) below: NamedBelow,
    ghost named: { IsTrue (is_name name) },
    ghost stages_right: { IsTrue (are_stages_right (stages_view stages.items)) },
    ghost below_right: { IsTrue (is_named_below_right (named_below_view below)) },
}

/// A tenant's numbers and words.
#[derive(Clone, Copy)]
pub(crate) struct Settings {
    pub(crate) buffers: u32,
    pub(crate) bytes: u32,
    pub(crate) dry: Dry,
    pub(crate) unparsed: Unparsed,
    ghost buffers_range: { (1 ≤ buffers) × (buffers ≤ 1024) },
    ghost bytes_range: { (64 ≤ bytes) × (bytes ≤ 65600) },
}
