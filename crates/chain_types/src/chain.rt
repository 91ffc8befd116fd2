//! Chains.

ghost use Rattle.std.specs.Prelude.{◌≤◌, length, map, IsTrue};
ghost use Rattle.std.specs.List.{list_all};
ghost use Rattle.brick_spec.specs.Name.{is_name};
ghost use Rattle.chain_spec.specs.ChainSet.{are_distinct, are_stages_right, IsChainRight};
ghost use Rattle.chain_types.specs.ChainParts.{chain_parts};
ghost use Rattle.chain_types.specs.StageView.{stages_view};

use crate::group::Group;
use crate::stage::Stage;
use crate::words::{Dry, Unparsed};
use brick_base::Name;
use flow_key::NatPlan;

/// What an accepted chain file says of a tenant.
#[derive(Debug, Drop)]
pub struct Chain {
    pub name: Name,
    /// The name of its capture in the store, 1 to 255 bytes.
    pub capture: Name,
    /// How many buffers it has, 1 to 1,024.
    pub buffers: u32,
    /// The most bytes that a frame may have, 64 to 65,600. A longer one is dropped as Big.
    pub bytes: u32,
    pub dry: Dry,
    pub unparsed: Unparsed,
    /// How addresses are translated, for the stages `nat`.
    pub nat: Option<NatPlan>,
    /// At most 32.
    pub stages: Vec<Stage>,
    /// 1 to 16, with distinct names.
    pub groups: Vec<Group>,
    /// The outputs of the groups, in the order of first mention. None stands twice.
    pub outputs: Vec<Name>,
    pub ghost named: { IsTrue (is_name name) },
    pub ghost capture_length: { (1 ≤ length capture) × (length capture ≤ 255) },
    pub ghost buffers_range: { (1 ≤ buffers) × (buffers ≤ 1024) },
    pub ghost bytes_range: { (64 ≤ bytes) × (bytes ≤ 65600) },
    pub ghost stages_right: { IsTrue (are_stages_right (stages_view stages.items)) },
    pub ghost some_groups: { (1 ≤ length groups.items) × (length groups.items ≤ 16) },
    pub ghost groups_distinct: { IsTrue (are_distinct (map (λ g. g.name) groups.items)) },
    pub ghost outputs_named: { IsTrue (list_all is_name outputs.items) },
    pub ghost outputs_distinct: { IsTrue (are_distinct outputs.items) },
    pub ghost right: { IsChainRight
        (chain_parts name capture buffers bytes dry unparsed nat stages.items groups.items outputs.items) },
}
