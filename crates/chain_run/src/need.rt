//! How many spare buffers the windows of a chain need.

ghost use Rattle.std.specs.Prelude.{◌≤◌, map, IsTrue};
ghost use Rattle.std.specs.List.{AllByRecursion};
ghost use Rattle.chain_spec.specs.ChainSet.{is_stage_right, are_stages_right};
ghost use Rattle.chain_types.specs.BelowView.{leaf_view, below_view};
ghost use Rattle.chain_types.specs.GroupView.{group_view};
ghost use Rattle.chain_types.specs.StageView.{stage_view, stages_view};
ghost use Rattle.chain_types.specs.View.{chain_view};
ghost use Rattle.chain_run.specs.Sound.{WindowFits, WindowsFit, LeafFits, BelowFits, GroupFits, IsFew, IsMore};
ghost use Rattle.chain_run.specs.Sound.{IsChainSound};

use chain_types::{Below, Chain, Group, Leaf, Stage};

/// How many spare buffers, and how many bytes each.
#[derive(Clone, Copy, Debug, Drop)]
pub struct Need {
    /// At most 16,385.
    pub count: u32,
    /// At most 1,514.
    pub bytes: u32,
}

/// What a stage needs too. A packet makes `reach / size + 1` windows at most, each of 54 bytes of headers and its data.
fn with_stage(need: Need, stage: &Stage) -> Need
    requires right { IsTrue (is_stage_right (stage_view stage.now)) }
    requires few { IsFew need.count need.bytes }
    ensures more { IsMore need.count need.bytes result.count result.bytes }
    ensures fits { WindowFits result.count result.bytes (stage_view stage.now) }
{
    match stage {
        Stage::Window { size, reach } => Need {
            count: need.count.max(*reach / *size + 1),
            bytes: need.bytes.max(54 + *size),
        },
        _ => need,
    }
}

/// What these stages need too.
fn with_stages(need: Need, stages: &[Stage]) -> Need
    requires right { IsTrue (are_stages_right (stages_view stages.now)) }
    requires few { IsFew need.count need.bytes }
    ensures more { IsMore need.count need.bytes result.count result.bytes }
    ensures fit { WindowsFit result.count result.bytes (stages_view stages.now) }
{
    let mut all = need;
    for stage in stages {
        all = with_stage(all, stage);
    }
    all
}

/// What the groups in a group need too.
fn with_leaves(need: Need, leaves: &[Leaf]) -> Need
    requires few { IsFew need.count need.bytes }
    ensures more { IsMore need.count need.bytes result.count result.bytes }
    ensures fit { AllByRecursion (LeafFits result.count result.bytes) (map leaf_view leaves.now) }
{
    let mut all = need;
    for leaf in leaves {
        all = with_stages(all, leaf.stages.as_slice());
    }
    all
}

/// What stands behind a group's stages needs this too.
fn with_below(need: Need, below: &Below) -> Need
    requires few { IsFew need.count need.bytes }
    ensures more { IsMore need.count need.bytes result.count result.bytes }
    ensures fits { BelowFits result.count result.bytes (below_view below.now) }
{
    match below {
        Below::Output(_output) => need,
        Below::Inner(leaves) => with_leaves(need, leaves.as_slice()),
    }
}

/// What a group needs too.
fn with_group(need: Need, group: &Group) -> Need
    requires few { IsFew need.count need.bytes }
    ensures more { IsMore need.count need.bytes result.count result.bytes }
    ensures fits { GroupFits result.count result.bytes (group_view group.now) }
{
    let own = with_stages(need, group.stages.as_slice());
    with_below(own, &group.below)
}

/// What these groups need too.
fn with_groups(need: Need, groups: &[Group]) -> Need
    requires few { IsFew need.count need.bytes }
    ensures more { IsMore need.count need.bytes result.count result.bytes }
    ensures fit { AllByRecursion (GroupFits result.count result.bytes) (map group_view groups.now) }
{
    let mut all = need;
    for group in groups {
        all = with_group(all, group);
    }
    all
}

/// What a chain needs.
pub fn need_of(chain: &Chain) -> Need
    ensures few { IsFew result.count result.bytes }
    ensures sound { IsChainSound result.count result.bytes (chain_view chain.now) }
{
    let own = with_stages(Need { count: 0, bytes: 0 }, chain.stages.as_slice());
    with_groups(own, chain.groups.as_slice())
}
