//! What joins the parts of a tenant: a plan beside stages `nat`, and at most one `window` on each path.

ghost use Rattle.std.specs.Prelude.{◌≡◌, ◌<◌, ◌+◌, ◌^◌, ◌++◌, ◌&&◌, not, is_some, map, nat_le, option_map};
ghost use Rattle.std.specs.Prelude.{if◌then◌else◌};
ghost use Rattle.std.specs.List.{list_any, list_all};
ghost use Rattle.chain_spec.specs.ChainSet as spec;
ghost use Rattle.flow_key.specs.View.{plan_view};
ghost use Rattle.chain_types.specs.StageView.{stage_view, stages_view};
ghost use Rattle.chain_types.specs.BelowView.{leaf_view, below_view};
ghost use Rattle.chain_types.specs.GroupView.{group_view};

use chain_types::{Below, Group, Leaf, Stage};
use flow_key::NatPlan;

// STAGES `nat`

fn is_nat(stage: &Stage) -> bool
    ensures { result ≡ spec.is_nat (stage_view stage.now) }
{
    matches!(stage, Stage::Nat)
}

fn has_nat_in(stages: &[Stage]) -> bool
    ensures { result ≡ list_any spec.is_nat (stages_view stages.now) }
{
    for stage in stages {
        if is_nat(stage) {
            return true;
        }
    }
    false
}

#[tactic(auto, using(crate::proofs::Paths::any_pair))]
fn is_pair_with_nat(stages: &[Stage], more: &[Stage]) -> bool
    ensures { result ≡ list_any spec.is_nat (stages_view stages.now ++ stages_view more.now) }
{
    has_nat_in(stages) || has_nat_in(more)
}

#[tactic(auto, using(crate::proofs::Paths::any_triple))]
fn has_leaf_nat(stages: &[Stage], more: &[Stage], leaf: &Leaf) -> bool
    ensures { result ≡ list_any spec.is_nat ((stages_view stages.now ++ stages_view more.now)
        ++ (leaf_view leaf.now).stages) }
{
    is_pair_with_nat(stages, more) || has_nat_in(&leaf.stages)
}

fn have_leaves_nat(stages: &[Stage], more: &[Stage], leaves: &[Leaf]) -> bool
    ensures { result ≡ list_any (list_any spec.is_nat) (map (λ l. (stages_view stages.now ++ stages_view more.now)
        ++ l.stages) (map leaf_view leaves.now)) }
{
    for leaf in leaves {
        if has_leaf_nat(stages, more, leaf) {
            return true;
        }
    }
    false
}

fn has_group_nat(stages: &[Stage], group: &Group) -> bool
    ensures { result ≡ list_any (list_any spec.is_nat) (spec.paths_below (stages_view stages.now
        ++ (group_view group.now).stages) (group_view group.now).below) }
{
    match &group.below {
        Below::Output(_) => is_pair_with_nat(stages, &group.stages),
        Below::Inner(leaves) => have_leaves_nat(stages, &group.stages, leaves),
    }
}

/// Whether a stage `nat` stands on a path.
#[tactic(auto, using(crate::proofs::Paths::any_through))]
fn has_nat(stages: &[Stage], groups: &[Group]) -> bool
    ensures { result ≡ list_any (list_any spec.is_nat)
        (spec.paths_through (stages_view stages.now) (map group_view groups.now)) }
{
    for group in groups {
        if has_group_nat(stages, group) {
            return true;
        }
    }
    false
}

/// Whether a stage `nat` stands on a path, and there is no plan.
pub(crate) fn lacks_plan(nat: &Option<NatPlan>, stages: &[Stage], groups: &[Group]) -> bool
    ensures { result ≡ (list_any (list_any spec.is_nat)
        (spec.paths_through (stages_view stages.now) (map group_view groups.now))
        && not (is_some (option_map plan_view nat.now))) }
{
    has_nat(stages, groups) && nat.is_none()
}

// STAGES `window`

fn is_window(stage: &Stage) -> bool
    ensures { result ≡ spec.is_window (stage_view stage.now) }
{
    matches!(stage, Stage::Window { .. })
}

/// One more where the stage is a `window`.
fn with_window(windows: usize, stage: &Stage) -> usize
    requires { windows < 2 ^ 63 }
    ensures { result ≡ windows + (if spec.is_window (stage_view stage.now) then 1 else 0) }
{
    if is_window(stage) {
        windows + 1
    } else {
        windows
    }
}

/// How many stages `window` a list has.
fn windows_in(stages: &[Stage]) -> usize
    ensures { result ≡ spec.windows_in (stages_view stages.now) }
{
    let mut windows: usize = 0;
    for stage in stages {
        windows = with_window(windows, stage);
    }
    windows
}

#[tactic(auto, using(crate::proofs::Paths::windows_pair))]
fn has_pair_one_window(stages: &[Stage], more: &[Stage]) -> bool
    ensures { result ≡ nat_le (spec.windows_in (stages_view stages.now ++ stages_view more.now)) 1 }
{
    let first = windows_in(stages);
    let second = windows_in(more);
    first <= 1 && second <= 1 - first
}

#[tactic(auto, using(crate::proofs::Paths::windows_triple))]
fn has_leaf_one_window(stages: &[Stage], more: &[Stage], leaf: &Leaf) -> bool
    ensures { result ≡ nat_le (spec.windows_in ((stages_view stages.now ++ stages_view more.now)
        ++ (leaf_view leaf.now).stages)) 1 }
{
    let first = windows_in(stages);
    let second = windows_in(more);
    let third = windows_in(&leaf.stages);
    first <= 1 && second <= 1 - first && third <= 1 - first - second
}

fn have_leaves_one_window(stages: &[Stage], more: &[Stage], leaves: &[Leaf]) -> bool
    ensures { result ≡ list_all (λ path. nat_le (spec.windows_in path) 1) (map (λ l. (stages_view stages.now
        ++ stages_view more.now) ++ l.stages) (map leaf_view leaves.now)) }
{
    for leaf in leaves {
        if !has_leaf_one_window(stages, more, leaf) {
            return false;
        }
    }
    true
}

fn has_group_one_window(stages: &[Stage], group: &Group) -> bool
    ensures { result ≡ list_all (λ path. nat_le (spec.windows_in path) 1) (spec.paths_below (stages_view stages.now
        ++ (group_view group.now).stages) (group_view group.now).below) }
{
    match &group.below {
        Below::Output(_) => has_pair_one_window(stages, &group.stages),
        Below::Inner(leaves) => have_leaves_one_window(stages, &group.stages, leaves),
    }
}

/// Whether at most one `window` stands on each path.
#[tactic(auto, using(crate::proofs::Paths::all_through))]
pub(crate) fn has_one_window(stages: &[Stage], groups: &[Group]) -> bool
    ensures { result ≡ list_all (λ path. nat_le (spec.windows_in path) 1)
        (spec.paths_through (stages_view stages.now) (map group_view groups.now)) }
{
    for group in groups {
        if !has_group_one_window(stages, group) {
            return false;
        }
    }
    true
}
