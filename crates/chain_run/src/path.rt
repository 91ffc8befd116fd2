//! The paths of a chain.

ghost use Rattle.std.specs.Prelude.{ℕ, ◌≡◌, ◌<◌, ◌+◌, length, take, drop, IfNone, IfSome, IsTrue};
ghost use Rattle.chain_spec.specs.ChainSet as spec;
ghost use Rattle.chain_spec.specs.ChainSet.{windows_in};
ghost use Rattle.chain_types.specs.StageView.{stage_view, stages_view};
ghost use Rattle.chain_run.specs.Plain.{IsFirstWindow, WindowBuilt};
ghost use Rattle.chain_run.specs.Sound.{WindowFits};

use crate::paths::{Site, StagesPath};
use crate::plain::{add_plain, first_stages};
use crate::tree_work::TreeWork;
use batch_ops::Then;
use brick_base::NoMemory;
use chain_types::{Stage, Unparsed};
use read_row::ReadRow;
use stage_path::{Path, StagePath};
use stage_row::PlainStage;
use std::alloc::Global;
use window_stage::WindowStage;

/// A path of a chain: plain stages, at most one window, and plain stages.
pub type ChainPath = StagePath<PlainStage, WindowStage>;

/// A tenant's chain at work.
pub type TenantWork = TreeWork<StagePath<PlainStage, WindowStage>>;

/// Whether it is a window.
fn is_window(stage: &Stage) -> bool
    ensures { result ≡ spec.is_window (stage_view stage.now) }
{
    matches!(stage, Stage::Window { .. })
}

/// The place of the first window: None where there is none.
fn first_window(stages: &[Stage]) -> Option<usize>
    ensures none { IfNone result (windows_in (stages_view stages.now) ≡ 0) }
    ensures some { IfSome result (λ at. (at < length stages.now) × IsFirstWindow at (stages_view stages.now)) }
{
    for at in 0..stages.len() {
        if is_window(&stages[at]) {
            return Some(at);
        }
    }
    None
}

/// The stages before this one.
fn stages_before(stages: &[Stage], at: usize) -> &[Stage]
    requires { at < length stages.now }
    ensures { result.now ≡ take at stages.now }
{
    &stages[..at]
}

/// The stages behind this one.
fn stages_behind(stages: &[Stage], at: usize) -> &[Stage]
    requires { at < length stages.now }
    ensures { result.now ≡ drop (at + 1) stages.now }
{
    &stages[at + 1..]
}

/// The window that a stage is. It fits beside each store of spare buffers beside which the stage does.
fn window_of(alloc: Global, stage: &Stage) -> WindowStage
    requires window { IsTrue (spec.is_window (stage_view stage.now)) }
    requires right { IsTrue (spec.is_stage_right (stage_view stage.now)) }
    ensures { (count bytes : ℕ) → WindowFits count bytes (stage_view stage.now)
        → WindowBuilt count bytes (stage_view stage.now) result }
{
    match stage {
        Stage::Window { size, reach } => WindowStage::new(alloc, *size, *reach),
        _ => unreachable!(),
    }
}

impl StagesPath for Path<PlainStage, Option<Then<WindowStage, ReadRow<PlainStage>>>> {
    fn of_stages(
        alloc: Global,
        site: &Site,
        unparsed: Unparsed,
        stages: &[Stage],
    ) -> Result<Path<PlainStage, Option<Then<WindowStage, ReadRow<PlainStage>>>>, NoMemory> {
        let mut before = first_stages(alloc, unparsed)?;
        match first_window(stages) {
            None => {
                add_plain(alloc, &site.nat, stages, &mut before)?;
                Ok(Path::straight(before))
            }
            Some(at) => {
                add_plain(alloc, &site.nat, stages_before(stages, at), &mut before)?;
                let window = window_of(alloc, &stages[at]);
                let mut after = Vec::new(alloc);
                add_plain(alloc, &site.nat, stages_behind(stages, at), &mut after)?;
                Path::bent(alloc, before, window, after, site.count)
            }
        }
    }
}
