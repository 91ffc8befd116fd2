ghost use Rattle.std.specs.Prelude.{◌≡◌, ◌≤◌, length, map, option_map, IfOk, IsTrue};
ghost use Rattle.std.specs.List.{AllByRecursion};
ghost use Rattle.chain_spec.specs.ChainSet.{are_stages_right};
ghost use Rattle.tcp_udp.specs.MatchView.{match_view};
ghost use Rattle.flow_key.specs.View.{plan_view};
ghost use Rattle.chain_types.specs.BelowView.{leaf_view, below_view};
ghost use Rattle.chain_types.specs.StageView.{stages_view};
ghost use Rattle.chain_run.specs.Sound.{IsLeafSound, AreLeavesSound, IsBelowSound};
ghost use Rattle.chain_run.specs.Built.{AreBuilt, LeafBuilt, LeavesBuilt, BelowBuilt};

use crate::paths::{Site, StagesPath};
use brick_base::NoMemory;
use chain_nodes::{Either, Fan, LeafList, Pipe};
use chain_types::{Below, Leaf, Unparsed};
use group_merge::Groups;
use std::alloc::Global;
use tcp_udp::Match;

/// A group without groups in it.
pub type LeafPlace<P> = Pipe<P, LeafList>;

/// The place of a group in a group.
pub fn build_leaf<P: StagesPath>(
    alloc: Global,
    site: &Site,
    leaf: &Leaf,
) -> Result<Pipe<P, LeafList>, NoMemory>
    requires { IsLeafSound (option_map plan_view site.now.nat) site.now.count site.now.bytes 0 (leaf_view leaf.now) }
    ensures { IfOk result
        (λ t. LeafBuilt P.Operator.meaning (option_map plan_view site.now.nat) site.now.count site.now.bytes
        (leaf_view leaf.now) t) }
{
    let path = P::of_stages(alloc, site, Unparsed::Pass, leaf.stages.as_slice())?;
    Pipe::new(alloc, path, LeafList::new(alloc), site.count)
}

/// What the groups in a group take.
fn leaf_matches(alloc: Global, leaves: &[Leaf]) -> Result<Vec<Option<Match>>, NoMemory>
    ensures { IfOk result (λ ms. map (option_map match_view) ms.items
        ≡ map (λ l. l.wanted) (map leaf_view leaves.now)) }
{
    let mut matches = Vec::new(alloc);
    for leaf in leaves {
        matches.push(leaf.wanted)?;
    }
    Ok(matches)
}

/// The places of the groups in a group.
fn leaf_places<P: StagesPath>(
    alloc: Global,
    site: &Site,
    leaves: &[Leaf],
) -> Result<Vec<Pipe<P, LeafList>>, NoMemory>
    requires { AllByRecursion (IsLeafSound (option_map plan_view site.now.nat) site.now.count site.now.bytes 0)
        (map leaf_view leaves.now) }
    ensures { IfOk result
        (λ ts. AreBuilt (LeafBuilt P.Operator.meaning
        (option_map plan_view site.now.nat) site.now.count site.now.bytes) (map leaf_view leaves.now) ts.items) }
{
    let mut places = Vec::new(alloc);
    for leaf in leaves {
        let place = build_leaf(alloc, site, leaf)?;
        places.push(place)?;
    }
    Ok(places)
}

/// The groups in a group, beside one another.
fn build_leaves<P: StagesPath>(
    alloc: Global,
    site: &Site,
    leaves: &[Leaf],
) -> Result<Fan<Pipe<P, LeafList>>, NoMemory>
    requires { AreLeavesSound (option_map plan_view site.now.nat) site.now.count site.now.bytes 0
        (map leaf_view leaves.now) }
    ensures { IfOk result
        (λ f. LeavesBuilt P.Operator.meaning (option_map plan_view site.now.nat) site.now.count site.now.bytes
        (map leaf_view leaves.now) f) }
{
    let matches = leaf_matches(alloc, leaves)?;
    let places = leaf_places(alloc, site, leaves)?;
    let groups = Groups::new(alloc, matches)?;
    Ok(Fan { groups, places })
}

/// What stands behind a group's stages.
pub fn build_below<P: StagesPath>(
    alloc: Global,
    site: &Site,
    below: &Below,
) -> Result<Either<LeafList, Fan<Pipe<P, LeafList>>>, NoMemory>
    requires { IsBelowSound (option_map plan_view site.now.nat) site.now.count site.now.bytes 0 (below_view below.now) }
    ensures { IfOk result
        (λ t. BelowBuilt P.Operator.meaning (option_map plan_view site.now.nat) site.now.count site.now.bytes
        (below_view below.now) t) }
{
    match below {
        Below::Output(_output) => Ok(Either::First(LeafList::new(alloc))),
        Below::Inner(leaves) => {
            let fan = build_leaves(alloc, site, leaves.as_slice())?;
            Ok(Either::Second(fan))
        }
    }
}
