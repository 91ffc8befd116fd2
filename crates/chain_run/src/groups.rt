ghost use Rattle.std.specs.Prelude.{◌≡◌, ◌≤◌, length, map, option_map, IfOk};
ghost use Rattle.std.specs.List.{AllByRecursion};
ghost use Rattle.tcp_udp.specs.MatchView.{match_view};
ghost use Rattle.flow_key.specs.View.{plan_view};
ghost use Rattle.chain_types.specs.GroupView.{group_view};
ghost use Rattle.chain_run.specs.Sound.{IsGroupSound};
ghost use Rattle.chain_run.specs.Built.{AreBuilt, GroupBuilt, GroupsBuilt};

use crate::below::build_below;
use crate::paths::{Site, StagesPath};
use crate::places::GroupPlace;
use brick_base::NoMemory;
use chain_nodes::{Either, Fan, Pipe};
use chain_types::{Group, Unparsed};
use group_merge::Groups;
use std::alloc::Global;
use tcp_udp::Match;

/// The place of a group.
pub fn build_group<P: StagesPath>(
    alloc: Global,
    site: &Site,
    group: &Group,
) -> Result<GroupPlace<P>, NoMemory>
    requires { IsGroupSound (option_map plan_view site.now.nat) site.now.count site.now.bytes 0 (group_view group.now) }
    ensures { IfOk result
        (λ t. GroupBuilt P.Operator.meaning (option_map plan_view site.now.nat) site.now.count site.now.bytes
        (group_view group.now) t) }
{
    let next = build_below(alloc, site, &group.below)?;
    if group.stages.is_empty() {
        return Ok(GroupPlace {
            place: Either::First(next),
        });
    }
    let path = P::of_stages(alloc, site, Unparsed::Pass, group.stages.as_slice())?;
    let staged = Pipe::new(alloc, path, next, site.count)?;
    Ok(GroupPlace {
        place: Either::Second(staged),
    })
}

/// What the groups take.
fn group_matches(alloc: Global, groups: &[Group]) -> Result<Vec<Option<Match>>, NoMemory>
    ensures { IfOk result (λ ms. map (option_map match_view) ms.items
        ≡ map (λ g. g.wanted) (map group_view groups.now)) }
{
    let mut matches = Vec::new(alloc);
    for group in groups {
        matches.push(group.wanted)?;
    }
    Ok(matches)
}

/// The places of the groups.
fn group_places<P: StagesPath>(
    alloc: Global,
    site: &Site,
    groups: &[Group],
) -> Result<Vec<GroupPlace<P>>, NoMemory>
    requires { AllByRecursion (IsGroupSound (option_map plan_view site.now.nat) site.now.count site.now.bytes 0)
        (map group_view groups.now) }
    ensures { IfOk result
        (λ ts. AreBuilt (GroupBuilt P.Operator.meaning
        (option_map plan_view site.now.nat) site.now.count site.now.bytes) (map group_view groups.now) ts.items) }
{
    let mut places = Vec::new(alloc);
    for group in groups {
        let place = build_group(alloc, site, group)?;
        places.push(place)?;
    }
    Ok(places)
}

/// The groups of a chain, beside one another.
pub fn build_groups<P: StagesPath>(
    alloc: Global,
    site: &Site,
    groups: &[Group],
) -> Result<Fan<GroupPlace<P>>, NoMemory>
    requires many { (1 ≤ length groups.now) × (length groups.now ≤ 16) }
    requires sound { AllByRecursion (IsGroupSound (option_map plan_view site.now.nat) site.now.count site.now.bytes 0)
        (map group_view groups.now) }
    ensures { IfOk result
        (λ f. GroupsBuilt P.Operator.meaning (option_map plan_view site.now.nat) site.now.count site.now.bytes
        (map group_view groups.now) f) }
{
    let matches = group_matches(alloc, groups)?;
    let places = group_places(alloc, site, groups)?;
    let matches = Groups::new(alloc, matches)?;
    Ok(Fan {
        groups: matches,
        places,
    })
}
