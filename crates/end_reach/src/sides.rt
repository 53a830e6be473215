// The boxes of requests that are asked for.
ghost use Rattle.std.specs.Prelude.{◌≡◌, All, AllPairs, IfOk, IfSome, IsTrue, map, option_map};
ghost use Rattle.header_boxes.specs.Boxes.{AreDisjoint, IsValid};
ghost use Rattle.listing_text.specs.Sides.{AreSidesOf, alone, sides_between};
ghost use Rattle.query_words.specs.Pairs.{IsSide};
ghost use Rattle.query_words.specs.ReachQuery.{AreReachPairs};
ghost use Rattle.vpc_model.specs.Sound.{is_end};
ghost use Rattle.end_reach.specs.Asked.{AreTargets, boxes_at, own_addresses, own_sources, sources_of};

use header_boxes::Box5;
use listing_text::{ALL, add_boxes, add_pairs, ascending_sides, only};
use query_words::{ReachPairs, ReachQuery};
use reference_check::Network;
use std::alloc::Global;
use vpc_base::NoMemory;
use vpc_model::{End, FarNo, Interface};

/// The requests of a query.
#[derive(Drop)]
pub struct Asked<'a> {
    pub query: &'a ReachQuery,
    /// Their destinations, as `targets_of` gives them.
    pub targets: &'a [(u32, u32)],
    /// At which ends beside the start their replies may arrive, as `links_of` gives them.
    pub links: &'a [FarNo],
}

// ---- sources

fn alone(address: Option<u32>) -> Option<(u32, u32)>
    ensures value { result ≡ option_map alone address }
    ensures some { IfSome result IsSide }
{
    match address {
        Some(a) => Some((a, a)),
        None => None,
    }
}

fn own_sources(n: &Network, start: End) -> Option<(u32, u32)>
    requires { IsTrue (is_end n.now start) }
    ensures value { result ≡ own_sources n.now start }
    ensures some { IfSome result IsSide }
{
    match start {
        End::Interface(eni) => alone(n.interface_at(eni).primary),
        End::Internet | End::Far(_) => Some(ALL),
    }
}

fn sources_of(n: &Network, given: Option<(u32, u32)>, start: End) -> Option<(u32, u32)>
    requires start { IsTrue (is_end n.now start) }
    requires given { IfSome given IsSide }
    ensures value { result ≡ sources_of n.now given start }
    ensures some { IfSome result IsSide }
{
    match given {
        Some(side) => Some(side),
        None => own_sources(n, start),
    }
}

// ---- destinations

fn own_targets(alloc: Global, interface: &Interface) -> Result<Vec<(u32, u32)>, NoMemory>
    ensures { IfOk result (λ v. AreSidesOf (own_addresses interface.now) interface.now.prefixes v.items) }
{
    let mut addresses = Vec::new(alloc);
    add_pairs(&mut addresses, interface.addresses.as_slice())?;
    ascending_sides(alloc, addresses, interface.prefixes.as_slice())
}

/// The destinations that are asked for: those that are given; else each address of an interface that is the goal and the
/// runs of its prefixes, and all where none is.
pub fn targets_of(
    alloc: Global,
    n: &Network,
    given: Option<(u32, u32)>,
    goal: Option<End>,
) -> Result<Vec<(u32, u32)>, NoMemory>
    requires { IfSome goal (λ e. IsTrue (is_end n.now e)) }
    ensures { IfOk result (λ v. AreTargets n.now given goal v.items) }
{
    match (given, goal) {
        (Some(side), _) => only(alloc, side),
        (None, Some(End::Interface(eni))) => own_targets(alloc, n.interface_at(eni)),
        (None, _) => only(alloc, ALL),
    }
}

// ---- boxes

fn boxes_to(
    alloc: Global,
    pairs: &ReachPairs,
    src: (u32, u32),
    targets: &[(u32, u32)],
) -> Result<Vec<Box5>, NoMemory>
    ensures { IfOk result (λ v. v.items ≡ map (sides_between pairs.now src) targets.now) }
{
    let mut boxes = Vec::new(alloc);
    add_boxes(&mut boxes, pairs, targets, src)?;
    Ok(boxes)
}

/// The headers that are asked for from a start, by the destinations of the query.
pub fn boxes_at(
    alloc: Global,
    n: &Network,
    query: &ReachQuery,
    targets: &[(u32, u32)],
    start: End,
) -> Result<Vec<Box5>, NoMemory>
    requires start { IsTrue (is_end n.now start) }
    requires pairs { AreReachPairs query.now.pairs }
    requires targets { AreTargets n.now query.now.pairs.dst query.now.goal targets.now }
    ensures value { IfOk result (λ v. v.items ≡ boxes_at n.now query.now targets.now start) }
    ensures valid { IfOk result (λ v. All IsValid v.items) }
    ensures disjoint { IfOk result (λ v. AllPairs AreDisjoint v.items) }
{
    match sources_of(n, query.pairs.src, start) {
        Some(src) => boxes_to(alloc, &query.pairs, src, targets),
        None => Ok(Vec::new(alloc)),
    }
}
