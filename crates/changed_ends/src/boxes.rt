// The boxes of requests that are asked for.
ghost use Rattle.std.specs.Prelude.{◌≡◌, All, AllPairs, IfOk};
ghost use Rattle.header_boxes.specs.Boxes.{AreDisjoint, IsValid};
ghost use Rattle.query_words.specs.ReachQuery.{AreReachPairs};
ghost use Rattle.changed_ends.specs.Asked.{AreTargets, boxes_at, boxes_between, each_once, own_sources, sources_of};

use crate::compared::Compared;
use crate::starts::primary_in;
use crate::targets::is_outside_in_either;
use header_boxes::Box5;
use listing_text::{ALL, add_boxes, each_alone, only};
use query_words::{ChangedEnd, ReachPairs};
use reference_check::Network;
use std::alloc::Global;
use vpc_base::NoMemory;

// ---- sources

// Two addresses where they differ, else the one that there is.
fn each_once(alloc: Global, one: Option<u32>, other: Option<u32>) -> Result<Vec<u32>, NoMemory>
    ensures { IfOk result (λ v. v.items ≡ each_once one other) }
{
    let mut addresses = Vec::new(alloc);
    match (one, other) {
        (None, None) => {}
        (Some(a), None) | (None, Some(a)) => addresses.push(a)?,
        (Some(a), Some(b)) => {
            addresses.push(a)?;
            if a != b {
                addresses.push(b)?;
            }
        }
    }
    Ok(addresses)
}

fn own_sources(
    alloc: Global,
    before: &Network,
    after: &Network,
    start: ChangedEnd,
) -> Result<Vec<(u32, u32)>, NoMemory>
    ensures { IfOk result (λ v. v.items ≡ own_sources before.now after.now start) }
{
    if is_outside_in_either(start) {
        return only(alloc, ALL);
    }
    let addresses = each_once(
        alloc,
        primary_in(before, start.before),
        primary_in(after, start.after),
    )?;
    each_alone(alloc, addresses.as_slice())
}

fn sources_of(
    alloc: Global,
    before: &Network,
    after: &Network,
    given: Option<(u32, u32)>,
    start: ChangedEnd,
) -> Result<Vec<(u32, u32)>, NoMemory>
    ensures { IfOk result (λ v. v.items ≡ sources_of before.now after.now given start) }
{
    match given {
        Some(side) => only(alloc, side),
        None => own_sources(alloc, before, after, start),
    }
}

// ---- boxes

fn boxes_between(
    alloc: Global,
    pairs: &ReachPairs,
    targets: &[(u32, u32)],
    sources: &[(u32, u32)],
) -> Result<Vec<Box5>, NoMemory>
    ensures { IfOk result (λ v. v.items ≡ boxes_between pairs.now targets.now sources.now) }
{
    let mut boxes = Vec::new(alloc);
    for src in sources {
        add_boxes(&mut boxes, pairs, targets, *src)?;
    }
    Ok(boxes)
}

/// The headers that are asked for from a start, by the destinations of the query.
pub fn boxes_at(
    alloc: Global,
    compared: &Compared,
    targets: &[(u32, u32)],
    start: ChangedEnd,
) -> Result<Vec<Box5>, NoMemory>
    requires pairs { AreReachPairs compared.now.query.pairs }
    requires targets { AreTargets compared.now targets.now }
    ensures value { IfOk result (λ v. v.items ≡ boxes_at compared.now targets.now start) }
    ensures valid { IfOk result (λ v. All IsValid v.items) }
    ensures disjoint { IfOk result (λ v. AllPairs AreDisjoint v.items) }
{
    let pairs = &compared.query().pairs;
    let sources = sources_of(alloc, compared.before(), compared.after(), pairs.src, start)?;
    boxes_between(alloc, pairs, targets, sources.as_slice())
}
