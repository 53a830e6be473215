// The networks that aren't described of two descriptions, where requests start.
ghost use Rattle.std.specs.Prelude.{◌≡◌, ◌++◌, IfOk, IsTrue, IsPermutation, OnOk, filter, map};
ghost use Rattle.std.specs.Cmp.Lexicographic.{slice_cmp};
ghost use Rattle.std.specs.List.Sorted.{IsSortedByKey};
ghost use Rattle.std.specs.Ordering.{nat_cmp};
ghost use Rattle.changed_ends.specs.Asked.{AreSourcesOfEither, changed_id, far_from_after, far_from_before, is_free, is_new_source, source_with_id, sources_of_either};

use crate::hosts::sort_by_id;
use described_hosts::far_id;
use listing_text::{is_source, sources_of};
use query_words::ChangedEnd;
use reference_check::Network;
use std::alloc::Global;
use vpc_base::NoMemory;
use vpc_model::{End, FarNo};

// The network with an id as an end, where requests start there.
fn source_with_id(n: &Network, id: &[u8]) -> Option<End>
    ensures { result ≡ source_with_id n.now id.now }
{
    let k = n.far(id)?;
    if is_source(n, k) {
        Some(End::Far(k))
    } else {
        None
    }
}

fn is_free(n: &Network, other: &Network, k: FarNo) -> bool
    ensures { result ≡ is_free n.now other.now k }
{
    other.eni(far_id(n, k)).is_none()
}

fn is_new_source(before: &Network, after: &Network, l: FarNo) -> bool
    ensures { result ≡ is_new_source before.now after.now l }
{
    is_free(after, before, l) && source_with_id(before, far_id(after, l)).is_none()
}

fn far_from_before(before: &Network, after: &Network, k: FarNo) -> ChangedEnd
    ensures { result ≡ far_from_before before.now after.now k }
{
    ChangedEnd {
        before: Some(End::Far(k)),
        after: source_with_id(after, far_id(before, k)),
    }
}

fn far_from_after(l: FarNo) -> ChangedEnd
    ensures { result ≡ far_from_after l }
{
    ChangedEnd {
        before: None,
        after: Some(End::Far(l)),
    }
}

fn add_before(
    ends: &mut Vec<ChangedEnd>,
    before: &Network,
    after: &Network,
    sources: &[FarNo],
) -> Result<(), NoMemory>
    ensures { OnOk result (ends.new.items
        ≡ ends.old.items ++ map (far_from_before before.now after.now) (filter (is_free before.now after.now) sources.now)) }
{
    for k in sources {
        if is_free(before, after, *k) {
            ends.push(far_from_before(before, after, *k))?;
        }
    }
    Ok(())
}

fn add_after(
    ends: &mut Vec<ChangedEnd>,
    before: &Network,
    after: &Network,
    sources: &[FarNo],
) -> Result<(), NoMemory>
    ensures { OnOk result (ends.new.items
        ≡ ends.old.items ++ map far_from_after (filter (is_new_source before.now after.now) sources.now)) }
{
    for l in sources {
        if is_new_source(before, after, *l) {
            ends.push(far_from_after(*l))?;
        }
    }
    Ok(())
}

/// Those of the first network, and those of the second that the first doesn't have.
pub(crate) fn unordered(
    alloc: Global,
    before: &Network,
    after: &Network,
) -> Result<Vec<ChangedEnd>, NoMemory>
    ensures { IfOk result (λ v. v.items ≡ sources_of_either before.now after.now) }
{
    let first = sources_of(alloc, before)?;
    let second = sources_of(alloc, after)?;
    let mut ends = Vec::new(alloc);
    add_before(&mut ends, before, after, first.as_slice())?;
    add_after(&mut ends, before, after, second.as_slice())?;
    Ok(ends)
}

/// The networks that aren't described, of either description, from which requests start, in the order of their ids. It takes
/// time n log n.
pub fn sources_of_either(
    alloc: Global,
    before: &Network,
    after: &Network,
) -> Result<Vec<ChangedEnd>, NoMemory>
    ensures { IfOk result (λ v. AreSourcesOfEither before.now after.now v.items) }
{
    let mut ends = unordered(alloc, before, after)?;
    sort_by_id(before, after, &mut ends);
    Ok(ends)
}
