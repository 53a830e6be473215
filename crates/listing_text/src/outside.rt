// The networks that aren't described from which requests start, in the order of their ids.
ghost use Rattle.std.specs.Prelude.{◌≡◌, ◌∷◌, ◌++◌, [], IfOk, OnOk, cond};
ghost use Rattle.std.specs.List.Sorted.{IsPermutation, IsSortedByKey};
ghost use Rattle.std.specs.Cmp.Lexicographic.{slice_cmp};
ghost use Rattle.std.specs.Ordering.{nat_cmp};
ghost use Rattle.described_hosts.specs.Outside.{far_id};
ghost use Rattle.listing_text.specs.Outside.{AreSourcesById, is_meant, is_same, is_source, numbered, sources_of};

use described_hosts::far_id;
use query_words::is_service;
use reference_check::Network;
use std::alloc::Global;
use std::cmp::Ordering;
use vpc_base::NoMemory;
use vpc_model::{End, FarNo};

fn is_same(k: FarNo, far: Option<FarNo>) -> bool
    ensures { result ≡ is_same k far }
{
    match far {
        Some(l) => k.0 == l.0,
        None => false,
    }
}

// Whether its id names it as an end.
fn is_meant(n: &Network, k: FarNo) -> bool
    ensures { result ≡ is_meant n.now k }
{
    let id = far_id(n, k);
    id != b"internet".as_slice() && n.eni(id).is_none() && is_same(k, n.far_end(id))
}

/// Whether requests start at a network, when none is named: its id names it, and connections are opened from there.
#[tactic(auto, using(crate::proofs::OutsideLemmas::meant_is_end))]
pub fn is_source(n: &Network, k: FarNo) -> bool
    ensures { result ≡ is_source n.now k }
{
    is_meant(n, k) && !is_service(n, End::Far(k))
}

// Adds the network with this number, where requests start there.
fn add(sources: &mut Vec<FarNo>, n: &Network, number: u32) -> Result<(), NoMemory>
    ensures { OnOk result (sources.new.items
        ≡ sources.old.items ++ cond (is_source n.now (numbered number)) (numbered number ∷ []) []) }
{
    if is_source(n, FarNo(number)) {
        sources.push(FarNo(number))?;
    }
    Ok(())
}

/// They, in the order of the description.
pub fn sources_of(alloc: Global, n: &Network) -> Result<Vec<FarNo>, NoMemory>
    ensures { IfOk result (λ v. v.items ≡ sources_of n.now) }
{
    let count = n.description().fars.as_slice().len();
    let mut sources = Vec::new(alloc);
    for number in 0..count {
        add(&mut sources, n, number as u32)?;
    }
    Ok(sources)
}

fn compare_ids(n: &Network, one: FarNo, other: FarNo) -> Ordering
    ensures { result ≡ slice_cmp nat_cmp (far_id n.now one) (far_id n.now other) }
{
    far_id(n, one).cmp(far_id(n, other))
}

fn sort_by_id(n: &Network, sources: &mut Vec<FarNo>)
    ensures same { IsPermutation sources.old.items sources.new.items }
    ensures sorted { IsSortedByKey (far_id n.now) (slice_cmp nat_cmp) sources.new.items }
{
    sources.sort_unstable_by(|one, other| compare_ids(n, *one, *other));
}

/// They, in the order of their ids. It takes time n log n.
pub fn sources_by_id(alloc: Global, n: &Network) -> Result<Vec<FarNo>, NoMemory>
    ensures { IfOk result (λ v. AreSourcesById n.now v.items) }
{
    let _ = n.description();
    let mut sources = sources_of(alloc, n)?;
    sort_by_id(n, &mut sources);
    Ok(sources)
}
