// Sides of addresses, and the boxes of requests between them.
ghost use Rattle.std.specs.Prelude.{◌≡◌, ◌↔◌, ◌++◌, ◌∷◌, [], Contains, IfOk, IsPermutation, OnOk, filter, map, not, ℕ};
ghost use Rattle.std.specs.List.{flat_map};
ghost use Rattle.std.specs.List.Sorted.{IsNonDecreasingBy, IsStrictlyIncreasing};
ghost use Rattle.address_sets.specs.Runs.{is_in};
ghost use Rattle.vpc_model.specs.Lookup.{both_addresses};
ghost use Rattle.listing_text.specs.Sides.{AreSidesOf, alone, side_of, sides_between};

use address_sets::{AddressSet, Run};
use header_boxes::Box5;
use prefix_text::Prefix;
use query_words::ReachPairs;
use std::alloc::{AllocError, Global};
use vpc_base::NoMemory;

/// Every address.
pub const ALL: (u32, u32) = (0, u32::MAX);

// ---- addresses

fn add_both(addresses: &mut Vec<u32>, both: &(u32, Option<u32>)) -> Result<(), NoMemory>
    ensures { OnOk result (addresses.new.items ≡ addresses.old.items ++ both_addresses both.now) }
{
    addresses.push(both.0)?;
    if let Some(public) = both.1 {
        addresses.push(public)?;
    }
    Ok(())
}

/// Adds the private and public addresses of an interface.
pub fn add_pairs(addresses: &mut Vec<u32>, pairs: &[(u32, Option<u32>)]) -> Result<(), NoMemory>
    ensures { OnOk result (addresses.new.items
        ≡ addresses.old.items ++ flat_map both_addresses pairs.now) }
{
    for pair in pairs {
        add_both(addresses, pair)?;
    }
    Ok(())
}

// ---- sides

/// This side, and no other.
pub fn only(alloc: Global, side: (u32, u32)) -> Result<Vec<(u32, u32)>, NoMemory>
    ensures { IfOk result (λ v. v.items ≡ side ∷ []) }
{
    let mut sides = Vec::new(alloc);
    sides.push(side)?;
    Ok(sides)
}

/// Each of these addresses, alone.
pub fn each_alone(alloc: Global, addresses: &[u32]) -> Result<Vec<(u32, u32)>, NoMemory>
    ensures { IfOk result (λ v. v.items ≡ map alone addresses.now) }
{
    let mut sides = Vec::new(alloc);
    for address in addresses {
        sides.push((*address, *address))?;
    }
    Ok(sides)
}

// Addresses in ascending order, each once.
fn ascending(mut addresses: Vec<u32>) -> Vec<u32>
    ensures order { IsStrictlyIncreasing result.items }
    ensures members { (a : ℕ) → Contains result.items a ↔ Contains addresses.items a }
{
    addresses.sort_unstable();
    addresses.dedup();
    addresses
}

// Adds those of some addresses that a set lacks, each alone.
fn add_lone(
    sides: &mut Vec<(u32, u32)>,
    set: &AddressSet,
    addresses: &[u32],
) -> Result<(), AllocError>
    ensures { OnOk result (sides.new.items
        ≡ sides.old.items ++ map alone (filter (λ a. not (is_in a set.now)) addresses.now)) }
{
    for address in addresses {
        if !set.has(*address) {
            sides.push((*address, *address))?;
        }
    }
    Ok(())
}

fn add_runs(sides: &mut Vec<(u32, u32)>, runs: &[Run]) -> Result<(), AllocError>
    ensures { OnOk result (sides.new.items ≡ sides.old.items ++ map side_of runs.now) }
{
    for run in runs {
        sides.push((run.first, run.last))?;
    }
    Ok(())
}

fn sort(sides: &mut Vec<(u32, u32)>)
    ensures same { IsPermutation sides.old.items sides.new.items }
    ensures sorted { IsNonDecreasingBy (λ s. s.0) sides.new.items }
{
    sides.sort_unstable_by_key(|side| side.0);
}

// Addresses that a set lacks, each alone, and runs, in ascending order.
fn merged(
    alloc: Global,
    set: &AddressSet,
    runs: &[Run],
    addresses: &[u32],
) -> Result<Vec<(u32, u32)>, AllocError>
    ensures same { IfOk result (λ v. IsPermutation
        (map alone (filter (λ a. not (is_in a set.now)) addresses.now) ++ map side_of runs.now) v.items) }
    ensures sorted { IfOk result (λ v. IsNonDecreasingBy (λ s. s.0) v.items) }
{
    let mut sides = Vec::new(alloc);
    add_lone(&mut sides, set, addresses)?;
    add_runs(&mut sides, runs)?;
    sort(&mut sides);
    Ok(sides)
}

/// These addresses and those of some blocks, in ascending order: each address that no block holds, alone, and the blocks'
/// as runs. It takes time n log n.
pub fn ascending_sides(
    alloc: Global,
    addresses: Vec<u32>,
    blocks: &[Prefix],
) -> Result<Vec<(u32, u32)>, NoMemory>
    ensures { IfOk result (λ v. AreSidesOf addresses.items blocks.now v.items) }
{
    let order = ascending(addresses);
    let set = AddressSet::of_blocks(alloc, blocks)?;
    let runs = set.runs();
    Ok(merged(alloc, &set, runs, order.as_slice())?)
}

// ---- boxes

fn sides_between(pairs: &ReachPairs, src: (u32, u32), dst: (u32, u32)) -> Box5
    ensures { result ≡ sides_between pairs.now src dst }
{
    Box5 {
        proto: pairs.proto,
        src,
        dst,
        p: pairs.p,
        q: pairs.q,
    }
}

/// Adds the headers from a source to each destination.
pub fn add_boxes(
    boxes: &mut Vec<Box5>,
    pairs: &ReachPairs,
    targets: &[(u32, u32)],
    src: (u32, u32),
) -> Result<(), NoMemory>
    ensures { OnOk result (boxes.new.items
        ≡ boxes.old.items ++ map (sides_between pairs.now src) targets.now) }
{
    for dst in targets {
        boxes.push(sides_between(pairs, src, *dst))?;
    }
    Ok(())
}
