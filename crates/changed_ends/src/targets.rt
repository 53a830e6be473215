// The destinations that are asked for.
ghost use Rattle.std.specs.Prelude.{◌≡◌, ◌++◌, IfOk, OnOk};
ghost use Rattle.listing_text.specs.Sides.{AreSidesOf};
ghost use Rattle.changed_ends.specs.Asked.{AreOwnTargets, TargetsAre, addresses_in_either, addresses_of, is_outside, is_outside_in_either, prefixes_in_either, prefixes_of};

use listing_text::{ALL, add_pairs, ascending_sides, only};
use prefix_text::Prefix;
use query_words::ChangedEnd;
use reference_check::Network;
use std::alloc::Global;
use vpc_base::NoMemory;
use vpc_model::End;

// Adds the private and public addresses that an end has in a network.
fn add_addresses(addresses: &mut Vec<u32>, n: &Network, end: Option<End>) -> Result<(), NoMemory>
    ensures { OnOk result (addresses.new.items ≡ addresses.old.items ++ addresses_of n.now end) }
{
    match end {
        Some(End::Interface(eni)) => {
            match n.description().interfaces.as_slice().get(eni.0 as usize) {
                Some(interface) => add_pairs(addresses, interface.addresses.as_slice()),
                None => Ok(()),
            }
        }
        _ => Ok(()),
    }
}

fn addresses_in_either(
    alloc: Global,
    before: &Network,
    after: &Network,
    end: ChangedEnd,
) -> Result<Vec<u32>, NoMemory>
    ensures { IfOk result (λ v. v.items ≡ addresses_in_either before.now after.now end) }
{
    let mut addresses = Vec::new(alloc);
    add_addresses(&mut addresses, before, end.before)?;
    add_addresses(&mut addresses, after, end.after)?;
    Ok(addresses)
}

// Adds blocks as they are.
fn add_all(blocks: &mut Vec<Prefix>, others: &[Prefix]) -> Result<(), NoMemory>
    ensures { OnOk result (blocks.new.items ≡ blocks.old.items ++ others.now) }
{
    for block in others {
        blocks.push(*block)?;
    }
    Ok(())
}

// Adds the blocks that are delegated to an end in a network.
fn add_prefixes(blocks: &mut Vec<Prefix>, n: &Network, end: Option<End>) -> Result<(), NoMemory>
    ensures { OnOk result (blocks.new.items ≡ blocks.old.items ++ prefixes_of n.now end) }
{
    match end {
        Some(End::Interface(eni)) => {
            match n.description().interfaces.as_slice().get(eni.0 as usize) {
                Some(interface) => add_all(blocks, interface.prefixes.as_slice()),
                None => Ok(()),
            }
        }
        _ => Ok(()),
    }
}

fn prefixes_in_either(
    alloc: Global,
    before: &Network,
    after: &Network,
    end: ChangedEnd,
) -> Result<Vec<Prefix>, NoMemory>
    ensures { IfOk result (λ v. v.items ≡ prefixes_in_either before.now after.now end) }
{
    let mut blocks = Vec::new(alloc);
    add_prefixes(&mut blocks, before, end.before)?;
    add_prefixes(&mut blocks, after, end.after)?;
    Ok(blocks)
}

fn is_outside(end: Option<End>) -> bool
    ensures { result ≡ is_outside end }
{
    match end {
        Some(End::Internet) | Some(End::Far(_)) => true,
        _ => false,
    }
}

/// Whether an end has all addresses in either network: the internet, or a network that isn't described.
pub fn is_outside_in_either(end: ChangedEnd) -> bool
    ensures { result ≡ is_outside_in_either end }
{
    is_outside(end.before) || is_outside(end.after)
}

fn sides_in_either(
    alloc: Global,
    before: &Network,
    after: &Network,
    goal: ChangedEnd,
) -> Result<Vec<(u32, u32)>, NoMemory>
    ensures { IfOk result (λ v. AreSidesOf (addresses_in_either before.now after.now goal)
        (prefixes_in_either before.now after.now goal) v.items) }
{
    let addresses = addresses_in_either(alloc, before, after, goal)?;
    let blocks = prefixes_in_either(alloc, before, after, goal)?;
    ascending_sides(alloc, addresses, blocks.as_slice())
}

fn own_targets(
    alloc: Global,
    before: &Network,
    after: &Network,
    goal: ChangedEnd,
) -> Result<Vec<(u32, u32)>, NoMemory>
    ensures { IfOk result (λ v. AreOwnTargets before.now after.now goal v.items) }
{
    if is_outside_in_either(goal) {
        only(alloc, ALL)
    } else {
        sides_in_either(alloc, before, after, goal)
    }
}

/// The destinations that are asked for: those that are given; else the addresses and the runs of the prefixes that the goal
/// has in either network, and all where there is none.
pub fn targets_of(
    alloc: Global,
    before: &Network,
    after: &Network,
    given: Option<(u32, u32)>,
    goal: Option<ChangedEnd>,
) -> Result<Vec<(u32, u32)>, NoMemory>
    ensures { IfOk result (λ v. TargetsAre before.now after.now given goal v.items) }
{
    match (given, goal) {
        (Some(side), _) => only(alloc, side),
        (None, Some(goal)) => own_targets(alloc, before, after, goal),
        (None, None) => only(alloc, ALL),
    }
}
