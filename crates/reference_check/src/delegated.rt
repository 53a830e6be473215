// Delegated blocks, and whose they are.
ghost use Rattle.std.specs.Prelude.{◌≡◌, ◌++◌, ◌<◌, ◌^◌, [], All, IfOk, IsTrue, OnOk, map};
ghost use Rattle.vpc_model.specs.Accepted.{duplicate_addresses, missing_references};
ghost use Rattle.vpc_model.specs.Lookup.{has_subnet};
ghost use Rattle.reference_check.specs.Blocks.{AddsBlocks, AreBlocks, FindBlocks, key_run};
ghost use Rattle.reference_check.specs.Numbered.{AreNetworkIds};

use crate::directory::NetworkIds;
use crate::places::{number_of_vpc, subnet_of};
use address_sets::{AddressSet, Run};
use number_tables::{KeyRun, RunTable, key_of};
use std::alloc::{AllocError, Global};
use vpc_base::NoMemory;
use vpc_model::{Description, Interface};

// Adds runs of addresses of a VPC, each with a value.
fn add_runs(
    runs: &mut Vec<KeyRun<usize>>,
    v: u32,
    number: usize,
    addresses: &[Run],
) -> Result<(), AllocError>
    ensures added { OnOk result (runs.new.items ≡ runs.old.items ++ map (key_run v number) addresses.now) }
    ensures fit { OnOk result (All (λ r. r.last < 2 ^ 32) addresses.now) }
{
    for run in addresses {
        runs.push(KeyRun {
            first: key_of(v, run.first),
            last: key_of(v, run.last),
            value: number,
        })?;
    }
    Ok(())
}

// Adds the blocks of an interface.
fn add_blocks(
    alloc: Global,
    runs: &mut Vec<KeyRun<usize>>,
    d: &Description,
    ids: &NetworkIds,
    number: usize,
    interface: &Interface,
) -> Result<(), NoMemory>
    requires numbered { AreNetworkIds d.now ids.now }
    requires complete { missing_references d.now ≡ [] }
    requires described { IsTrue (has_subnet d.now interface.now.subnet) }
    ensures { OnOk result (AddsBlocks d.now number interface.now runs.old.items runs.new.items) }
{
    let blocks = interface.prefixes.as_slice();
    if blocks.len() == 0 {
        return Ok(());
    }
    let subnet = subnet_of(d, ids, interface);
    let v = number_of_vpc(d, ids, &subnet.vpc);
    // so many rows don't fit in memory
    if v > u32::MAX as usize {
        return Err(NoMemory);
    }
    let set = AddressSet::of_blocks(alloc, blocks)?;
    add_runs(runs, v as u32, number, set.runs())?;
    Ok(())
}

// The blocks of all interfaces, each with the number of its interface.
fn all_blocks(
    alloc: Global,
    d: &Description,
    ids: &NetworkIds,
) -> Result<Vec<KeyRun<usize>>, NoMemory>
    requires numbered { AreNetworkIds d.now ids.now }
    requires complete { missing_references d.now ≡ [] }
    requires once { duplicate_addresses d.now ≡ [] }
    ensures { IfOk result (λ v. AreBlocks d.now d.now.interfaces v.items) }
{
    let mut runs = Vec::new(alloc);
    for (number, interface) in d.interfaces.as_slice().iter().enumerate() {
        add_blocks(alloc, &mut runs, d, ids, number, interface)?;
    }
    Ok(runs)
}

/// What finds the interface of a VPC that has an address in a delegated block, in a description whose
/// references were checked and in which no address is claimed twice. It takes time n log n.
pub fn blocks_of(
    alloc: Global,
    d: &Description,
    ids: &NetworkIds,
) -> Result<RunTable<usize>, NoMemory>
    requires numbered { AreNetworkIds d.now ids.now }
    requires complete { missing_references d.now ≡ [] }
    requires once { duplicate_addresses d.now ≡ [] }
    ensures { IfOk result (λ t. FindBlocks d.now t) }
{
    let runs = all_blocks(alloc, d, ids)?;
    Ok(RunTable::of(runs))
}
