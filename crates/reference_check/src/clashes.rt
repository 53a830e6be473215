// Addresses of a VPC that are claimed twice, where interfaces have delegated blocks.
ghost use Rattle.std.specs.Prelude.{◌≡◌, ◌≤◌, ◌++◌, ◌∷◌, [], All, IfNone, IfOk, IsTrue, List, OnOk, map, ℕ};
ghost use Rattle.std.specs.List.{flat_map};
ghost use Rattle.number_tables.specs.Keys.{key_of};
ghost use Rattle.address_sets.specs.Runs.{AreRuns, is_in, run_of};
ghost use Rattle.vpc_model.specs.Accepted.{Claim, address_clashes, claims_of, clash_with, duplicate_addresses};
ghost use Rattle.vpc_model.specs.Accepted.{interface_clashes, missing_references};
ghost use Rattle.vpc_model.specs.Lookup.{has_subnet, has_vpc, vpc_no};
ghost use Rattle.reference_check.specs.Claimed.{alone, alone_in, claim_of, own_claims, own_clashes, run_at};
ghost use Rattle.reference_check.specs.Numbered.{AreNetworkIds};
ghost use Rattle.reference_check.specs.Taken.{AreTaken, IsFree, IsLeastClaimed, IsTaken, Takes};
ghost use Rattle.reference_check.specs.Taken.{TellsBeside, TellsBesideBoth};
ghost use Rattle.reference_check.specs.Told.{Tells};

use crate::directory::NetworkIds;
use crate::places::{number_of_vpc, subnet_of};
use crate::taken::Taken;
use address_sets::{AddressSet, Run, run_of};
use number_tables::key_of;
use prefix_text::Prefix;
use std::alloc::{AllocError, Global};
use vpc_model::{Description, Id, Interface, Refusal};

// An address alone.
fn run_at(address: u32) -> Run
    ensures { result ≡ run_at address }
{
    Run {
        first: address,
        last: address,
    }
}

// The least address of a run that is taken in a VPC.
fn least_in(taken: &Taken, d: &Description, vpc: &Id, v: u32, run: Run) -> Option<u32>
    requires numbered { v ≡ (vpc_no d.now vpc.now).0 }
    requires described { IsTrue (has_vpc d.now vpc.now) }
    requires some { run.first ≤ run.last }
    ensures shared { IsLeastClaimed d.now taken.now vpc.now run result }
    ensures free { IfNone result (IsFree taken.now v run) }
{
    let _ = d;
    let _ = vpc;
    match taken.least(key_of(v, run.first), key_of(v, run.last)) {
        Some(key) => Some((key - key_of(v, 0)) as u32),
        None => None,
    }
}

// Refuses a run of which an address is taken.
fn check_run(
    alloc: Global,
    taken: &Taken,
    d: &Description,
    vpc: &Id,
    v: u32,
    run: Run,
) -> Result<(), Refusal>
    requires numbered { v ≡ (vpc_no d.now vpc.now).0 }
    requires described { IsTrue (has_vpc d.now vpc.now) }
    requires some { run.first ≤ run.last }
    ensures told { TellsBeside d.now taken.now (λ claims. clash_with claims (claim_of vpc.now run)) result }
    ensures free { OnOk result (IsFree taken.now v run) }
{
    match least_in(taken, d, vpc, v, run) {
        Some(address) => Err(Refusal::DuplicateAddress(vpc.copied(alloc)?, address)),
        None => Ok(()),
    }
}

// Takes a run that is free.
fn take_run(
    taken: &mut Taken,
    d: &Description,
    vpc: &Id,
    v: u32,
    run: Run,
) -> Result<(), AllocError>
    requires numbered { v ≡ (vpc_no d.now vpc.now).0 }
    requires described { IsTrue (has_vpc d.now vpc.now) }
    requires some { run.first ≤ run.last }
    requires free { IsFree taken.old v run }
    ensures added { (claims : List Claim) → AreTaken d.now claims taken.old
        → OnOk result (AreTaken d.now (claims ++ claim_of vpc.now run ∷ []) taken.new) }
    ensures taken { OnOk result (Takes taken.old (key_of v run.first) (key_of v run.last) taken.new) }
{
    let _ = d;
    let _ = vpc;
    taken.take(key_of(v, run.first), key_of(v, run.last))
}

// Adds an address to those of an interface, which refuses one that is taken or stands among them already.
fn add_own(
    alloc: Global,
    taken: &Taken,
    own: &mut Taken,
    d: &Description,
    vpc: &Id,
    v: u32,
    address: u32,
) -> Result<(), Refusal>
    requires numbered { v ≡ (vpc_no d.now vpc.now).0 }
    requires described { IsTrue (has_vpc d.now vpc.now) }
    ensures told { TellsBesideBoth d.now taken.now own.old
        (λ claims. clash_with claims (alone (vpc.now, address))) result }
    ensures added { (before : List Claim) → AreTaken d.now before own.old
        → OnOk result (AreTaken d.now (before ++ alone (vpc.now, address) ∷ []) own.new) }
    ensures free { OnOk result (IsFree taken.now v (run_at address)) }
{
    let run = run_at(address);
    check_run(alloc, taken, d, vpc, v, run)?;
    check_run(alloc, own, d, vpc, v, run)?;
    take_run(own, d, vpc, v, run)?;
    Ok(())
}

// Refuses the first address of an interface that is taken or stands twice among them.
fn check_addresses(
    alloc: Global,
    taken: &Taken,
    d: &Description,
    vpc: &Id,
    v: u32,
    addresses: &[(u32, Option<u32>)],
) -> Result<(), Refusal>
    requires numbered { v ≡ (vpc_no d.now vpc.now).0 }
    requires described { IsTrue (has_vpc d.now vpc.now) }
    ensures told { TellsBeside d.now taken.now
        (λ claims. address_clashes claims (alone_in vpc.now addresses.now)) result }
    ensures free { OnOk result (All (λ x. IsFree taken.now v (run_at x.0)) addresses.now) }
{
    let mut own = Taken::new(alloc);
    for (address, _) in addresses {
        add_own(alloc, taken, &mut own, d, vpc, v, *address)?;
    }
    Ok(())
}

// Refuses the first block of an interface of which an address is taken.
fn check_blocks(
    alloc: Global,
    taken: &Taken,
    d: &Description,
    vpc: &Id,
    v: u32,
    blocks: &[Prefix],
) -> Result<(), Refusal>
    requires numbered { v ≡ (vpc_no d.now vpc.now).0 }
    requires described { IsTrue (has_vpc d.now vpc.now) }
    ensures told { TellsBeside d.now taken.now
        (λ claims. flat_map (λ b. clash_with claims (claim_of vpc.now (run_of b))) blocks.now) result }
    ensures free { OnOk result (All (λ b. IsFree taken.now v (run_of b)) blocks.now) }
{
    for block in blocks {
        check_run(alloc, taken, d, vpc, v, run_of(block))?;
    }
    Ok(())
}

// The addresses of an interface and its blocks, as runs.
fn own_runs(
    alloc: Global,
    addresses: &[(u32, Option<u32>)],
    blocks: &[Prefix],
) -> Result<Vec<Run>, AllocError>
    ensures { IfOk result (λ v. v.items ≡ map (λ x. run_at x.0) addresses.now ++ map run_of blocks.now) }
{
    let mut runs = Vec::new(alloc);
    for (address, _) in addresses {
        runs.push(run_at(*address))?;
    }
    for block in blocks {
        runs.push(run_of(block))?;
    }
    Ok(runs)
}

// Takes runs that are free.
fn take_runs(
    taken: &mut Taken,
    d: &Description,
    vpc: &Id,
    v: u32,
    runs: &[Run],
) -> Result<(), AllocError>
    requires numbered { v ≡ (vpc_no d.now vpc.now).0 }
    requires described { IsTrue (has_vpc d.now vpc.now) }
    requires apart { AreRuns runs.now }
    requires free { (a : ℕ) → IsTrue (is_in a runs.now) → IsTaken taken.old (key_of v a) → ⊥ }
    ensures { (claims : List Claim) → AreTaken d.now claims taken.old
        → OnOk result (AreTaken d.now (claims ++ map (claim_of vpc.now) runs.now) taken.new) }
{
    for run in runs {
        take_run(taken, d, vpc, v, *run)?;
    }
    Ok(())
}

// Takes the addresses of an interface and its blocks, which are free.
fn take_own(
    alloc: Global,
    taken: &mut Taken,
    d: &Description,
    vpc: &Id,
    v: u32,
    interface: &Interface,
) -> Result<(), AllocError>
    requires numbered { v ≡ (vpc_no d.now vpc.now).0 }
    requires described { IsTrue (has_vpc d.now vpc.now) }
    requires alone { All (λ x. IsFree taken.old v (run_at x.0)) interface.now.addresses }
    requires blocks { All (λ b. IsFree taken.old v (run_of b)) interface.now.prefixes }
    ensures { (claims : List Claim) → AreTaken d.now claims taken.old
        → OnOk result (AreTaken d.now (claims ++ own_claims vpc.now interface.now) taken.new) }
{
    let runs = own_runs(
        alloc,
        interface.addresses.as_slice(),
        interface.prefixes.as_slice(),
    )?;
    let set = AddressSet::of(alloc, runs)?;
    take_runs(taken, d, vpc, v, set.runs())
}

// Takes what an interface of a VPC claims, or refuses the first address that is claimed already.
fn claim_own(
    alloc: Global,
    taken: &mut Taken,
    d: &Description,
    vpc: &Id,
    v: u32,
    interface: &Interface,
) -> Result<(), Refusal>
    requires numbered { v ≡ (vpc_no d.now vpc.now).0 }
    requires described { IsTrue (has_vpc d.now vpc.now) }
    ensures told { TellsBeside d.now taken.old (λ claims. own_clashes claims vpc.now interface.now) result }
    ensures added { (claims : List Claim) → AreTaken d.now claims taken.old
        → OnOk result (AreTaken d.now (claims ++ own_claims vpc.now interface.now) taken.new) }
{
    check_addresses(alloc, taken, d, vpc, v, interface.addresses.as_slice())?;
    check_blocks(alloc, taken, d, vpc, v, interface.prefixes.as_slice())?;
    take_own(alloc, taken, d, vpc, v, interface)?;
    Ok(())
}

// Takes what an interface claims, or refuses the first address that is claimed already.
fn claim_interface(
    alloc: Global,
    taken: &mut Taken,
    d: &Description,
    ids: &NetworkIds,
    interface: &Interface,
) -> Result<(), Refusal>
    requires numbered { AreNetworkIds d.now ids.now }
    requires complete { missing_references d.now ≡ [] }
    requires described { IsTrue (has_subnet d.now interface.now.subnet) }
    ensures told { TellsBeside d.now taken.old
        (λ claims. interface_clashes d.now claims interface.now) result }
    ensures added { (claims : List Claim) → AreTaken d.now claims taken.old
        → OnOk result (AreTaken d.now (claims ++ claims_of d.now interface.now) taken.new) }
{
    let subnet = subnet_of(d, ids, interface);
    let v = number_of_vpc(d, ids, &subnet.vpc);
    // so many rows don't fit in memory
    if v > u32::MAX as usize {
        return Err(Refusal::Memory);
    }
    claim_own(alloc, taken, d, &subnet.vpc, v as u32, interface)
}

/// The first address of a VPC that is claimed twice: by two interfaces, or as two addresses of one. The
/// references of the description were checked. It takes time n log n.
pub fn check_claims(alloc: Global, d: &Description, ids: &NetworkIds) -> Result<(), Refusal>
    requires numbered { AreNetworkIds d.now ids.now }
    requires complete { missing_references d.now ≡ [] }
    ensures { Tells (duplicate_addresses d.now) result }
{
    let mut taken = Taken::new(alloc);
    for interface in d.interfaces.as_slice() {
        claim_interface(alloc, &mut taken, d, ids, interface)?;
    }
    Ok(())
}
