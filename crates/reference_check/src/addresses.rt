// Addresses that stand twice, and the interfaces that have them.
ghost use Rattle.std.specs.Prelude.{◌≡◌, ◌==◌, ◌++◌, ◌∷◌, [], IfOk, IsTrue, List, OnOk, map, not, ℕ};
ghost use Rattle.std.specs.List.{filter_map, flat_map, list_any};
ghost use Rattle.vpc_model.specs.Accepted.{duplicate_addresses, duplicate_publics, missing_references, private_addresses, repeats, repeats_after, same_address};
ghost use Rattle.vpc_model.specs.Lookup.{has_subnet, has_vpc, vpc_no};
ghost use Rattle.vpc_model.specs.declared.refusals.Refusal.TheVariants.{DuplicatePublic};
ghost use Rattle.reference_check.specs.Claimed.{has_prefixes};
ghost use Rattle.reference_check.specs.Keys.{AreKeys, addresses_in, addresses_of, twice};
ghost use Rattle.reference_check.specs.Numbered.{AreNetworkIds};
ghost use Rattle.reference_check.specs.Told.{Tells};

use crate::clashes::check_claims;
use crate::directory::NetworkIds;
use crate::numbers::Numbers;
use crate::places::{number_of_vpc, subnet_of};
use std::alloc::{AllocError, Global};
use vpc_model::{Description, Id, Interface, Refusal};

// Adds the public addresses of an interface.
fn add_publics(publics: &mut Numbers, addresses: &[(u32, Option<u32>)]) -> Result<(), Refusal>
    ensures told { Tells (map DuplicatePublic
        (repeats_after (λ a b. a == b) publics.old (filter_map (λ x. x.1) addresses.now))) result }
    ensures added { OnOk result (publics.new ≡ publics.old ++ filter_map (λ x. x.1) addresses.now) }
{
    for (_, public) in addresses {
        if let Some(public) = public {
            if !publics.add(*public as u64)? {
                return Err(Refusal::DuplicatePublic(*public));
            }
        }
    }
    Ok(())
}

/// The first public address that stands twice among all of them.
pub fn duplicate_publics(alloc: Global, d: &Description) -> Result<(), Refusal>
    ensures { Tells (duplicate_publics d.now) result }
{
    let mut publics = Numbers::new(alloc);
    for interface in d.interfaces.as_slice() {
        add_publics(&mut publics, interface.addresses.as_slice())?;
    }
    Ok(())
}

// Adds a private address of a VPC, and tells whether it is new.
fn add_address(
    keys: &mut Numbers,
    d: &Description,
    vpc: &Id,
    v: u32,
    address: u32,
) -> Result<bool, AllocError>
    requires numbered { v ≡ (vpc_no d.now vpc.now).0 }
    requires described { IsTrue (has_vpc d.now vpc.now) }
    ensures fresh { (earlier : List (List ℕ × ℕ)) → AreKeys d.now earlier keys.old
        → IfOk result (λ b. b ≡ not (list_any (same_address (vpc.now, address)) earlier)) }
    ensures added { (earlier : List (List ℕ × ℕ)) → AreKeys d.now earlier keys.old
        → IfOk result (λ b. IsTrue b → AreKeys d.now (earlier ++ (vpc.now, address) ∷ []) keys.new) }
{
    let _ = d;
    let _ = vpc;
    keys.add(v as u64 * 4_294_967_296 + address as u64)
}

// Adds the private addresses of an interface.
fn add_addresses(
    alloc: Global,
    keys: &mut Numbers,
    d: &Description,
    vpc: &Id,
    v: u32,
    addresses: &[(u32, Option<u32>)],
) -> Result<(), Refusal>
    requires numbered { v ≡ (vpc_no d.now vpc.now).0 }
    requires described { IsTrue (has_vpc d.now vpc.now) }
    ensures told { (earlier : List (List ℕ × ℕ)) → AreKeys d.now earlier keys.old
        → Tells (map twice (repeats_after same_address earlier (addresses_in vpc.now addresses.now))) result }
    ensures added { (earlier : List (List ℕ × ℕ)) → AreKeys d.now earlier keys.old
        → OnOk result (AreKeys d.now (earlier ++ addresses_in vpc.now addresses.now) keys.new) }
{
    for (address, _) in addresses {
        if !add_address(keys, d, vpc, v, *address)? {
            return Err(Refusal::DuplicateAddress(vpc.copied(alloc)?, *address));
        }
    }
    Ok(())
}

// Adds the private addresses of an interface in its VPC.
fn add_interface(
    alloc: Global,
    keys: &mut Numbers,
    d: &Description,
    ids: &NetworkIds,
    interface: &Interface,
) -> Result<(), Refusal>
    requires numbered { AreNetworkIds d.now ids.now }
    requires complete { missing_references d.now ≡ [] }
    requires described { IsTrue (has_subnet d.now interface.now.subnet) }
    ensures told { (earlier : List (List ℕ × ℕ)) → AreKeys d.now earlier keys.old
        → Tells (map twice (repeats_after same_address earlier (addresses_of d.now interface.now))) result }
    ensures added { (earlier : List (List ℕ × ℕ)) → AreKeys d.now earlier keys.old
        → OnOk result (AreKeys d.now (earlier ++ addresses_of d.now interface.now) keys.new) }
{
    let subnet = subnet_of(d, ids, interface);
    let v = number_of_vpc(d, ids, &subnet.vpc);
    // so many rows don't fit in memory
    if v > u32::MAX as usize {
        return Err(Refusal::Memory);
    }
    add_addresses(
        alloc,
        keys,
        d,
        &subnet.vpc,
        v as u32,
        interface.addresses.as_slice(),
    )
}

// The keys of all assigned addresses, or the first that stands twice in a VPC.
fn assigned_keys(alloc: Global, d: &Description, ids: &NetworkIds) -> Result<Numbers, Refusal>
    requires numbered { AreNetworkIds d.now ids.now }
    requires complete { missing_references d.now ≡ [] }
    ensures told { Tells (map twice (repeats same_address (private_addresses d.now))) result }
    ensures keys { IfOk result (λ keys. AreKeys d.now (private_addresses d.now) keys) }
{
    let mut keys = Numbers::new(alloc);
    for interface in d.interfaces.as_slice() {
        add_interface(alloc, &mut keys, d, ids, interface)?;
    }
    Ok(keys)
}

// Whether an interface has a delegated block.
fn has_prefixes(d: &Description) -> bool
    ensures { result ≡ has_prefixes d.now }
{
    d.interfaces
        .as_slice()
        .iter()
        .any(|e| e.prefixes.as_slice().len() > 0)
}

// The same keys, or the first address that is claimed twice in a VPC.
fn checked_keys(alloc: Global, d: &Description, ids: &NetworkIds) -> Result<Numbers, Refusal>
    requires numbered { AreNetworkIds d.now ids.now }
    requires complete { missing_references d.now ≡ [] }
    ensures told { Tells (duplicate_addresses d.now) result }
    ensures keys { IfOk result (λ keys. AreKeys d.now (private_addresses d.now) keys) }
{
    check_claims(alloc, d, ids)?;
    assigned_keys(alloc, d, ids)
}

/// The keys of all assigned addresses, or the first address that is claimed twice in a VPC. The references of
/// the description were checked.
pub fn private_keys(alloc: Global, d: &Description, ids: &NetworkIds) -> Result<Numbers, Refusal>
    requires numbered { AreNetworkIds d.now ids.now }
    requires complete { missing_references d.now ≡ [] }
    ensures told { Tells (duplicate_addresses d.now) result }
    ensures keys { IfOk result (λ keys. AreKeys d.now (private_addresses d.now) keys) }
{
    if has_prefixes(d) {
        checked_keys(alloc, d, ids)
    } else {
        assigned_keys(alloc, d, ids)
    }
}
