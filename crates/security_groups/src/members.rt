// The groups of interfaces, and the members of groups.
ghost use Rattle.std.specs.Prelude.{◌≡◌, ◌<◌, ◌^◌, ◌++◌, ◌∷◌, [], IfOk, OnOk, map, option_to_list};
ghost use Rattle.std.specs.List.{filter_map};
ghost use Rattle.security_groups.specs.Members.{AreFit, AreMore, HasGroupsOf, HasMembersOf, groups_with, key_with, keys_with, number_of};

use crate::delegated::{add_to_each, no_blocks, sets_of};
use crate::once::once;
use address_sets::AddressSet;
use number_tables::{NumberSet, key_of};
use prefix_text::Prefix;
use reference_check::Network;
use std::alloc::{AllocError, Global};
use std::marker::Model;
use vpc_base::OwnList;
use vpc_model::{Id, Interface};

/// Adds a number where there is one.
pub fn push_some(numbers: &mut Vec<u32>, number: Option<u32>) -> Result<(), AllocError>
    ensures { OnOk result (numbers.new.items ≡ numbers.old.items ++ option_to_list number) }
{
    match number {
        Some(number) => {
            numbers.push(number)?;
            Ok(())
        }
        None => Ok(()),
    }
}

/// The number of a described group.
pub fn number_of(n: &Network, id: &Id) -> Option<u32>
    ensures { result ≡ number_of n.now id.now }
{
    match n.group(id.bytes()) {
        Some(group) => Some(group.0),
        None => None,
    }
}

// The numbers of the described groups among these.
fn group_numbers(alloc: Global, n: &Network, ids: &[Id]) -> Result<Vec<u32>, AllocError>
    ensures { IfOk result (λ v. v.items ≡ filter_map (number_of n.now) ids.now) }
{
    let mut numbers = Vec::new(alloc);
    for id in ids {
        push_some(&mut numbers, number_of(n, id))?;
    }
    Ok(numbers)
}

// The groups of an interface, each once.
fn groups_with(
    alloc: Global,
    n: &Network,
    interface: &Interface,
) -> Result<OwnList<u32>, AllocError>
    ensures { IfOk result (λ v. v ≡ groups_with n.now interface.now) }
{
    let numbers = group_numbers(alloc, n, interface.groups.as_slice())?;
    let kept = once(alloc, numbers.as_slice())?;
    Ok(OwnList::of(kept))
}

// Adds an address as a member of some groups.
fn add_member(keys: &mut Vec<u64>, groups: &[u32], address: u32) -> Result<(), AllocError>
    ensures added { OnOk result
        (keys.new.items ≡ keys.old.items ++ map (key_with address) groups.now) }
    ensures fits { address < 2 ^ 32 }
{
    for group in groups {
        keys.push(key_of(*group, address))?;
    }
    Ok(())
}

// Adds addresses as members of some groups.
fn add_members(
    keys: &mut Vec<u64>,
    groups: &[u32],
    addresses: &[(u32, Option<u32>)],
) -> Result<(), AllocError>
    ensures added { OnOk result
        (keys.new.items ≡ keys.old.items ++ keys_with groups.now addresses.now) }
    ensures fit { OnOk result (AreFit addresses.now) }
{
    for address in addresses {
        add_member(keys, groups, address.0)?;
    }
    Ok(())
}

// Adds the groups of an interface, its addresses as their members, and its blocks to those of each.
fn add_interface(
    alloc: Global,
    n: &Network,
    interface: &Interface,
    interfaces: &mut Vec<OwnList<u32>>,
    keys: &mut Vec<u64>,
    blocks: &mut Vec<Vec<Prefix>>,
) -> Result<(), AllocError>
    ensures named { OnOk result
        (interfaces.new.items ≡ interfaces.old.items ++ groups_with n.now interface.now ∷ []) }
    ensures added { OnOk result (keys.new.items
        ≡ keys.old.items ++ keys_with (groups_with n.now interface.now) interface.now.addresses) }
    ensures fit { OnOk result (AreFit interface.now.addresses) }
    ensures delegated { OnOk result (AreMore (map (λ b. b.items) blocks.old.items)
        (map (λ b. b.items) blocks.new.items) (groups_with n.now interface.now) interface.now.prefixes) }
{
    let groups = groups_with(alloc, n, interface)?;
    add_members(keys, groups.as_slice(), interface.addresses.as_slice())?;
    add_to_each(blocks, groups.as_slice(), interface.prefixes.as_slice())?;
    interfaces.push(groups)?;
    Ok(())
}

/// The members of groups: the keys of the groups and of the private addresses that are assigned to the interfaces that have them, and
/// for each described group the addresses of the blocks that are delegated to these. Contracts see both.
pub struct Members {
    keys: NumberSet,
    blocks: Vec<AddressSet>,
}

impl Drop for Members {
    fn drop(self) {
        let Members { keys, blocks } = self;
        drop(keys);
        drop(blocks);
    }
}

impl Model for Members {
    ghost use Rattle.security_groups.specs.Members.{MemberSets};

    ghost Value = { MemberSets };

    ghost view = { λ m. record { keys = m.keys; blocks = m.blocks.items } };
}

impl Members {
    ghost use Rattle.std.specs.Prelude.{◌≡◌};

    /// The keys of groups and assigned addresses.
    pub fn keys(&self) -> &NumberSet
        ensures { result.now ≡ self.now.keys }
    {
        &self.keys
    }

    /// The addresses of each group's blocks.
    pub fn blocks(&self) -> &[AddressSet]
        ensures { result.now ≡ self.now.blocks }
    {
        self.blocks.as_slice()
    }
}

/// The groups of each interface, by their numbers, each once; and the private addresses of the interfaces that
/// have each group, as its members.
pub struct Membership {
    pub interfaces: Vec<OwnList<u32>>,
    pub members: Members,
}

impl Drop for Membership {
    fn drop(self) {
        let Membership {
            interfaces,
            members,
        } = self;
        drop(interfaces);
        drop(members);
    }
}

impl Membership {
    pub fn of(alloc: Global, n: &Network) -> Result<Membership, AllocError>
        ensures groups { IfOk result (λ m. HasGroupsOf n.now m.interfaces.items) }
        ensures members { IfOk result (λ m. HasMembersOf n.now m.members) }
    {
        let mut interfaces = Vec::new(alloc);
        let mut keys = Vec::new(alloc);
        let mut delegated = no_blocks(alloc, n.description().groups.as_slice())?;
        for interface in n.description().interfaces.as_slice() {
            add_interface(
                alloc,
                n,
                interface,
                &mut interfaces,
                &mut keys,
                &mut delegated,
            )?;
        }
        let blocks = sets_of(alloc, delegated.as_slice())?;
        let keys = NumberSet::of(keys);
        let members = Members { keys, blocks };
        Ok(Membership {
            interfaces,
            members,
        })
    }
}
