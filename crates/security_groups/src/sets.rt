// Which sets of rules interfaces have.
ghost use Rattle.std.specs.Prelude.{◌+◌, ◌<◌, ◌≡◌, Contains, IfOk, OnOk, length};
ghost use Rattle.vpc_model.specs.Lookup.{vpc_of_interface};
ghost use Rattle.security_groups.specs.Members.{HasGroupsOf, groups_with};
ghost use Rattle.security_groups.specs.Naming.{HasVpcsOf};
ghost use Rattle.security_groups.specs.Sets.{AreSetKeys, AreSetsFor, AreSetsOf, CountsAt, IsSetFor, KeepsSets};

use crate::vpcs::GroupVpcs;
use indexmap::IndexSet;
use number_tables::key_of;
use reference_check::Network;
use std::alloc::{AllocError, Global};
use std::marker::Model;
use vpc_base::OwnList;
use vpc_model::{Id, Interface};

/// Groups in further VPCs, where interfaces have them: a set of rules for each. Contracts see the numbers of
/// the groups and of the VPCs.
pub struct FurtherSets {
    keys: IndexSet<(u32, u32)>,
}

impl Drop for FurtherSets {
    fn drop(self) {
        let FurtherSets { keys } = self;
        drop(keys);
    }
}

impl Model for FurtherSets {
    ghost use Rattle.std.specs.Prelude.{List, ℕ};

    ghost Value = { List (ℕ × ℕ) };

    ghost view = { λ s. s.keys.keys };
}

impl FurtherSets {
    ghost use Rattle.std.specs.Prelude.{[], Some, slice_get, slice_index_or};
    ghost use Rattle.security_groups.specs.Sets.{IsSetAdded};

    pub fn none(alloc: Global) -> FurtherSets
        ensures { result ≡ [] }
    {
        FurtherSets {
            keys: IndexSet::new(alloc),
        }
    }

    // The place of a group in a VPC, which is added at the end where it is new.
    fn place(&mut self, group: u32, vpc: u32) -> Result<usize, AllocError>
        ensures added { OnOk result (IsSetAdded self.old (group, vpc) self.new) }
        ensures place { IfOk result (λ k. slice_get self.new k ≡ Some (group, vpc)) }
    {
        let (place, _is_new) = self.keys.insert_full((group, vpc))?;
        Ok(place)
    }

    pub fn len(&self) -> usize
        ensures { result ≡ length self.now }
    {
        self.keys.len()
    }

    /// The numbers of a group and of a VPC.
    pub fn at(&self, place: usize) -> (u32, u32)
        requires { place < length self.now }
        ensures { result ≡ slice_index_or self.now place (0, 0) }
    {
        match self.keys.get_index(place) {
            Some(key) => *key,
            None => (0, 0),
        }
    }
}

// The VPC of an interface's subnet.
fn vpc_of<'a>(n: &'a Network, interface: &Interface) -> &'a Id
    requires { Contains n.now.interfaces interface.now }
    ensures { result.now ≡ vpc_of_interface n.now interface.now }
{
    let _ = n.description();
    let subnet = n.subnet_named(&interface.subnet);
    &n.subnet_at(subnet).vpc
}

// The further VPC of a group in which its rules count for an interface; none for its own.
fn further_vpc(n: &Network, vpcs: &GroupVpcs, interface: &Interface, group: u32) -> Option<u32>
    requires vpcs { HasVpcsOf n.now vpcs.now }
    requires described { Contains n.now.interfaces interface.now }
    requires group { group < length n.now.groups }
    ensures { CountsAt n.now vpcs.now.ids interface.now group result }
{
    let Some(vpc) = vpcs.ids.number(vpc_of(n, interface)) else {
        return None;
    };
    if vpc == vpcs.own.as_slice()[group as usize] {
        return None;
    }
    if !vpcs.pairs.has(key_of(group, vpc)) {
        return None;
    }
    Some(vpc)
}

// The number of a further set, after those of the groups. Numbers of more than 32 bits don't fit in any
// memory.
fn after(groups: usize, place: usize) -> Result<u32, AllocError>
    ensures { IfOk result (λ s. s ≡ groups + place) }
{
    if groups > u32::MAX as usize || place > u32::MAX as usize - groups {
        return Err(AllocError);
    }
    Ok((groups + place) as u32)
}

// The set of rules that a group has for an interface.
fn set_of(
    n: &Network,
    vpcs: &GroupVpcs,
    further: &mut FurtherSets,
    interface: &Interface,
    group: u32,
) -> Result<u32, AllocError>
    requires vpcs { HasVpcsOf n.now vpcs.now }
    requires described { Contains n.now.interfaces interface.now }
    requires group { group < length n.now.groups }
    requires keys { AreSetKeys n.now vpcs.now.ids further.old }
    ensures kept { OnOk result (KeepsSets further.old further.new) }
    ensures keys { OnOk result (AreSetKeys n.now vpcs.now.ids further.new) }
    ensures set { IfOk result (IsSetFor n.now vpcs.now.ids further.new interface.now group) }
{
    match further_vpc(n, vpcs, interface, group) {
        Some(vpc) => {
            let place = further.place(group, vpc)?;
            let set = after(n.description().groups.as_slice().len(), place)?;
            Ok(set)
        }
        None => Ok(group),
    }
}

// The sets of rules that groups have for an interface.
fn sets_of(
    alloc: Global,
    n: &Network,
    vpcs: &GroupVpcs,
    further: &mut FurtherSets,
    interface: &Interface,
    groups: &[u32],
) -> Result<OwnList<u32>, AllocError>
    requires vpcs { HasVpcsOf n.now vpcs.now }
    requires described { Contains n.now.interfaces interface.now }
    requires groups { groups.now ≡ groups_with n.now interface.now }
    requires keys { AreSetKeys n.now vpcs.now.ids further.old }
    ensures kept { OnOk result (KeepsSets further.old further.new) }
    ensures keys { OnOk result (AreSetKeys n.now vpcs.now.ids further.new) }
    ensures sets { IfOk result
        (AreSetsOf n.now vpcs.now.ids further.new interface.now groups.now) }
{
    let mut sets = Vec::new(alloc);
    for group in groups {
        let set = set_of(n, vpcs, further, interface, *group)?;
        sets.push(set)?;
    }
    Ok(OwnList::of(sets))
}

// The sets of rules that each interface's groups have for it.
fn sets_of_each(
    alloc: Global,
    n: &Network,
    vpcs: &GroupVpcs,
    further: &mut FurtherSets,
    interfaces: &[OwnList<u32>],
) -> Result<Vec<OwnList<u32>>, AllocError>
    requires vpcs { HasVpcsOf n.now vpcs.now }
    requires groups { HasGroupsOf n.now interfaces.now }
    requires keys { AreSetKeys n.now vpcs.now.ids further.old }
    ensures keys { OnOk result (AreSetKeys n.now vpcs.now.ids further.new) }
    ensures sets { IfOk result (λ v. AreSetsFor n.now vpcs.now.ids further.new v.items) }
{
    let mut all = Vec::new(alloc);
    for (k, interface) in n.description().interfaces.as_slice().iter().enumerate() {
        let sets = sets_of(alloc, n, vpcs, further, interface, interfaces[k].as_slice())?;
        all.push(sets)?;
    }
    Ok(all)
}

/// Puts sets of rules in place of each interface's groups. Where no group has a further VPC, they have the
/// same numbers.
pub fn place_all(
    alloc: Global,
    n: &Network,
    vpcs: &GroupVpcs,
    further: &mut FurtherSets,
    interfaces: &mut Vec<OwnList<u32>>,
) -> Result<(), AllocError>
    requires vpcs { HasVpcsOf n.now vpcs.now }
    requires groups { HasGroupsOf n.now interfaces.old.items }
    requires keys { AreSetKeys n.now vpcs.now.ids further.old }
    ensures keys { OnOk result (AreSetKeys n.now vpcs.now.ids further.new) }
    ensures sets { OnOk result (AreSetsFor n.now vpcs.now.ids further.new interfaces.new.items) }
{
    if n.description().scope.vpcs.as_slice().len() == 0 {
        return Ok(());
    }
    let all = sets_of_each(alloc, n, vpcs, further, interfaces.as_slice())?;
    *interfaces = all;
    Ok(())
}
