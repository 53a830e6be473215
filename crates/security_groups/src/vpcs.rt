// The VPCs of groups by numbers.
ghost use Rattle.std.specs.Prelude.{◌≡◌, ◌<◌, ◌^◌, ◌++◌, IfOk, IfSome, OnOk, length};
ghost use Rattle.std.specs.List.{All, AllZip, flat_map, list_any};
ghost use Rattle.security_groups.specs.Ids.{KeepsNumbers, place_of};
ghost use Rattle.security_groups.specs.Members.{number_of};
ghost use Rattle.security_groups.specs.NumberKeys.{key_if};
ghost use Rattle.security_groups.specs.Naming.{HasOwn, HasPlace, HasVpcsOf};

use crate::ids::IdNumbers;
use crate::members::number_of;
use number_tables::{NumberSet, key_of};
use reference_check::Network;
use std::alloc::{AllocError, Global};

/// The VPCs of groups, described or not, by numbers of their own.
pub struct GroupVpcs {
    /// Their ids, in the order of the numbers.
    pub ids: IdNumbers,
    /// The number of each group's own VPC.
    pub own: Vec<u32>,
    /// The keys of groups and of the further VPCs to which they belong.
    pub pairs: NumberSet,
}

impl Drop for GroupVpcs {
    fn drop(self) {
        let GroupVpcs { ids, own, pairs } = self;
        drop(ids);
        drop(own);
        drop(pairs);
    }
}

// The number of each group's own VPC.
fn own_vpcs(alloc: Global, n: &Network, ids: &mut IdNumbers) -> Result<Vec<u32>, AllocError>
    ensures { IfOk result (λ v. AllZip (HasOwn ids.new) n.now.groups v.items) }
{
    let mut own = Vec::new(alloc);
    for group in n.description().groups.as_slice() {
        let vpc = ids.number_or_add(alloc, &group.vpc)?;
        own.push(vpc)?;
    }
    Ok(own)
}

// Numbers the further VPCs of groups.
fn number_further(alloc: Global, n: &Network, ids: &mut IdNumbers) -> Result<(), AllocError>
    ensures kept { OnOk result (KeepsNumbers ids.old ids.new) }
    ensures further { OnOk result (All (HasPlace ids.new) n.now.scope.vpcs) }
{
    for further in n.description().scope.vpcs.as_slice() {
        let _number = ids.number_or_add(alloc, &further.vpc)?;
    }
    Ok(())
}

/// Adds the key of two numbers, where there are both.
pub fn push_key(keys: &mut Vec<u64>, high: Option<u32>, low: Option<u32>) -> Result<(), AllocError>
    ensures { OnOk result (keys.new.items ≡ keys.old.items ++ key_if high low) }
{
    if let Some(high) = high {
        if let Some(low) = low {
            keys.push(key_of(high, low))?;
        }
    }
    Ok(())
}

// The keys of described groups and of their further VPCs.
fn further_keys(alloc: Global, n: &Network, ids: &IdNumbers) -> Result<Vec<u64>, AllocError>
    requires { length ids.now < 2 ^ 32 }
    ensures { IfOk result (λ v. v.items
        ≡ flat_map (λ x. key_if (number_of n.now x.group) (place_of ids.now x.vpc)) n.now.scope.vpcs) }
{
    let mut keys = Vec::new(alloc);
    for further in n.description().scope.vpcs.as_slice() {
        push_key(
            &mut keys,
            number_of(n, &further.group),
            ids.number(&further.vpc),
        )?;
    }
    Ok(keys)
}

impl GroupVpcs {
    /// It takes time n log n in the groups and in their further VPCs.
    pub fn of(alloc: Global, n: &Network) -> Result<GroupVpcs, AllocError>
        ensures { IfOk result (HasVpcsOf n.now) }
    {
        let _ = n.description();
        let mut ids = IdNumbers::none(alloc);
        let own = own_vpcs(alloc, n, &mut ids)?;
        number_further(alloc, n, &mut ids)?;
        if !ids.are_few() {
            return Err(AllocError);
        }
        let pairs = NumberSet::of(further_keys(alloc, n, &ids)?);
        Ok(GroupVpcs { ids, own, pairs })
    }
}
