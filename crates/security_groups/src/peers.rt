// VPCs that active peerings join.
ghost use Rattle.std.specs.Prelude.{◌≡◌, ◌<◌, ◌^◌, ◌++◌, IfOk, OnOk, length};
ghost use Rattle.security_groups.specs.Ids.{place_of};
ghost use Rattle.security_groups.specs.NumberKeys.{both_if, both_keys, numbers_if};
ghost use Rattle.security_groups.specs.Naming.{ArePeers};

use crate::ids::IdNumbers;
use number_tables::{NumberSet, key_of};
use reference_check::Network;
use std::alloc::{AllocError, Global};
use vpc_model::{Id, Peering};

// The numbers of two VPCs, where both have one.
fn numbers_of_pair(ids: &IdNumbers, pair: &(Id, Id)) -> Option<(u32, u32)>
    requires { length ids.now < 2 ^ 32 }
    ensures { result ≡ both_if (place_of ids.now pair.now.0) (place_of ids.now pair.now.1) }
{
    let one = ids.number(&pair.0)?;
    let other = ids.number(&pair.1)?;
    Some((one, other))
}

fn numbers_if(ids: &IdNumbers, peering: &Peering) -> Option<(u32, u32)>
    requires { length ids.now < 2 ^ 32 }
    ensures { result ≡ numbers_if ids.now peering.now.pair }
{
    match &peering.pair {
        Some(pair) => numbers_of_pair(ids, pair),
        None => None,
    }
}

// Adds two VPCs in both orders.
fn add_both(keys: &mut Vec<u64>, pair: Option<(u32, u32)>) -> Result<(), AllocError>
    ensures { OnOk result (keys.new.items ≡ keys.old.items ++ both_keys pair) }
{
    match pair {
        Some((one, other)) => {
            keys.push(key_of(one, other))?;
            keys.push(key_of(other, one))?;
            Ok(())
        }
        None => Ok(()),
    }
}

/// The pairs of numbered VPCs that active peerings join, in both orders.
pub fn peers_of(alloc: Global, n: &Network, ids: &IdNumbers) -> Result<NumberSet, AllocError>
    requires { length ids.now < 2 ^ 32 }
    ensures { IfOk result (ArePeers n.now ids.now) }
{
    let mut keys = Vec::new(alloc);
    for peering in n.description().peerings.as_slice() {
        add_both(&mut keys, numbers_if(ids, peering))?;
    }
    Ok(NumberSet::of(keys))
}
