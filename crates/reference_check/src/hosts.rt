// Interfaces, found by their private addresses.
ghost use Rattle.std.specs.Prelude.{◌≡◌, ◌++◌, ◌<◌, ◌≤◌, ◌^◌, [], IfOk, IfSome, OnOk, length, replicate};
ghost use Rattle.vpc_laws.specs.Hosts.{assigned_host};
ghost use Rattle.vpc_model.specs.Accepted.{IsAccepted, duplicate_addresses, duplicate_ids, missing_references};
ghost use Rattle.reference_check.specs.Delegated.{IsDelegatedUpTo};
ghost use Rattle.reference_check.specs.Hosts.{AreHosts, last_in, numbered, owners_from};
ghost use Rattle.reference_check.specs.Numbered.{AreNetworkIds};
ghost use Rattle.reference_check.specs.Told.{Tells};

use crate::addresses::private_keys;
use crate::delegated::blocks_of;
use crate::directory::NetworkIds;
use crate::numbers::Numbers;
use number_tables::{RunTable, key_of};
use std::alloc::{AllocError, Global};
use vpc_model::{Description, EniNo, Interface, Refusal, VpcNo};

/// The private addresses of all interfaces, and whose they are.
pub struct Hosts {
    /// An assigned address for each, with the number of its VPC.
    pub keys: Numbers,
    /// The numbers of the interfaces, in the same order.
    pub owners: Vec<usize>,
    /// The numbers of the interfaces by the addresses of their delegated blocks.
    pub blocks: RunTable<usize>,
}

impl Drop for Hosts {
    fn drop(self) {
        let Hosts {
            keys,
            owners,
            blocks,
        } = self;
        drop(keys);
        drop(owners);
        drop(blocks);
    }
}

// Adds the number of an interface once for each of its addresses.
fn add_owner(
    owners: &mut Vec<usize>,
    number: usize,
    addresses: &[(u32, Option<u32>)],
) -> Result<(), AllocError>
    ensures { OnOk result (owners.new.items ≡ owners.old.items ++ replicate (length addresses.now) number) }
{
    for _address in addresses {
        owners.push(number)?;
    }
    Ok(())
}

// The number of each address's interface.
fn owners_of(alloc: Global, interfaces: &[Interface]) -> Result<Vec<usize>, AllocError>
    ensures { IfOk result (λ v. v.items ≡ owners_from 0 interfaces.now) }
{
    let mut owners = Vec::new(alloc);
    for (n, interface) in interfaces.iter().enumerate() {
        add_owner(&mut owners, n, interface.addresses.as_slice())?;
    }
    Ok(owners)
}

// The interface with the number, if there is one.
fn numbered(number: Option<usize>) -> Option<EniNo>
    requires { IfSome number (λ n. n < 2 ^ 32) }
    ensures { result ≡ numbered number }
{
    match number {
        Some(n) => Some(EniNo(n as u32)),
        None => None,
    }
}

// The last address of a VPC up to a key, by the first key of the VPC.
fn last_in(first: u64, key: u64) -> u32
    requires { first ≤ key }
    ensures { result ≡ last_in first key }
{
    if key - first < 4_294_967_295 {
        (key - first) as u32
    } else {
        u32::MAX
    }
}

impl Hosts {
    ghost use Rattle.vpc_model.specs.Lookup.{host_of};

    /// No addresses yet.
    pub fn none(alloc: Global) -> Hosts {
        Hosts {
            keys: Numbers::new(alloc),
            owners: Vec::new(alloc),
            blocks: RunTable::of(Vec::new(alloc)),
        }
    }

    /// The private addresses of a description whose references were checked, or the first that is claimed
    /// twice in a VPC.
    pub fn of(alloc: Global, d: &Description, ids: &NetworkIds) -> Result<Hosts, Refusal>
        requires numbered { AreNetworkIds d.now ids.now }
        requires complete { missing_references d.now ≡ [] }
        ensures told { Tells (duplicate_addresses d.now) result }
        ensures hosts { IfOk result (λ h. AreHosts d.now h) }
    {
        let keys = private_keys(alloc, d, ids)?;
        let owners = owners_of(alloc, d.interfaces.as_slice())?;
        let blocks = blocks_of(alloc, d, ids)?;
        Ok(Hosts {
            keys,
            owners,
            blocks,
        })
    }

    // The interface of a VPC to which the address is assigned.
    fn assigned(&self, d: &Description, v: VpcNo, address: u32) -> Option<EniNo>
        requires hosts { AreHosts d.now self.now }
        requires differ { duplicate_ids d.now ≡ [] }
        requires within { v.0 < length d.now.vpcs }
        requires counted { length d.now.interfaces < 2 ^ 32 }
        ensures { result ≡ assigned_host d.now v address }
    {
        let _ = d;
        match self.keys.place(v.0 as u64 * 4_294_967_296 + address as u64) {
            Some(k) => Some(EniNo(self.owners[k] as u32)),
            None => None,
        }
    }

    /// To which interface of a VPC the address is delegated, as one of a block, if it is to any; and the last
    /// address up to which the same holds of all. It reads about log2 n blocks.
    pub fn delegated(&self, d: &Description, v: VpcNo, address: u32) -> (u32, Option<EniNo>)
        requires hosts { AreHosts d.now self.now }
        requires differ { duplicate_ids d.now ≡ [] }
        requires within { v.0 < length d.now.vpcs }
        requires counted { length d.now.interfaces < 2 ^ 32 }
        ensures { IsDelegatedUpTo d.now v address result }
    {
        let _ = d;
        let stretch = self.blocks.stretch(key_of(v.0, address));
        let last = last_in(key_of(v.0, 0), stretch.0);
        (last, numbered(stretch.1))
    }

    /// The interface of a VPC with this private address.
    pub fn host_of(&self, d: &Description, v: VpcNo, address: u32) -> Option<EniNo>
        requires hosts { AreHosts d.now self.now }
        requires accepted { IsAccepted d.now }
        requires within { v.0 < length d.now.vpcs }
        requires counted { length d.now.interfaces < 2 ^ 32 }
        ensures { result ≡ host_of d.now v address }
    {
        match self.assigned(d, v, address) {
            Some(i) => Some(i),
            None => self.delegated(d, v, address).1,
        }
    }
}
