// Which groups rules may name.
ghost use Rattle.std.specs.Prelude.{◌<◌, ◌≡◌, [], IfOk, length, slice_index_or};
ghost use Rattle.std.specs.List.{list_any};
ghost use Rattle.vpc_model.specs.Groups.{may_name, vpcs_of_group};
ghost use Rattle.vpc_model.specs.Lookup.{group_at};
ghost use Rattle.security_groups.specs.Naming.{IsNaming, IsVpcNumber, TellsOfGroup, TellsOfVpcs, further_of, over_transit};

use crate::attached::Attached;
use crate::peers::peers_of;
use crate::sharing::{any_shares, share};
use crate::transit::attached_of;
use crate::vpcs::GroupVpcs;
use number_tables::{NumberSet, key_of};
use reference_check::Network;
use std::alloc::{AllocError, Global};
use vpc_base::Dir;

/// The VPCs of groups, and which of them are peered or joined by transit gateways.
pub struct Naming {
    pub vpcs: GroupVpcs,
    pub peers: NumberSet,
    pub attached: Attached,
}

impl Drop for Naming {
    fn drop(self) {
        let Naming {
            vpcs,
            peers,
            attached,
        } = self;
        drop(vpcs);
        drop(peers);
        drop(attached);
    }
}

impl Naming {
    pub fn of(alloc: Global, n: &Network) -> Result<Naming, AllocError>
        ensures { IfOk result (IsNaming n.now) }
    {
        let vpcs = GroupVpcs::of(alloc, n)?;
        let peers = peers_of(alloc, n, &vpcs.ids)?;
        let attached = attached_of(alloc, n, &vpcs.ids)?;
        Ok(Naming {
            vpcs,
            peers,
            attached,
        })
    }
}

// Whether inward rules that count in a VPC may name groups of another one over a transit gateway.
fn over_transit(named: &Naming, dir: Dir, vpc: u32, own: u32) -> bool
    ensures { TellsOfVpcs (over_transit dir) named.now vpc own result }
{
    match dir {
        Dir::Inward => named.attached.share(own, vpc),
        Dir::Outward => false,
    }
}

// Whether rules that count in a VPC may name groups of another one.
fn may_name_in(named: &Naming, dir: Dir, vpc: u32, own: u32) -> bool
    ensures { TellsOfVpcs (λ d. may_name d dir) named.now vpc own result }
{
    own == vpc || (named.peers.has(key_of(own, vpc)) || over_transit(named, dir, vpc, own))
}

// Whether inward rules that count in a VPC may name a group over a transit gateway of a further VPC.
fn over_further_transit(named: &Naming, dir: Dir, vpc: u32, group: u32) -> bool
    ensures { TellsOfGroup (over_transit dir) further_of named.now vpc group result }
{
    match dir {
        Dir::Inward => any_shares(&named.vpcs.pairs, group, named.attached.keys(), vpc),
        Dir::Outward => false,
    }
}

// Whether rules that count in a VPC may name a group for one of its further VPCs.
fn may_name_further(named: &Naming, dir: Dir, vpc: u32, group: u32) -> bool
    ensures { TellsOfGroup (λ d. may_name d dir) further_of named.now vpc group result }
{
    let pairs = &named.vpcs.pairs;
    pairs.has(key_of(group, vpc))
        || (share(&named.peers, vpc, pairs, group) || over_further_transit(named, dir, vpc, group))
}

/// Whether rules that count in a VPC may name a group. For each further VPC of the group the transit gateways of both are gone through
/// at once, no longer than those of the one that has fewer.
pub fn may_name(n: &Network, named: &Naming, dir: Dir, vpc: u32, group: u32) -> bool
    requires naming { IsNaming n.now named.now }
    requires vpc { IsVpcNumber named.now.vpcs.ids vpc }
    requires group { group < length n.now.groups }
    ensures { let g = group_at n.now (record { 0 = group }) in
        result ≡ list_any (may_name n.now dir (slice_index_or named.now.vpcs.ids vpc []))
        (vpcs_of_group n.now g) }
{
    let _ = n;
    let own = named.vpcs.own.as_slice()[group as usize];
    may_name_in(named, dir, vpc, own) || may_name_further(named, dir, vpc, group)
}
