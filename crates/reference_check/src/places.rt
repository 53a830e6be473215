// The subnets of interfaces, and the numbers of their VPCs.
ghost use Rattle.std.specs.Prelude.{◌≡◌, IsTrue};
ghost use Rattle.vpc_model.specs.Lookup.{has_subnet, has_vpc, subnet_at, subnet_no, vpc_no};
ghost use Rattle.reference_check.specs.Numbered.{AreNetworkIds};

use crate::directory::NetworkIds;
use vpc_model::{Description, Id, Interface, Subnet};

/// The subnet of an interface.
pub fn subnet_of<'a>(d: &'a Description, ids: &NetworkIds, interface: &Interface) -> &'a Subnet
    requires numbered { AreNetworkIds d.now ids.now }
    requires described { IsTrue (has_subnet d.now interface.now.subnet) }
    ensures { result.now ≡ subnet_at d.now (subnet_no d.now interface.now.subnet) }
{
    match ids.subnets.number(interface.subnet.bytes()) {
        Some(k) => &d.subnets.as_slice()[k],
        None => unreachable!(),
    }
}

/// The number of a VPC.
pub fn number_of_vpc(d: &Description, ids: &NetworkIds, vpc: &Id) -> usize
    requires numbered { AreNetworkIds d.now ids.now }
    requires described { IsTrue (has_vpc d.now vpc.now) }
    ensures { result ≡ (vpc_no d.now vpc.now).0 }
{
    let _ = d;
    match ids.vpcs.number(vpc.bytes()) {
        Some(v) => v,
        None => unreachable!(),
    }
}
