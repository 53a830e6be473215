// What Block Public Access stops.
ghost use Rattle.std.specs.Prelude.{◌≡◌, IsTrue};
ghost use Rattle.vpc_model.specs.Sound.{is_eni, is_vpc};
ghost use Rattle.vpc_model.specs.Step.Internet.{blocked, blocked_at, is_blocked};

use crate::Fabric;
use crate::rows::subnet_of;
use vpc_model::{Access, EniNo, Stop, VpcNo};

// The mode of its subnet shuts the interface off from the internet; under ingress mode NAT gateways pass.
fn is_blocked(f: &Fabric, i: EniNo) -> bool
    requires { IsTrue (is_eni f.now i) }
    ensures { result ≡ is_blocked f.now i }
{
    match f.access_of(subnet_of(f, i)) {
        Access::Off => false,
        Access::BlockIngress => f.nat_of(i).is_none(),
        Access::BlockBidirectional => true,
    }
}

/// What stops packets between an interface and the internet (VPC User Guide, "Block public access to VPCs
/// and subnets").
pub fn blocked(f: &Fabric, i: EniNo) -> Option<Stop>
    requires { IsTrue (is_eni f.now i) }
    ensures { result ≡ blocked f.now i }
{
    if is_blocked(f, i) {
        Some(Stop::BlockPublicAccess(f.subnet_of(i)))
    } else {
        None
    }
}

/// What stops packets between the interface of a VPC that has the private address and the internet. It takes
/// no memory.
pub fn blocked_at(f: &Fabric, v: VpcNo, own: u32) -> Option<Stop>
    requires { IsTrue (is_vpc f.now v) }
    ensures { result ≡ blocked_at f.now v own }
{
    match f.network().host(v, own) {
        Some(i) => blocked(f, i),
        None => None,
    }
}
