// From subnet to subnet, and to an interface: what has no place of its own.
ghost use Rattle.std.specs.Prelude.{◌≡◌, IsTrue};
ghost use Rattle.packet_emulator.specs.Comes.{comes};
ghost use Rattle.vpc_model.specs.Sound.{is_eni, is_subnet};
ghost use Rattle.vpc_model.specs.Step.Crossing.{crossing, deliver, entering, is_gateway, leaving};

use crate::next::Next;
use fabric::Fabric;
use fabric::rows::interface_at;
use vpc_base::{Dir, Header};
use vpc_model::{EniNo, InterfaceKind, Place, Stop, SubnetNo};

/// The stop of a packet that leaves the subnet, where its ACL refuses it (VPC User Guide, "Network ACLs").
pub fn leaving(f: &Fabric, s: SubnetNo, h: &Header) -> Option<Stop>
    requires { IsTrue (is_subnet f.now s) }
    ensures { result ≡ leaving f.now s h.now }
{
    let n = f.network();
    let _ = n.description();
    let a = n.acl_of(s);
    match f.acl(a).decide(Dir::Outward, h) {
        (true, _) => None,
        (false, rule) => Some(Stop::AclOut(a, rule)),
    }
}

/// The stop of a packet that enters the subnet, where its ACL refuses it (VPC User Guide, "Network ACLs").
pub fn entering(f: &Fabric, s: SubnetNo, h: &Header) -> Option<Stop>
    requires { IsTrue (is_subnet f.now s) }
    ensures { result ≡ entering f.now s h.now }
{
    let n = f.network();
    let _ = n.description();
    let a = n.acl_of(s);
    match f.acl(a).decide(Dir::Inward, h) {
        (true, _) => None,
        (false, rule) => Some(Stop::AclIn(a, rule)),
    }
}

/// The stop of a packet that goes from one subnet to another; inside one subnet no ACL is evaluated.
pub fn crossing(f: &Fabric, s: SubnetNo, t: SubnetNo, h: &Header) -> Option<Stop>
    requires from { IsTrue (is_subnet f.now s) }
    requires to { IsTrue (is_subnet f.now t) }
    ensures { result ≡ crossing f.now s t h.now }
{
    if s.0 == t.0 {
        return None;
    }
    match leaving(f, s, h) {
        Some(stop) => Some(stop),
        None => entering(f, t, h),
    }
}

/// Whether an interface belongs to a gateway.
pub fn is_gateway(kind: InterfaceKind) -> bool
    ensures { result ≡ is_gateway kind }
{
    match kind {
        InterfaceKind::Host => false,
        InterfaceKind::Gateway => true,
    }
}

/// A packet is delivered to an interface, or to the NAT gateway whose interface it is.
pub fn deliver(f: &Fabric, i: EniNo, h: &Header) -> Next
    requires { IsTrue (is_eni f.now i) }
    ensures { comes result ≡ deliver f.now i h.now }
{
    match f.nat_of(i) {
        Some(n) => Next::Go(Place::NatIn(n), *h),
        None => {
            if is_gateway(interface_at(f, i).kind) {
                Next::Stop(Stop::NotAHost(i))
            } else {
                Next::Go(Place::Into(i), *h)
            }
        }
    }
}
