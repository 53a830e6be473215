// The internet gateway, and the internet behind it.
ghost use Rattle.std.specs.Prelude.{◌≡◌, ◌||◌, if◌then◌else◌, IsTrue, Some};
ghost use Rattle.packet_emulator.specs.Comes.{comes};
ghost use Rattle.vpc_model.specs.Internet.{is_unroutable, owner_of, private_of, public_of};
ghost use Rattle.vpc_model.specs.Sound.{has_gateway, is_vpc};
ghost use Rattle.vpc_model.specs.Step.Internet.{go_private, go_public, to_owner};
ghost use Rattle.vpc_model.specs.Step.Words.{stop};
ghost use Rattle.vpc_model.specs.declared.stops.Stop.TheVariants as stops;

use crate::next::{Next, unless_stopped};
use edge_gateways::unroutable;
use fabric::{Fabric, blocked_at};
use vpc_base::Header;
use vpc_model::{End, EnterBy, Place, Stop, VpcNo};

/// Out by the internet gateway, with the public address as the source, unless public access is blocked (VPC
/// User Guide, "Internet gateways").
pub fn igw_out(f: &Fabric, v: VpcNo, h: &Header) -> Next
    requires { IsTrue (has_gateway f.now v) }
    ensures { comes result ≡ go_public f.now v h.now (public_of f.now v h.now.src) }
{
    let n = f.network();
    match public_at(f, v, h.src) {
        Some(src) => {
            let next = Next::Go(Place::Internet, Header { src, ..*h });
            unless_stopped(blocked_at(f, v, h.src), next)
        }
        None => match n.gateway_of(v) {
            Some(g) => Next::Stop(Stop::NoPublic(g)),
            None => unreachable!(),
        },
    }
}

// The public address of a private one in a VPC.
fn public_at(f: &Fabric, v: VpcNo, own: u32) -> Option<u32>
    requires { IsTrue (is_vpc f.now v) }
    ensures { result ≡ public_of f.now v own }
{
    f.edges().out_addr(v, own)
}

// To the gateway of the VPC that has the destination.
fn to_owner(f: &Fabric, v: VpcNo, h: &Header) -> Next
    requires { IsTrue (is_vpc f.now v) }
    ensures { comes result ≡ to_owner f.now h.now (Some v) }
{
    match f.network().gateway_of(v) {
        Some(_) => Next::Go(Place::IgwIn(v), *h),
        None => Next::Stop(Stop::NoGateway(v)),
    }
}

/// On the internet: to the gateway of the VPC that has the public address, else arrived. It carries no packet
/// from or to an unroutable address.
pub fn internet(f: &Fabric, h: &Header) -> Next
    ensures { comes result ≡ (if is_unroutable h.now.src || is_unroutable h.now.dst
        then stop stops.PrivateAddress else to_owner f.now h.now (owner_of f.now h.now.dst)) }
{
    if unroutable(h.src) || unroutable(h.dst) {
        return Next::Stop(Stop::PrivateAddress);
    }
    let _ = f.network().description();
    match f.edges().in_addr(h.dst) {
        Some((v, _)) => to_owner(f, v, h),
        None => Next::Arrive(End::Internet),
    }
}

// The private address of a public one in the VPC, if it has one there.
fn private_at(f: &Fabric, v: VpcNo, public: u32) -> Option<u32>
    requires { IsTrue (is_vpc f.now v) }
    ensures { result ≡ private_of f.now v public }
{
    let _ = f.network().description();
    match f.edges().in_addr(public) {
        Some((owner, own)) => { if owner.0 == v.0 { Some(own) } else { None } }
        None => None,
    }
}

/// In by the internet gateway, with the private address as the destination, unless public access is blocked.
pub fn igw_in(f: &Fabric, v: VpcNo, h: &Header) -> Next
    requires { IsTrue (has_gateway f.now v) }
    ensures { comes result ≡ go_private f.now v h.now (private_of f.now v h.now.dst) }
{
    let place = Place::Enter(v, EnterBy::Gateway);
    match private_at(f, v, h.dst) {
        Some(dst) => {
            let next = Next::Go(place, Header { dst, ..*h });
            unless_stopped(blocked_at(f, v, dst), next)
        }
        None => Next::Go(place, *h),
    }
}
