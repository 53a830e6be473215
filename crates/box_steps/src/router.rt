// From the implicit router of a subnet, by the target of the chosen route.
ghost use Rattle.std.specs.Prelude.{◌≡◌, IfSome, IsTrue, Some};
ghost use Rattle.box_images.specs.Answers.{Answers};
ghost use Rattle.box_images.specs.Images.{IsImageOfWalk, IsValidImage, header_at};
ghost use Rattle.box_steps.specs.Cuts.{AtPlace, Standing};
ghost use Rattle.box_steps.specs.Onward.{onward_of};
ghost use Rattle.fabric.specs.Targets.{route_at};
ghost use Rattle.vpc_laws.specs.Accepted.{HasTarget};
ghost use Rattle.vpc_model.specs.Far.{far_end_of_id, far_of_id};
ghost use Rattle.vpc_model.specs.Firewalls.{firewall_of};
ghost use Rattle.vpc_model.specs.Lookup.{far_at, host_of, nat_at, peering_at, table_at, table_of, vpc_of_subnet};
ghost use Rattle.vpc_model.specs.Routes.{chosen_route};
ghost use Rattle.vpc_model.specs.Sound.{is_eni, is_far, is_nat, is_peering, is_route, is_subnet, is_vpc};
ghost use Rattle.vpc_model.specs.Step.Router as model;
ghost use Rattle.vpc_model.specs.Transit.{attachment_for};
ghost use Rattle.vpc_model.specs.declared.places.Came.{Came};
ghost use Rattle.vpc_model.specs.declared.places.Place.TheVariants as places;

use crate::choosing::route_on;
use crate::crossing::{between_on, crossing_on, deliver_to, into_host, leaving_on};
use crate::hosts::host_on;
use crate::onward::{Onward, stopped, unless_stopped_on};
use box_images::{Image, Part};
use fabric::Fabric;
use fabric::rows::{far_at, far_vpc, nat_at, nat_subnet, peering_at, route_at, subnet_of, vpc_of};
use transit_gateway::EnterStop;
use vpc_model::{
    AttNo, EniNo, FarKind, FarNo, Foreign, Id, IgwNo, NatLife, NatNo, PeerNo, Place, Stop,
    SubnetNo, TableNo, Target, VpcNo,
};

/// A local route: to the interface that has the destination.
pub fn to_host_on(f: &Fabric, s: SubnetNo, i: &Image, host: Option<EniNo>, v: VpcNo) -> Part<Onward>
    requires subnet { IsTrue (is_subnet f.now s) }
    requires vpc { v ≡ vpc_of_subnet f.now s }
    requires host { IfSome host (λ e. IsTrue (is_eni f.now e)) }
    requires valid { IsValidImage i.now }
    requires walk { IsImageOfWalk i.now }
    ensures { Answers (Standing f.now)
        (λ h. onward_of (model.to_host f.now s (header_at i.now h) host)) i.now.part result }
{
    match host {
        Some(e) => unless_stopped_on(crossing_on(f, s, subnet_of(f, e), i), deliver_to(f, e)),
        None => stopped(i, Stop::NoHost(v)),
    }
}

/// A route to an interface, such as an instance that forwards.
pub fn to_interface_on(f: &Fabric, s: SubnetNo, i: &Image, e: EniNo) -> Part<Onward>
    requires subnet { IsTrue (is_subnet f.now s) }
    requires eni { IsTrue (is_eni f.now e) }
    requires valid { IsValidImage i.now }
    requires walk { IsImageOfWalk i.now }
    ensures { Answers (Standing f.now)
        (λ h. onward_of (model.to_interface f.now s (header_at i.now h) e)) i.now.part result }
{
    unless_stopped_on(crossing_on(f, s, subnet_of(f, e), i), into_host(f, e))
}

/// Into the attachment's subnet, whose ACL is evaluated even if it is the sender's.
pub fn to_zone_on(
    f: &Fabric,
    s: SubnetNo,
    i: &Image,
    a: AttNo,
    zone: Option<SubnetNo>,
) -> Part<Onward>
    requires subnet { IsTrue (is_subnet f.now s) }
    requires zone { IfSome zone (λ t. IsTrue (is_subnet f.now t)) }
    requires valid { IsValidImage i.now }
    requires walk { IsImageOfWalk i.now }
    ensures { Answers (Standing f.now)
        (λ h. onward_of (model.to_zone f.now s (header_at i.now h) a zone)) i.now.part result }
{
    match zone {
        Some(t) => unless_stopped_on(between_on(f, s, t, i), Onward::Go(Place::Tgw(a, t))),
        None => stopped(i, Stop::TgwNoZone(a)),
    }
}

// Whether the first gateway is attached, and is the second.
fn is_attached(g: IgwNo, attached: Option<IgwNo>) -> bool
    ensures { result ≡ model.is_attached g attached }
{
    match attached {
        None => false,
        Some(attached) => attached.0 == g.0,
    }
}

/// A route to an internet gateway, which is attached to the VPC.
pub fn to_internet_on(f: &Fabric, s: SubnetNo, v: VpcNo, i: &Image, g: IgwNo) -> Part<Onward>
    requires subnet { IsTrue (is_subnet f.now s) }
    requires vpc { IsTrue (is_vpc f.now v) }
    requires own { v ≡ vpc_of_subnet f.now s }
    requires valid { IsValidImage i.now }
    requires walk { IsImageOfWalk i.now }
    ensures { Answers (Standing f.now)
        (λ h. onward_of (model.to_internet f.now s (header_at i.now h) g)) i.now.part result }
{
    if is_attached(g, f.network().gateway_of(v)) {
        unless_stopped_on(leaving_on(f, s, i), Onward::Go(Place::IgwOut(v)))
    } else {
        stopped(i, Stop::GatewayDetached(g))
    }
}

/// A route to a NAT gateway, which is available.
pub fn to_nat_on(f: &Fabric, s: SubnetNo, i: &Image, n: NatNo) -> Part<Onward>
    requires subnet { IsTrue (is_subnet f.now s) }
    requires nat { IsTrue (is_nat f.now n) }
    requires valid { IsValidImage i.now }
    requires walk { IsImageOfWalk i.now }
    ensures { let row = nat_at f.now n in Answers (Standing f.now)
        (λ h. onward_of (model.to_nat f.now s (header_at i.now h) n row.life)) i.now.part result }
{
    match &nat_at(f, n).life {
        NatLife::Gone => stopped(i, Stop::NatNotAvailable(n)),
        NatLife::Unmodelled => stopped(i, Stop::Unmodelled(Foreign::Nat(n))),
        NatLife::Live { .. } => {
            let t = nat_subnet(f, n);
            unless_stopped_on(crossing_on(f, s, t, i), Onward::Go(Place::NatOut(n)))
        }
    }
}

// Into a network that isn't described.
fn to_far_on(f: &Fabric, s: SubnetNo, i: &Image, k: FarNo) -> Part<Onward>
    requires subnet { IsTrue (is_subnet f.now s) }
    requires valid { IsValidImage i.now }
    requires walk { IsImageOfWalk i.now }
    ensures { Answers (Standing f.now)
        (λ h. onward_of (model.to_far f.now s (header_at i.now h) k)) i.now.part result }
{
    unless_stopped_on(leaving_on(f, s, i), Onward::Go(Place::FarOut(k)))
}

// Over a peering to a VPC that isn't described, where it is told which blocks that has.
fn to_half_peering_on(f: &Fabric, s: SubnetNo, i: &Image, x: PeerNo) -> Part<Onward>
    requires subnet { IsTrue (is_subnet f.now s) }
    requires peering { IsTrue (is_peering f.now x) }
    requires valid { IsValidImage i.now }
    requires walk { IsImageOfWalk i.now }
    ensures { let row = peering_at f.now x in let far = far_end_of_id f.now row.id in
        Answers (Standing f.now) (λ h. onward_of (model.to_half_peering f.now s (header_at i.now h) x far))
        i.now.part result }
{
    match f.network().far_end(peering_at(f, x).id.bytes()) {
        Some(k) => to_far_on(f, s, i, k),
        None => stopped(i, Stop::Unmodelled(Foreign::Peering(x))),
    }
}

/// A route to a peering, which is active.
pub fn to_peer_on(f: &Fabric, s: SubnetNo, v: VpcNo, i: &Image, x: PeerNo) -> Part<Onward>
    requires subnet { IsTrue (is_subnet f.now s) }
    requires vpc { IsTrue (is_vpc f.now v) }
    requires own { v ≡ vpc_of_subnet f.now s }
    requires peering { IsTrue (is_peering f.now x) }
    requires valid { IsValidImage i.now }
    requires walk { IsImageOfWalk i.now }
    ensures { let row = peering_at f.now x in Answers (Standing f.now)
        (λ h. onward_of (model.to_peer f.now s (header_at i.now h) x row.pair)) i.now.part result }
{
    let Some(_) = &peering_at(f, x).pair else {
        return stopped(i, Stop::PeerNotActive(x));
    };
    match far_vpc(f, x, v) {
        Some(_) => unless_stopped_on(leaving_on(f, s, i), Onward::Go(Place::Peer(x, v))),
        None => to_half_peering_on(f, s, i, x),
    }
}

/// A route to a transit gateway, which has an attachment here.
pub fn to_transit_on(
    f: &Fabric,
    s: SubnetNo,
    i: &Image,
    t: TableNo,
    k: u32,
    gateway: &Id,
) -> Part<Onward>
    requires subnet { IsTrue (is_subnet f.now s) }
    requires valid { IsValidImage i.now }
    requires walk { IsImageOfWalk i.now }
    ensures { let attached = attachment_for f.now gateway.now s in Answers (Standing f.now)
        (λ h. onward_of (model.to_transit f.now s (header_at i.now h) t k attached))
        i.now.part result }
{
    let _ = f.network().description();
    match f.transit().enter(gateway.bytes(), s) {
        Ok((a, zone)) => to_zone_on(f, s, i, a, Some(zone)),
        Err(EnterStop::NoZone(a)) => to_zone_on(f, s, i, a, None),
        Err(EnterStop::NoAttachment) => stopped(i, Stop::TgwNoAttachment(t, k)),
    }
}

// A local route, by the interface of the VPC that has the destination.
fn to_local_on(f: &Fabric, s: SubnetNo, v: VpcNo, i: &Image) -> Part<Onward>
    requires subnet { IsTrue (is_subnet f.now s) }
    requires vpc { IsTrue (is_vpc f.now v) }
    requires own { v ≡ vpc_of_subnet f.now s }
    requires valid { IsValidImage i.now }
    requires walk { IsImageOfWalk i.now }
    ensures { Answers (Standing f.now) (λ h. let k = header_at i.now h in
        onward_of (model.to_host f.now s k (host_of f.now v k.dst))) i.now.part result }
{
    let host = host_on(f, v, i);
    to_host_on(f, s, &i.within(&host.body), host.told, v)
}

// Whether the VPC is the one beside a network.
fn is_beside(v: VpcNo, beside: Option<VpcNo>) -> bool
    ensures { result ≡ model.is_beside v beside }
{
    match beside {
        None => false,
        Some(beside) => beside.0 == v.0,
    }
}

// A route to a virtual private gateway that is attached to the VPC, or to a gateway endpoint that lies in it.
fn to_network_on(
    f: &Fabric,
    s: SubnetNo,
    v: VpcNo,
    i: &Image,
    t: TableNo,
    k: u32,
    far: FarNo,
) -> Part<Onward>
    requires subnet { IsTrue (is_subnet f.now s) }
    requires own { v ≡ vpc_of_subnet f.now s }
    requires far { IsTrue (is_far f.now far) }
    requires valid { IsValidImage i.now }
    requires walk { IsImageOfWalk i.now }
    ensures { let row = far_at f.now far in Answers (Standing f.now)
        (λ h. onward_of (model.to_network_by f.now s (header_at i.now h) t k far row.kind))
        i.now.part result }
{
    let row = far_at(f, far);
    let inside = is_beside(v, f.network().vpc_beside(row));
    match (&row.kind, inside) {
        (FarKind::PrivateGateway(_), true) => to_far_on(f, s, i, far),
        (FarKind::PrivateGateway(_), false) => stopped(i, Stop::FarDetached(far)),
        (FarKind::Endpoint(_), true) => to_far_on(f, s, i, far),
        (FarKind::Endpoint(_), false) => stopped(i, Stop::Unmodelled(Foreign::Target(t, k))),
        (FarKind::Attachment(_), _) => stopped(i, Stop::Unmodelled(Foreign::Target(t, k))),
        (FarKind::Peering(..), _) => stopped(i, Stop::Unmodelled(Foreign::Target(t, k))),
    }
}

// A route to a firewall endpoint of the VPC, where it is told what stands behind it.
fn to_firewall_on(
    f: &Fabric,
    s: SubnetNo,
    v: VpcNo,
    i: &Image,
    t: TableNo,
    k: u32,
    id: &Id,
) -> Part<Onward>
    requires subnet { IsTrue (is_subnet f.now s) }
    requires vpc { IsTrue (is_vpc f.now v) }
    requires valid { IsValidImage i.now }
    requires walk { IsImageOfWalk i.now }
    ensures { let firewall = firewall_of f.now v id.now in Answers (Standing f.now)
        (λ h. onward_of (model.to_firewall f.now s (header_at i.now h) t k firewall))
        i.now.part result }
{
    match f.firewall_of(v, id) {
        Some(e) => {
            let crossed = crossing_on(f, s, f.firewall_subnet(e), i);
            unless_stopped_on(crossed, Onward::Go(Place::Inspect(e)))
        }
        None => stopped(i, Stop::Unmodelled(Foreign::Target(t, k))),
    }
}

// A route to what has no kind of its own in a table.
fn to_other_on(
    f: &Fabric,
    s: SubnetNo,
    v: VpcNo,
    i: &Image,
    t: TableNo,
    k: u32,
    id: &Id,
) -> Part<Onward>
    requires subnet { IsTrue (is_subnet f.now s) }
    requires vpc { IsTrue (is_vpc f.now v) }
    requires own { v ≡ vpc_of_subnet f.now s }
    requires valid { IsValidImage i.now }
    requires walk { IsImageOfWalk i.now }
    ensures { let far = far_of_id f.now id.now in Answers (Standing f.now)
        (λ h. onward_of (model.to_other f.now s (header_at i.now h) t k id.now far))
        i.now.part result }
{
    match f.network().far(id.bytes()) {
        Some(far) => to_network_on(f, s, v, i, t, k, far),
        None => to_firewall_on(f, s, v, i, t, k, id),
    }
}

// By the target of the route.
fn to_target_on(f: &Fabric, s: SubnetNo, i: &Image, t: TableNo, k: u32) -> Part<Onward>
    requires subnet { IsTrue (is_subnet f.now s) }
    requires route { IsTrue (is_route f.now t k) }
    requires there { let table = table_at f.now t in let r = route_at f.now t k in
        HasTarget f.now table.vpc r.target }
    requires valid { IsValidImage i.now }
    requires walk { IsImageOfWalk i.now }
    ensures { let r = route_at f.now t k in Answers (Standing f.now)
        (λ h. onward_of (model.to_target f.now s (header_at i.now h) t k r.target))
        i.now.part result }
{
    let v = vpc_of(f, s);
    match &route_at(f, t, k).target {
        Target::Local => to_local_on(f, s, v, i),
        Target::Internet(_) => to_internet_on(f, s, v, i, IgwNo(f.target_number(t, k))),
        Target::Nat(_) => to_nat_on(f, s, i, NatNo(f.target_number(t, k))),
        Target::Peer(_) => to_peer_on(f, s, v, i, PeerNo(f.target_number(t, k))),
        Target::Transit(id) => to_transit_on(f, s, i, t, k, id),
        Target::Interface(_) => to_interface_on(f, s, i, EniNo(f.target_number(t, k))),
        Target::Other(id) => to_other_on(f, s, v, i, t, k, id),
    }
}

// By the chosen route; a blackhole stops all packets.
fn by_route_on(f: &Fabric, s: SubnetNo, i: &Image, t: TableNo, k: u32) -> Part<Onward>
    requires subnet { IsTrue (is_subnet f.now s) }
    requires route { IsTrue (is_route f.now t k) }
    requires valid { IsValidImage i.now }
    requires walk { IsImageOfWalk i.now }
    ensures { Answers (Standing f.now)
        (λ h. onward_of (model.by_route f.now s (header_at i.now h) t (Some k)))
        i.now.part result }
{
    let _ = f.network().description();
    if route_at(f, t, k).blackhole {
        stopped(i, Stop::Blackhole(t, k))
    } else {
        to_target_on(f, s, i, t, k)
    }
}

/// From the router of a subnet, by its route table (VPC User Guide, "Route tables"). The route's
/// target is asked of the headers for which the route is chosen.
pub fn router_on(f: &Fabric, s: SubnetNo, i: &Image) -> Part<Onward>
    requires subnet { IsTrue (is_subnet f.now s) }
    requires valid { IsValidImage i.now }
    requires walk { IsImageOfWalk i.now }
    ensures { (came : Came) → let t = table_of f.now s in let table = table_at f.now t in
        Answers (AtPlace f.now (places.Router s came)) (λ h. let k = header_at i.now h in
        onward_of (model.by_route f.now s k t (chosen_route f.now table.routes k.dst)))
        i.now.part result }
{
    let n = f.network();
    let _ = n.description();
    let t = n.table_of(s);
    let chosen = route_on(f, s, i);
    match chosen.told {
        Some(k) => by_route_on(f, s, &i.within(&chosen.body), t, k),
        None => Part {
            body: chosen.body,
            told: Onward::Stop(Stop::NoRoute(t)),
        },
    }
}
