// The implicit router of a subnet: by the target of the chosen route.
ghost use Rattle.std.specs.Prelude.{◌≡◌, IfSome, IsTrue, Some};
ghost use Rattle.vpc_model.specs.Far.{far_end_of_id, far_of_id};
ghost use Rattle.vpc_model.specs.Firewalls.{firewall_of};
ghost use Rattle.fabric.specs.Targets.{route_at};
ghost use Rattle.packet_emulator.specs.Comes.{comes};
ghost use Rattle.vpc_laws.specs.Accepted.{HasTarget};
ghost use Rattle.vpc_model.specs.Lookup.{far_at, nat_at, peering_at, table_at, table_of, vpc_of_subnet};
ghost use Rattle.vpc_model.specs.Routes.{chosen_route};
ghost use Rattle.vpc_model.specs.Sound.{is_eni, is_far, is_nat, is_peering, is_route, is_subnet, is_vpc};
ghost use Rattle.vpc_model.specs.Step.Router as model;
ghost use Rattle.vpc_model.specs.Transit.{attachment_for};

use crate::choosing::route_of;
use crate::crossing::{crossing, deliver, entering, is_gateway, leaving};
use crate::next::{Next, unless_stopped};
use fabric::Fabric;
use fabric::rows::{
    far_at, far_vpc, interface_at, nat_at, nat_subnet, peering_at, route_at, subnet_of, vpc_of,
};
use transit_gateway::EnterStop;
use vpc_base::Header;
use vpc_model::{
    AttNo, EniNo, FarKind, FarNo, Foreign, Id, IgwNo, NatLife, NatNo, PeerNo, Place, Stop,
    SubnetNo, TableNo, Target, VpcNo,
};

// A local route: to the interface that has the destination.
fn to_host(f: &Fabric, s: SubnetNo, h: &Header, host: Option<EniNo>, v: VpcNo) -> Next
    requires subnet { IsTrue (is_subnet f.now s) }
    requires vpc { v ≡ vpc_of_subnet f.now s }
    requires host { IfSome host (λ i. IsTrue (is_eni f.now i)) }
    ensures { comes result ≡ model.to_host f.now s h.now host }
{
    match host {
        Some(i) => unless_stopped(crossing(f, s, subnet_of(f, i), h), deliver(f, i, h)),
        None => Next::Stop(Stop::NoHost(v)),
    }
}

// A route to an interface, such as an instance that forwards.
fn to_interface(f: &Fabric, s: SubnetNo, h: &Header, i: EniNo) -> Next
    requires subnet { IsTrue (is_subnet f.now s) }
    requires eni { IsTrue (is_eni f.now i) }
    ensures { comes result ≡ model.to_interface f.now s h.now i }
{
    let next = if is_gateway(interface_at(f, i).kind) {
        Next::Stop(Stop::NotAHost(i))
    } else {
        Next::Go(Place::Into(i), *h)
    };
    unless_stopped(crossing(f, s, subnet_of(f, i), h), next)
}

// Into the attachment's subnet, whose ACL is evaluated even if it is the sender's.
fn to_zone(f: &Fabric, s: SubnetNo, h: &Header, a: AttNo, zone: Option<SubnetNo>) -> Next
    requires subnet { IsTrue (is_subnet f.now s) }
    requires zone { IfSome zone (λ t. IsTrue (is_subnet f.now t)) }
    ensures { comes result ≡ model.to_zone f.now s h.now a zone }
{
    let Some(t) = zone else {
        return Next::Stop(Stop::TgwNoZone(a));
    };
    match leaving(f, s, h) {
        Some(stop) => Next::Stop(stop),
        None => unless_stopped(entering(f, t, h), Next::Go(Place::Tgw(a, t), *h)),
    }
}

/// Whether the first gateway is attached, and is the second.
pub fn is_attached(g: IgwNo, attached: Option<IgwNo>) -> bool
    ensures { result ≡ model.is_attached g attached }
{
    match attached {
        None => false,
        Some(attached) => attached.0 == g.0,
    }
}

// A route to an internet gateway, which is attached to the VPC.
fn to_internet(f: &Fabric, s: SubnetNo, v: VpcNo, h: &Header, g: IgwNo) -> Next
    requires subnet { IsTrue (is_subnet f.now s) }
    requires vpc { IsTrue (is_vpc f.now v) }
    requires own { v ≡ vpc_of_subnet f.now s }
    ensures { comes result ≡ model.to_internet f.now s h.now g }
{
    if is_attached(g, f.network().gateway_of(v)) {
        unless_stopped(leaving(f, s, h), Next::Go(Place::IgwOut(v), *h))
    } else {
        Next::Stop(Stop::GatewayDetached(g))
    }
}

// A route to a NAT gateway, which is available.
fn to_nat(f: &Fabric, s: SubnetNo, h: &Header, n: NatNo) -> Next
    requires subnet { IsTrue (is_subnet f.now s) }
    requires nat { IsTrue (is_nat f.now n) }
    ensures { let row = nat_at f.now n in comes result ≡ model.to_nat f.now s h.now n row.life }
{
    match &nat_at(f, n).life {
        NatLife::Gone => Next::Stop(Stop::NatNotAvailable(n)),
        NatLife::Unmodelled => Next::Stop(Stop::Unmodelled(Foreign::Nat(n))),
        NatLife::Live { .. } => {
            let t = nat_subnet(f, n);
            unless_stopped(crossing(f, s, t, h), Next::Go(Place::NatOut(n), *h))
        }
    }
}

// Into a network that isn't described.
fn to_far(f: &Fabric, s: SubnetNo, h: &Header, k: FarNo) -> Next
    requires { IsTrue (is_subnet f.now s) }
    ensures { comes result ≡ model.to_far f.now s h.now k }
{
    unless_stopped(leaving(f, s, h), Next::Go(Place::FarOut(k), *h))
}

// Over a peering to a VPC that isn't described, where it is told which blocks that has.
fn to_half_peering(f: &Fabric, s: SubnetNo, h: &Header, x: PeerNo) -> Next
    requires subnet { IsTrue (is_subnet f.now s) }
    requires peering { IsTrue (is_peering f.now x) }
    ensures { let row = peering_at f.now x in
        comes result ≡ model.to_half_peering f.now s h.now x (far_end_of_id f.now row.id) }
{
    match f.network().far_end(peering_at(f, x).id.bytes()) {
        Some(k) => to_far(f, s, h, k),
        None => Next::Stop(Stop::Unmodelled(Foreign::Peering(x))),
    }
}

// A route to a peering, which is active.
fn to_peer(f: &Fabric, s: SubnetNo, v: VpcNo, h: &Header, x: PeerNo) -> Next
    requires subnet { IsTrue (is_subnet f.now s) }
    requires vpc { IsTrue (is_vpc f.now v) }
    requires own { v ≡ vpc_of_subnet f.now s }
    requires peering { IsTrue (is_peering f.now x) }
    ensures { let row = peering_at f.now x in comes result ≡ model.to_peer f.now s h.now x row.pair }
{
    let Some(_) = &peering_at(f, x).pair else {
        return Next::Stop(Stop::PeerNotActive(x));
    };
    match far_vpc(f, x, v) {
        Some(_) => unless_stopped(leaving(f, s, h), Next::Go(Place::Peer(x, v), *h)),
        None => to_half_peering(f, s, h, x),
    }
}

// A route to a transit gateway, which has an attachment here.
fn to_transit(f: &Fabric, s: SubnetNo, h: &Header, t: TableNo, k: u32, gateway: &Id) -> Next
    requires { IsTrue (is_subnet f.now s) }
    ensures { comes result ≡ model.to_transit f.now s h.now t k (attachment_for f.now gateway.now s) }
{
    let _ = f.network().description();
    match f.transit().enter(gateway.bytes(), s) {
        Ok((a, zone)) => to_zone(f, s, h, a, Some(zone)),
        Err(EnterStop::NoZone(a)) => to_zone(f, s, h, a, None),
        Err(EnterStop::NoAttachment) => Next::Stop(Stop::TgwNoAttachment(t, k)),
    }
}

/// Whether the VPC is the one beside a network.
pub fn is_beside(v: VpcNo, beside: Option<VpcNo>) -> bool
    ensures { result ≡ model.is_beside v beside }
{
    match beside {
        None => false,
        Some(beside) => beside.0 == v.0,
    }
}

// A route to a virtual private gateway that is attached to the VPC, or to a gateway endpoint that lies in it.
fn to_network(f: &Fabric, s: SubnetNo, v: VpcNo, h: &Header, t: TableNo, k: u32, far: FarNo) -> Next
    requires subnet { IsTrue (is_subnet f.now s) }
    requires own { v ≡ vpc_of_subnet f.now s }
    requires far { IsTrue (is_far f.now far) }
    ensures { let row = far_at f.now far in
        comes result ≡ model.to_network_by f.now s h.now t k far row.kind }
{
    let row = far_at(f, far);
    let inside = is_beside(v, f.network().vpc_beside(row));
    match (&row.kind, inside) {
        (FarKind::PrivateGateway(_), true) => to_far(f, s, h, far),
        (FarKind::PrivateGateway(_), false) => Next::Stop(Stop::FarDetached(far)),
        (FarKind::Endpoint(_), true) => to_far(f, s, h, far),
        (FarKind::Endpoint(_), false) => Next::Stop(Stop::Unmodelled(Foreign::Target(t, k))),
        (FarKind::Attachment(_), _) => Next::Stop(Stop::Unmodelled(Foreign::Target(t, k))),
        (FarKind::Peering(..), _) => Next::Stop(Stop::Unmodelled(Foreign::Target(t, k))),
    }
}

// A route to a firewall endpoint of the VPC, where it is told what stands behind it.
fn to_firewall(f: &Fabric, s: SubnetNo, v: VpcNo, h: &Header, t: TableNo, k: u32, id: &Id) -> Next
    requires subnet { IsTrue (is_subnet f.now s) }
    requires vpc { IsTrue (is_vpc f.now v) }
    ensures { comes result ≡ model.to_firewall f.now s h.now t k (firewall_of f.now v id.now) }
{
    match f.firewall_of(v, id) {
        Some(e) => {
            let crossed = crossing(f, s, f.firewall_subnet(e), h);
            unless_stopped(crossed, Next::Go(Place::Inspect(e), *h))
        }
        None => Next::Stop(Stop::Unmodelled(Foreign::Target(t, k))),
    }
}

// A route to what has no kind of its own in a table.
fn to_other(f: &Fabric, s: SubnetNo, v: VpcNo, h: &Header, t: TableNo, k: u32, id: &Id) -> Next
    requires subnet { IsTrue (is_subnet f.now s) }
    requires vpc { IsTrue (is_vpc f.now v) }
    requires own { v ≡ vpc_of_subnet f.now s }
    ensures { comes result ≡ model.to_other f.now s h.now t k id.now (far_of_id f.now id.now) }
{
    match f.network().far(id.bytes()) {
        Some(far) => to_network(f, s, v, h, t, k, far),
        None => to_firewall(f, s, v, h, t, k, id),
    }
}

// By the target of the route.
fn to_target(f: &Fabric, s: SubnetNo, h: &Header, t: TableNo, k: u32) -> Next
    requires subnet { IsTrue (is_subnet f.now s) }
    requires route { IsTrue (is_route f.now t k) }
    requires there { let table = table_at f.now t in let r = route_at f.now t k in
        HasTarget f.now table.vpc r.target }
    ensures { let r = route_at f.now t k in
        comes result ≡ model.to_target f.now s h.now t k r.target }
{
    let v = vpc_of(f, s);
    match &route_at(f, t, k).target {
        Target::Local => to_host(f, s, h, f.network().host(v, h.dst), v),
        Target::Internet(_) => to_internet(f, s, v, h, IgwNo(f.target_number(t, k))),
        Target::Nat(_) => to_nat(f, s, h, NatNo(f.target_number(t, k))),
        Target::Peer(_) => to_peer(f, s, v, h, PeerNo(f.target_number(t, k))),
        Target::Transit(id) => to_transit(f, s, h, t, k, id),
        Target::Interface(_) => to_interface(f, s, h, EniNo(f.target_number(t, k))),
        Target::Other(id) => to_other(f, s, v, h, t, k, id),
    }
}

// By the chosen route; a blackhole stops the packet.
fn by_route(f: &Fabric, s: SubnetNo, h: &Header, t: TableNo, k: u32) -> Next
    requires subnet { IsTrue (is_subnet f.now s) }
    requires route { IsTrue (is_route f.now t k) }
    ensures { comes result ≡ model.by_route f.now s h.now t (Some k) }
{
    let _ = f.network().description();
    if route_at(f, t, k).blackhole {
        Next::Stop(Stop::Blackhole(t, k))
    } else {
        to_target(f, s, h, t, k)
    }
}

/// From the router of a subnet, by its route table (VPC User Guide, "Route tables").
pub fn router(f: &Fabric, s: SubnetNo, h: &Header) -> Next
    requires { IsTrue (is_subnet f.now s) }
    ensures { let t = table_of f.now s in let table = table_at f.now t in
        comes result ≡ model.by_route f.now s h.now t (chosen_route f.now table.routes h.now.dst) }
{
    let n = f.network();
    let _ = n.description();
    let t = n.table_of(s);
    match route_of(f, t, h.dst) {
        Some(k) => by_route(f, s, h, t, k),
        None => Next::Stop(Stop::NoRoute(t)),
    }
}
