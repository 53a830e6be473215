// Which subnets' ACLs judge a packet on the way that a route leads it.
ghost use Rattle.std.specs.Prelude.{◌≡◌, IfSome, IsTrue};
ghost use Rattle.fabric.specs.Targets.{route_at};
ghost use Rattle.vpc_laws.specs.Accepted.{HasTarget};
ghost use Rattle.vpc_model.specs.Far.{far_end_of_id, far_of_id};
ghost use Rattle.vpc_model.specs.Firewalls.{firewall_of};
ghost use Rattle.vpc_model.specs.Lookup.{far_at, host_of, nat_at, peering_at, table_at, vpc_of_subnet};
ghost use Rattle.vpc_model.specs.Sound.{is_eni, is_far, is_nat, is_peering, is_route, is_subnet, is_vpc};
ghost use Rattle.vpc_model.specs.Transit.{attachment_for};
ghost use Rattle.walk_reasons.specs.Borders as borders;
ghost use Rattle.walk_reasons.specs.Borders.{AreSubnets};

use fabric::Fabric;
use fabric::rows::{far_at, far_vpc, nat_at, nat_subnet, peering_at, route_at, subnet_of, vpc_of};
use packet_emulator::{is_attached, is_beside};
use transit_gateway::EnterStop;
use vpc_base::Header;
use vpc_model::{
    EniNo, FarKind, FarNo, Id, IgwNo, NatLife, NatNo, PeerNo, SubnetNo, TableNo, Target, VpcNo,
};

/// The subnet that a packet leaves and the one that it enters, where their ACLs judge it, in this order.
#[derive(Clone, Copy)]
pub struct Borders {
    pub left: Option<SubnetNo>,
    pub entered: Option<SubnetNo>,
}

fn none() -> Borders
    ensures { result ≡ borders.no_borders }
{
    Borders {
        left: None,
        entered: None,
    }
}

fn out_of(s: SubnetNo) -> Borders
    ensures { result ≡ borders.out_of s }
{
    Borders {
        left: Some(s),
        entered: None,
    }
}

fn from_into(s: SubnetNo, t: SubnetNo) -> Borders
    ensures { result ≡ borders.from_into s t }
{
    Borders {
        left: Some(s),
        entered: Some(t),
    }
}

// Into a subnet from what lies in none.
fn into(t: SubnetNo) -> Borders
    ensures { result ≡ borders.into t }
{
    Borders {
        left: None,
        entered: Some(t),
    }
}

// From one subnet to another; inside one subnet no ACL is asked.
fn across(f: &Fabric, s: SubnetNo, t: SubnetNo) -> Borders
    requires from { IsTrue (is_subnet f.now s) }
    requires to { IsTrue (is_subnet f.now t) }
    ensures borders { result ≡ borders.across s t }
    ensures lie { AreSubnets f.now result }
{
    let _ = f;
    if s.0 == t.0 { none() } else { from_into(s, t) }
}

// A local route: to the subnet of the interface that has the destination.
fn to_host(f: &Fabric, s: SubnetNo, host: Option<EniNo>) -> Borders
    requires subnet { IsTrue (is_subnet f.now s) }
    requires host { IfSome host (λ i. IsTrue (is_eni f.now i)) }
    ensures borders { result ≡ borders.to_host f.now s host }
    ensures lie { AreSubnets f.now result }
{
    match host {
        Some(i) => across(f, s, subnet_of(f, i)),
        None => none(),
    }
}

// A route to an internet gateway, which is attached to the VPC.
fn to_internet(f: &Fabric, s: SubnetNo, v: VpcNo, g: IgwNo) -> Borders
    requires subnet { IsTrue (is_subnet f.now s) }
    requires vpc { IsTrue (is_vpc f.now v) }
    requires own { v ≡ vpc_of_subnet f.now s }
    ensures borders { result ≡ borders.to_internet f.now s g }
    ensures lie { AreSubnets f.now result }
{
    if is_attached(g, f.network().gateway_of(v)) {
        out_of(s)
    } else {
        none()
    }
}

// A route to a NAT gateway, which is available.
fn to_nat(f: &Fabric, s: SubnetNo, n: NatNo) -> Borders
    requires subnet { IsTrue (is_subnet f.now s) }
    requires nat { IsTrue (is_nat f.now n) }
    ensures borders { let row = nat_at f.now n in result ≡ borders.to_nat f.now s row.life }
    ensures lie { AreSubnets f.now result }
{
    match &nat_at(f, n).life {
        NatLife::Gone => none(),
        NatLife::Unmodelled => none(),
        NatLife::Live { .. } => across(f, s, nat_subnet(f, n)),
    }
}

// A route to a peering with a VPC that isn't described, where it is told which blocks that has.
fn to_half_peering(f: &Fabric, s: SubnetNo, x: PeerNo) -> Borders
    requires subnet { IsTrue (is_subnet f.now s) }
    requires peering { IsTrue (is_peering f.now x) }
    ensures borders { let row = peering_at f.now x in
        result ≡ borders.to_outside s (far_end_of_id f.now row.id) }
    ensures lie { AreSubnets f.now result }
{
    match f.network().far_end(peering_at(f, x).id.bytes()) {
        Some(_) => out_of(s),
        None => none(),
    }
}

// A route to a peering, which is active.
fn to_peer(f: &Fabric, s: SubnetNo, v: VpcNo, x: PeerNo) -> Borders
    requires subnet { IsTrue (is_subnet f.now s) }
    requires vpc { IsTrue (is_vpc f.now v) }
    requires own { v ≡ vpc_of_subnet f.now s }
    requires peering { IsTrue (is_peering f.now x) }
    ensures borders { let row = peering_at f.now x in result ≡ borders.to_peer f.now s row.id row.pair }
    ensures lie { AreSubnets f.now result }
{
    let Some(_) = &peering_at(f, x).pair else {
        return none();
    };
    match far_vpc(f, x, v) {
        Some(_) => out_of(s),
        None => to_half_peering(f, s, x),
    }
}

// A route to a virtual private gateway or a gateway endpoint of the VPC.
fn to_network(f: &Fabric, s: SubnetNo, v: VpcNo, far: FarNo) -> Borders
    requires subnet { IsTrue (is_subnet f.now s) }
    requires own { v ≡ vpc_of_subnet f.now s }
    requires far { IsTrue (is_far f.now far) }
    ensures borders { let row = far_at f.now far in result ≡ borders.to_network_by f.now s far row.kind }
    ensures lie { AreSubnets f.now result }
{
    let row = far_at(f, far);
    let inside = is_beside(v, f.network().vpc_beside(row));
    match (&row.kind, inside) {
        (FarKind::PrivateGateway(_), true) => out_of(s),
        (FarKind::PrivateGateway(_), false) => none(),
        (FarKind::Endpoint(_), true) => out_of(s),
        (FarKind::Endpoint(_), false) => none(),
        (FarKind::Attachment(_), _) => none(),
        (FarKind::Peering(..), _) => none(),
    }
}

// A route to a firewall endpoint of the VPC.
fn to_firewall(f: &Fabric, s: SubnetNo, v: VpcNo, id: &Id) -> Borders
    requires subnet { IsTrue (is_subnet f.now s) }
    requires vpc { IsTrue (is_vpc f.now v) }
    ensures borders { result ≡ borders.to_firewall f.now s (firewall_of f.now v id.now) }
    ensures lie { AreSubnets f.now result }
{
    match f.firewall_of(v, id) {
        Some(e) => across(f, s, f.firewall_subnet(e)),
        None => none(),
    }
}

// A route to what has no kind of its own in a table.
fn to_other(f: &Fabric, s: SubnetNo, v: VpcNo, id: &Id) -> Borders
    requires subnet { IsTrue (is_subnet f.now s) }
    requires vpc { IsTrue (is_vpc f.now v) }
    requires own { v ≡ vpc_of_subnet f.now s }
    ensures borders { result ≡ borders.to_other f.now s id.now (far_of_id f.now id.now) }
    ensures lie { AreSubnets f.now result }
{
    match f.network().far(id.bytes()) {
        Some(far) => to_network(f, s, v, far),
        None => to_firewall(f, s, v, id),
    }
}

// A route to a transit gateway, which has an attachment here.
fn to_transit(f: &Fabric, s: SubnetNo, gateway: &Id) -> Borders
    requires { IsTrue (is_subnet f.now s) }
    ensures borders { result ≡ borders.to_transit f.now s (attachment_for f.now gateway.now s) }
    ensures lie { AreSubnets f.now result }
{
    let _ = f.network().description();
    match f.transit().enter(gateway.bytes(), s) {
        Ok(entered) => from_into(s, entered.1),
        Err(EnterStop::NoZone(_)) => none(),
        Err(EnterStop::NoAttachment) => none(),
    }
}

// By the target of the route.
fn to_target(f: &Fabric, s: SubnetNo, h: &Header, t: TableNo, k: u32) -> Borders
    requires subnet { IsTrue (is_subnet f.now s) }
    requires route { IsTrue (is_route f.now t k) }
    requires there { let table = table_at f.now t in let r = route_at f.now t k in
        HasTarget f.now table.vpc r.target }
    ensures borders { let r = route_at f.now t k in result ≡ borders.to_target f.now s h.now r.target }
    ensures lie { AreSubnets f.now result }
{
    let v = vpc_of(f, s);
    match &route_at(f, t, k).target {
        Target::Local => to_host(f, s, f.network().host(v, h.dst)),
        Target::Internet(_) => to_internet(f, s, v, IgwNo(f.target_number(t, k))),
        Target::Nat(_) => to_nat(f, s, NatNo(f.target_number(t, k))),
        Target::Peer(_) => to_peer(f, s, v, PeerNo(f.target_number(t, k))),
        Target::Transit(id) => to_transit(f, s, id),
        Target::Interface(_) => across(f, s, subnet_of(f, EniNo(f.target_number(t, k)))),
        Target::Other(id) => to_other(f, s, v, id),
    }
}

/// On the way by a route of a table, none where its target is gone (VPC User Guide, "Network ACLs").
pub fn of_route(f: &Fabric, s: SubnetNo, h: &Header, t: TableNo, k: u32) -> Borders
    requires subnet { IsTrue (is_subnet f.now s) }
    requires route { IsTrue (is_route f.now t k) }
    ensures borders { result ≡ borders.of_route f.now s h.now t k }
    ensures lie { AreSubnets f.now result }
{
    let _ = f.network().description();
    if route_at(f, t, k).blackhole {
        none()
    } else {
        to_target(f, s, h, t, k)
    }
}

/// Where a packet enters a VPC: into the subnet of the interface that has the destination.
pub fn of_host(f: &Fabric, v: VpcNo, h: &Header) -> Borders
    requires { IsTrue (is_vpc f.now v) }
    ensures borders { result ≡ borders.of_host f.now (host_of f.now v h.now.dst) }
    ensures lie { AreSubnets f.now result }
{
    match f.network().host(v, h.dst) {
        Some(i) => into(subnet_of(f, i)),
        None => none(),
    }
}

// Into the subnet of a firewall endpoint of the VPC.
fn of_firewall(f: &Fabric, v: VpcNo, id: &Id) -> Borders
    requires { IsTrue (is_vpc f.now v) }
    ensures borders { result ≡ borders.of_firewall f.now (firewall_of f.now v id.now) }
    ensures lie { AreSubnets f.now result }
{
    match f.firewall_of(v, id) {
        Some(e) => into(f.firewall_subnet(e)),
        None => none(),
    }
}

// By the target of a route of a gateway's table.
fn of_target(f: &Fabric, v: VpcNo, h: &Header, t: TableNo, k: u32) -> Borders
    requires vpc { IsTrue (is_vpc f.now v) }
    requires route { IsTrue (is_route f.now t k) }
    requires there { let table = table_at f.now t in let r = route_at f.now t k in
        HasTarget f.now table.vpc r.target }
    ensures borders { let r = route_at f.now t k in result ≡ borders.of_target f.now v h.now r.target }
    ensures lie { AreSubnets f.now result }
{
    match &route_at(f, t, k).target {
        Target::Local => of_host(f, v, h),
        Target::Interface(_) => into(subnet_of(f, EniNo(f.target_number(t, k)))),
        Target::Other(id) => of_firewall(f, v, id),
        Target::Internet(_) => none(),
        Target::Nat(_) => none(),
        Target::Transit(_) => none(),
        Target::Peer(_) => none(),
    }
}

/// On the way by a route of a gateway's table, none where its target is gone (VPC User Guide, "Gateway route tables").
pub fn of_entrance(f: &Fabric, v: VpcNo, h: &Header, t: TableNo, k: u32) -> Borders
    requires vpc { IsTrue (is_vpc f.now v) }
    requires route { IsTrue (is_route f.now t k) }
    ensures borders { result ≡ borders.of_entrance f.now v h.now t k }
    ensures lie { AreSubnets f.now result }
{
    let _ = f.network().description();
    if route_at(f, t, k).blackhole {
        none()
    } else {
        of_target(f, v, h, t, k)
    }
}
