// Into a VPC.
ghost use Rattle.std.specs.Prelude.{◌≡◌, IsTrue, Some};
ghost use Rattle.fabric.specs.Targets.{route_at};
ghost use Rattle.packet_emulator.specs.Comes.{comes};
ghost use Rattle.vpc_laws.specs.Accepted.{HasTarget};
ghost use Rattle.vpc_model.specs.Firewalls.{entrance_table, firewall_of};
ghost use Rattle.vpc_model.specs.Lookup.{host_of, table_at};
ghost use Rattle.vpc_model.specs.Routes.{chosen_route};
ghost use Rattle.vpc_model.specs.Sound.{is_eni, is_entry, is_route, is_table, is_vpc};
ghost use Rattle.vpc_model.specs.Step.Enter as model;

use crate::choosing::route_of;
use crate::crossing::{deliver, entering, is_gateway};
use crate::next::{Next, unless_stopped};
use fabric::Fabric;
use fabric::rows::{interface_at, route_at, subnet_of};
use vpc_base::Header;
use vpc_model::{EniNo, EnterBy, Foreign, Id, Place, Stop, TableNo, Target, VpcNo};

// To the interface of the VPC that has the destination.
fn enter_host(f: &Fabric, v: VpcNo, h: &Header) -> Next
    requires { IsTrue (is_vpc f.now v) }
    ensures { comes result ≡ model.enter_host f.now v h.now (host_of f.now v h.now.dst) }
{
    match f.network().host(v, h.dst) {
        Some(i) => unless_stopped(entering(f, subnet_of(f, i), h), deliver(f, i, h)),
        None => Next::Stop(Stop::NoHost(v)),
    }
}

// To an interface, such as an appliance's.
fn enter_interface(f: &Fabric, h: &Header, i: EniNo) -> Next
    requires { IsTrue (is_eni f.now i) }
    ensures { comes result ≡ model.enter_interface f.now h.now i }
{
    let next = if is_gateway(interface_at(f, i).kind) {
        Next::Stop(Stop::NotAHost(i))
    } else {
        Next::Go(Place::Into(i), *h)
    };
    unless_stopped(entering(f, subnet_of(f, i), h), next)
}

// To a firewall endpoint of the VPC, where it is told what stands behind it.
fn enter_firewall(f: &Fabric, v: VpcNo, h: &Header, t: TableNo, k: u32, id: &Id) -> Next
    requires { IsTrue (is_vpc f.now v) }
    ensures { comes result ≡ model.enter_firewall f.now h.now t k (firewall_of f.now v id.now) }
{
    match f.firewall_of(v, id) {
        Some(e) => {
            let entered = entering(f, f.firewall_subnet(e), h);
            unless_stopped(entered, Next::Go(Place::Inspect(e), *h))
        }
        None => Next::Stop(Stop::Unmodelled(Foreign::Target(t, k))),
    }
}

// By the target of a route of a gateway's table: local, an interface or a firewall endpoint.
fn enter_target(f: &Fabric, v: VpcNo, h: &Header, t: TableNo, k: u32) -> Next
    requires vpc { IsTrue (is_vpc f.now v) }
    requires route { IsTrue (is_route f.now t k) }
    requires there { let table = table_at f.now t in let r = route_at f.now t k in
        HasTarget f.now table.vpc r.target }
    ensures { let r = route_at f.now t k in
        comes result ≡ model.enter_target f.now v h.now t k r.target }
{
    match &route_at(f, t, k).target {
        Target::Local => enter_host(f, v, h),
        Target::Interface(_) => enter_interface(f, h, EniNo(f.target_number(t, k))),
        Target::Other(id) => enter_firewall(f, v, h, t, k, id),
        Target::Internet(_) => Next::Stop(Stop::Unmodelled(Foreign::Target(t, k))),
        Target::Nat(_) => Next::Stop(Stop::Unmodelled(Foreign::Target(t, k))),
        Target::Transit(_) => Next::Stop(Stop::Unmodelled(Foreign::Target(t, k))),
        Target::Peer(_) => Next::Stop(Stop::Unmodelled(Foreign::Target(t, k))),
    }
}

// By the chosen route; a blackhole stops the packet.
fn enter_by_route(f: &Fabric, v: VpcNo, h: &Header, t: TableNo, k: u32) -> Next
    requires vpc { IsTrue (is_vpc f.now v) }
    requires route { IsTrue (is_route f.now t k) }
    ensures { comes result ≡ model.enter_by_route f.now v h.now t (Some k) }
{
    let _ = f.network().description();
    if route_at(f, t, k).blackhole {
        Next::Stop(Stop::Blackhole(t, k))
    } else {
        enter_target(f, v, h, t, k)
    }
}

// By the table of the gateway.
fn enter_by_table(f: &Fabric, v: VpcNo, h: &Header, t: TableNo) -> Next
    requires vpc { IsTrue (is_vpc f.now v) }
    requires table { IsTrue (is_table f.now t) }
    ensures { comes result ≡ model.enter_by_table f.now v h.now (Some t) }
{
    let _ = f.network().description();
    match route_of(f, t, h.dst) {
        Some(k) => enter_by_route(f, v, h, t, k),
        None => Next::Stop(Stop::NoRoute(t)),
    }
}

/// Into a VPC, by the route table of the gateway if it has one; else no route is asked (VPC User Guide, "Gateway
/// route tables").
pub fn enter(f: &Fabric, v: VpcNo, by: EnterBy, h: &Header) -> Next
    requires vpc { IsTrue (is_vpc f.now v) }
    requires entry { IsTrue (is_entry f.now by) }
    ensures { comes result ≡ model.enter_by_table f.now v h.now (entrance_table f.now v by) }
{
    match f.entrance_table(v, by) {
        Some(t) => enter_by_table(f, v, h, t),
        None => enter_host(f, v, h),
    }
}
