// Into a VPC.
ghost use Rattle.std.specs.Prelude.{◌≡◌, IfSome, IsTrue, Some};
ghost use Rattle.box_images.specs.Answers.{Answers};
ghost use Rattle.box_images.specs.Images.{IsImageOfWalk, IsValidImage, header_at};
ghost use Rattle.box_steps.specs.Cuts.{AtPlace, Standing};
ghost use Rattle.box_steps.specs.Onward.{onward_of};
ghost use Rattle.fabric.specs.Targets.{route_at};
ghost use Rattle.vpc_laws.specs.Accepted.{HasTarget};
ghost use Rattle.vpc_model.specs.Firewalls.{entrance_table, firewall_of};
ghost use Rattle.vpc_model.specs.Lookup.{host_of, table_at};
ghost use Rattle.vpc_model.specs.Sound.{is_eni, is_entry, is_route, is_table, is_vpc};
ghost use Rattle.vpc_model.specs.Step.Enter as model;
ghost use Rattle.vpc_model.specs.declared.places.Place.TheVariants as places;

use crate::choosing::entrance_route_on;
use crate::crossing::{deliver_to, entering_on, into_host};
use crate::hosts::host_on;
use crate::onward::{Onward, stopped, unless_stopped_on};
use box_images::{Image, Part};
use fabric::Fabric;
use fabric::rows::{route_at, subnet_of};
use vpc_model::{EniNo, EnterBy, Foreign, Id, Place, Stop, TableNo, Target, VpcNo};

// Into a VPC, to the interface that has the destination.
fn to_host_in(f: &Fabric, v: VpcNo, i: &Image, host: Option<EniNo>) -> Part<Onward>
    requires host { IfSome host (λ e. IsTrue (is_eni f.now e)) }
    requires valid { IsValidImage i.now }
    requires walk { IsImageOfWalk i.now }
    ensures { Answers (Standing f.now)
        (λ h. onward_of (model.enter_host f.now v (header_at i.now h) host)) i.now.part result }
{
    match host {
        Some(e) => unless_stopped_on(entering_on(f, subnet_of(f, e), i), deliver_to(f, e)),
        None => stopped(i, Stop::NoHost(v)),
    }
}

// The same, where no route is asked or a local one is chosen.
fn enter_host_on(f: &Fabric, v: VpcNo, i: &Image) -> Part<Onward>
    requires vpc { IsTrue (is_vpc f.now v) }
    requires valid { IsValidImage i.now }
    requires walk { IsImageOfWalk i.now }
    ensures { Answers (Standing f.now) (λ h. let k = header_at i.now h in
        onward_of (model.enter_host f.now v k (host_of f.now v k.dst))) i.now.part result }
{
    let host = host_on(f, v, i);
    to_host_in(f, v, &i.within(&host.body), host.told)
}

// To an interface, such as an appliance's.
fn enter_interface_on(f: &Fabric, i: &Image, e: EniNo) -> Part<Onward>
    requires eni { IsTrue (is_eni f.now e) }
    requires valid { IsValidImage i.now }
    requires walk { IsImageOfWalk i.now }
    ensures { Answers (Standing f.now)
        (λ h. onward_of (model.enter_interface f.now (header_at i.now h) e)) i.now.part result }
{
    unless_stopped_on(entering_on(f, subnet_of(f, e), i), into_host(f, e))
}

// To a firewall endpoint of the VPC, where it is told what stands behind it.
fn enter_firewall_on(f: &Fabric, v: VpcNo, i: &Image, t: TableNo, k: u32, id: &Id) -> Part<Onward>
    requires vpc { IsTrue (is_vpc f.now v) }
    requires valid { IsValidImage i.now }
    requires walk { IsImageOfWalk i.now }
    ensures { let firewall = firewall_of f.now v id.now in Answers (Standing f.now)
        (λ h. onward_of (model.enter_firewall f.now (header_at i.now h) t k firewall))
        i.now.part result }
{
    match f.firewall_of(v, id) {
        Some(e) => {
            let entered = entering_on(f, f.firewall_subnet(e), i);
            unless_stopped_on(entered, Onward::Go(Place::Inspect(e)))
        }
        None => stopped(i, Stop::Unmodelled(Foreign::Target(t, k))),
    }
}

// By the target of a route of a gateway's table: local, an interface or a firewall endpoint.
fn enter_target_on(f: &Fabric, v: VpcNo, i: &Image, t: TableNo, k: u32) -> Part<Onward>
    requires vpc { IsTrue (is_vpc f.now v) }
    requires route { IsTrue (is_route f.now t k) }
    requires there { let table = table_at f.now t in let r = route_at f.now t k in
        HasTarget f.now table.vpc r.target }
    requires valid { IsValidImage i.now }
    requires walk { IsImageOfWalk i.now }
    ensures { let r = route_at f.now t k in Answers (Standing f.now)
        (λ h. onward_of (model.enter_target f.now v (header_at i.now h) t k r.target))
        i.now.part result }
{
    match &route_at(f, t, k).target {
        Target::Local => enter_host_on(f, v, i),
        Target::Interface(_) => enter_interface_on(f, i, EniNo(f.target_number(t, k))),
        Target::Other(id) => enter_firewall_on(f, v, i, t, k, id),
        Target::Internet(_) => stopped(i, Stop::Unmodelled(Foreign::Target(t, k))),
        Target::Nat(_) => stopped(i, Stop::Unmodelled(Foreign::Target(t, k))),
        Target::Transit(_) => stopped(i, Stop::Unmodelled(Foreign::Target(t, k))),
        Target::Peer(_) => stopped(i, Stop::Unmodelled(Foreign::Target(t, k))),
    }
}

// By the chosen route; a blackhole stops all packets.
fn enter_by_route_on(f: &Fabric, v: VpcNo, i: &Image, t: TableNo, k: u32) -> Part<Onward>
    requires vpc { IsTrue (is_vpc f.now v) }
    requires route { IsTrue (is_route f.now t k) }
    requires valid { IsValidImage i.now }
    requires walk { IsImageOfWalk i.now }
    ensures { Answers (Standing f.now)
        (λ h. onward_of (model.enter_by_route f.now v (header_at i.now h) t (Some k)))
        i.now.part result }
{
    let _ = f.network().description();
    if route_at(f, t, k).blackhole {
        stopped(i, Stop::Blackhole(t, k))
    } else {
        enter_target_on(f, v, i, t, k)
    }
}

// By the table of the gateway. The route's target is asked of the headers for which the route is chosen.
fn enter_by_table_on(f: &Fabric, v: VpcNo, by: EnterBy, i: &Image, t: TableNo) -> Part<Onward>
    requires vpc { IsTrue (is_vpc f.now v) }
    requires table { IsTrue (is_table f.now t) }
    requires own { entrance_table f.now v by ≡ Some t }
    requires valid { IsValidImage i.now }
    requires walk { IsImageOfWalk i.now }
    ensures { Answers (AtPlace f.now (places.Enter v by))
        (λ h. onward_of (model.enter_by_table f.now v (header_at i.now h) (Some t))) i.now.part result }
{
    let _ = f.network().description();
    let chosen = entrance_route_on(f, v, by, t, i);
    match chosen.told {
        Some(k) => enter_by_route_on(f, v, &i.within(&chosen.body), t, k),
        None => Part {
            body: chosen.body,
            told: Onward::Stop(Stop::NoRoute(t)),
        },
    }
}

/// Into a VPC, by the route table of the gateway if it has one; else no route is asked (VPC User Guide,
/// "Gateway route tables").
pub fn enter_on(f: &Fabric, v: VpcNo, by: EnterBy, i: &Image) -> Part<Onward>
    requires vpc { IsTrue (is_vpc f.now v) }
    requires entry { IsTrue (is_entry f.now by) }
    requires valid { IsValidImage i.now }
    requires walk { IsImageOfWalk i.now }
    ensures { let table = entrance_table f.now v by in Answers (AtPlace f.now (places.Enter v by))
        (λ h. onward_of (model.enter_by_table f.now v (header_at i.now h) table)) i.now.part result }
{
    match f.entrance_table(v, by) {
        Some(t) => enter_by_table_on(f, v, by, i, t),
        None => enter_host_on(f, v, i),
    }
}
