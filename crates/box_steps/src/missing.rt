// Opens that can no longer arrive at their goal, told before an ACL or the groups of an interface are asked.
ghost use Rattle.std.specs.Prelude.{◌≡◌, IsTrue, Some};
ghost use Rattle.box_images.specs.Images.{IsImageOfWalk, IsValidImage, header_at};
ghost use Rattle.box_steps.specs.Cuts.{AtPlace, Standing};
ghost use Rattle.box_steps.specs.Missing.{HoldsOver, is_away, is_elsewhere, misses, misses_at};
ghost use Rattle.box_steps.specs.Moments.{IsBoxMoment, moment_at};
ghost use Rattle.fabric.specs.Targets.{route_at};
ghost use Rattle.vpc_base.specs.declared.headers.Label.TheVariants as labels;
ghost use Rattle.vpc_model.specs.Appliances.{appliances_of};
ghost use Rattle.vpc_model.specs.Firewalls.{entrance_table};
ghost use Rattle.vpc_model.specs.Lookup.{host_of, table_at, table_of};
ghost use Rattle.vpc_model.specs.Routes.{chosen_route};
ghost use Rattle.vpc_model.specs.Sound.{is_eni, is_entry, is_route, is_subnet, is_vpc};
ghost use Rattle.vpc_model.specs.Step.Enter.{enter_by_table};
ghost use Rattle.vpc_model.specs.Step.Router.{by_route, to_interface, to_target};
ghost use Rattle.vpc_model.specs.Verdict.{same_end};
ghost use Rattle.vpc_model.specs.declared.places.Came.{Came};
ghost use Rattle.vpc_model.specs.declared.places.End.TheVariants as ends;
ghost use Rattle.vpc_model.specs.declared.places.Place.TheVariants as places;

use crate::choosing::route_on;
use crate::hosts::host_on;
use crate::moment::BoxMoment;
use appliances::Deciders;
use box_images::Image;
use fabric::Fabric;
use fabric::rows::{route_at, vpc_of};
use header_boxes::Box5;
use vpc_model::{End, EniNo, EnterBy, Place, SubnetNo, TableNo, Target, VpcNo};

// Where opens may arrive: at their goal or, to go on, at an appliance.
#[derive(Clone, Copy)]
struct Aim<'a> {
    deciders: &'a Deciders,
    goal: End,
}

fn is_goal(goal: End, e: EniNo) -> bool
    ensures { result ≡ same_end (ends.Interface e) goal }
{
    match goal {
        End::Interface(i) => e.0 == i.0,
        End::Internet => false,
        End::Far(_) => false,
    }
}

// What is delivered to an interface goes no further, unless it is an appliance's.
fn is_elsewhere(aim: &Aim, e: EniNo) -> bool
    ensures { let a = aim.now in result ≡ is_elsewhere a.deciders.now.appliances a.goal e }
{
    match aim.deciders.number(e) {
        Some(_) => false,
        None => !is_goal(aim.goal, e),
    }
}

// Whether what is sent to a destination goes no further: no interface has it, or one that is neither the goal nor an
// appliance's.
fn is_away(aim: &Aim, host: Option<EniNo>) -> bool
    ensures { let a = aim.now in result ≡ is_away a.deciders.now.appliances a.goal host }
{
    match host {
        Some(e) => is_elsewhere(aim, e),
        None => true,
    }
}

// Packets for a VPC, where no interface of it that is the goal's or an appliance's has the destination.
fn host_away_on(f: &Fabric, aim: &Aim, v: VpcNo, i: &Image) -> Option<Box5>
    requires vpc { IsTrue (is_vpc f.now v) }
    requires valid { IsValidImage i.now }
    requires walk { IsImageOfWalk i.now }
    ensures { let a = aim.now in HoldsOver (Standing f.now)
        (λ h. is_away a.deciders.now.appliances a.goal (host_of f.now v (header_at i.now h).dst))
        i.now.part result }
{
    let host = host_on(f, v, i);
    if is_away(aim, host.told) {
        Some(host.body)
    } else {
        None
    }
}

// A route to an interface that is neither the goal nor an appliance's.
fn to_interface_away(f: &Fabric, aim: &Aim, s: SubnetNo, i: &Image, e: EniNo) -> Option<Box5>
    requires valid { IsValidImage i.now }
    ensures { let a = aim.now in HoldsOver (Standing f.now)
        (λ h. misses a.deciders.now.appliances a.goal (to_interface f.now s (header_at i.now h) e))
        i.now.part result }
{
    if is_elsewhere(aim, e) {
        Some(i.part)
    } else {
        None
    }
}

// By the target of the route; of what goes on to a gateway nothing is known.
fn to_target_away(f: &Fabric, aim: &Aim, s: SubnetNo, i: &Image, t: TableNo, k: u32) -> Option<Box5>
    requires subnet { IsTrue (is_subnet f.now s) }
    requires route { IsTrue (is_route f.now t k) }
    requires valid { IsValidImage i.now }
    requires walk { IsImageOfWalk i.now }
    ensures { let a = aim.now in let r = route_at f.now t k in HoldsOver (Standing f.now)
        (λ h. misses a.deciders.now.appliances a.goal
        (to_target f.now s (header_at i.now h) t k r.target)) i.now.part result }
{
    match &route_at(f, t, k).target {
        Target::Local => host_away_on(f, aim, vpc_of(f, s), i),
        Target::Interface(_) => { to_interface_away(f, aim, s, i, EniNo(f.target_number(t, k))) }
        _ => None,
    }
}

// By the chosen route; of a blackhole nothing is told here.
fn by_route_away(f: &Fabric, aim: &Aim, s: SubnetNo, i: &Image, t: TableNo, k: u32) -> Option<Box5>
    requires subnet { IsTrue (is_subnet f.now s) }
    requires route { IsTrue (is_route f.now t k) }
    requires valid { IsValidImage i.now }
    requires walk { IsImageOfWalk i.now }
    ensures { let a = aim.now in HoldsOver (Standing f.now)
        (λ h. misses a.deciders.now.appliances a.goal (by_route f.now s (header_at i.now h) t (Some k)))
        i.now.part result }
{
    if route_at(f, t, k).blackhole {
        None
    } else {
        to_target_away(f, aim, s, i, t, k)
    }
}

// From the router of a subnet, by its table.
fn router_away_on(f: &Fabric, aim: &Aim, s: SubnetNo, i: &Image) -> Option<Box5>
    requires subnet { IsTrue (is_subnet f.now s) }
    requires valid { IsValidImage i.now }
    requires walk { IsImageOfWalk i.now }
    ensures { (came : Came) → let a = aim.now in
        let t = table_of f.now s in let table = table_at f.now t in
        HoldsOver (AtPlace f.now (places.Router s came)) (λ h. let k = header_at i.now h in
        misses a.deciders.now.appliances a.goal
        (by_route f.now s k t (chosen_route f.now table.routes k.dst))) i.now.part result }
{
    let n = f.network();
    let _ = n.description();
    let t = n.table_of(s);
    let chosen = route_on(f, s, i);
    match chosen.told {
        Some(k) => by_route_away(f, aim, s, &i.within(&chosen.body), t, k),
        None => None,
    }
}

// Into a VPC, where no table of a gateway is asked; of what such a table routes nothing is told here.
fn entrance_away_on(f: &Fabric, aim: &Aim, v: VpcNo, by: EnterBy, i: &Image) -> Option<Box5>
    requires vpc { IsTrue (is_vpc f.now v) }
    requires entry { IsTrue (is_entry f.now by) }
    requires valid { IsValidImage i.now }
    requires walk { IsImageOfWalk i.now }
    ensures { let a = aim.now in let table = entrance_table f.now v by in
        HoldsOver (Standing f.now) (λ h. misses a.deciders.now.appliances a.goal
        (enter_by_table f.now v (header_at i.now h) table)) i.now.part result }
{
    match f.entrance_table(v, by) {
        Some(_) => None,
        None => host_away_on(f, aim, v, i),
    }
}

/// A body of the packets of a moment, opens, that can't arrive at the goal: their next step delivers them to an
/// interface that is neither the goal nor an appliance's, or stops them. No ACL and no groups are asked, so the body is as
/// large as routes and addresses let it be. Where none is told, nothing is known.
pub fn misses_on(f: &Fabric, deciders: &Deciders, goal: End, m: &BoxMoment) -> Option<Box5>
    requires appliances { deciders.now.appliances ≡ appliances_of f.now }
    requires moment { IsBoxMoment f.now labels.Opening m.now }
    ensures { HoldsOver (AtPlace f.now m.now.place)
        (λ h. misses_at f.now (appliances_of f.now) goal (moment_at h m.now))
        m.now.header.part result }
{
    let aim = Aim { deciders, goal };
    match m.place {
        Place::Router(s, _) => router_away_on(f, &aim, s, &m.header),
        Place::Enter(v, by) => entrance_away_on(f, &aim, v, by, &m.header),
        _ => None,
    }
}
