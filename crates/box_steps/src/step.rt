// The step of packets at any place.
ghost use Rattle.std.specs.Prelude.{◌≡◌};
ghost use Rattle.vpc_model.specs.Appliances.{appliances_of};
ghost use Rattle.vpc_model.specs.declared.places.Came.{Came};
ghost use Rattle.vpc_model.specs.declared.places.Place.TheVariants as places;
ghost use Rattle.vpc_base.specs.declared.headers.Label.{Label};
ghost use Rattle.vpc_model.specs.declared.places.Place.{Place};
ghost use Rattle.box_steps.specs.Moments.{CanRemember, IsBoxMoment, IsStepOn};
ghost use Rattle.box_steps.specs.Moments.{comes_to, moment_after, onward_to};

use crate::enter::enter_on;
use crate::inspect::inspect_on;
use crate::interface::{into_on, out_on};
use crate::internet::{igw_in_on, igw_out_on, internet_on};
use crate::moment::{BoxMoment, BoxNext};
use crate::nat::{nat_in_on, nat_out_on};
use crate::onward::Onward;
use crate::outside::{far_in_on, far_out_on};
use crate::peering::peer_on;
use crate::router::router_on;
use crate::transit::{tgw_leave_to, tgw_on};
use appliances::Deciders;
use box_images::Part;
use fabric::Fabric;
use vpc_base::Label;
use vpc_model::{AttNo, EnterBy, FarNo, FirewallNo, PeerNo, Place, SubnetNo, VpcNo};

// The router of a subnet asks its table, in whatever way packets came to it.
fn at_router(f: &Fabric, s: SubnetNo, m: &mut BoxMoment) -> Onward
    requires place { (came : Came) × (m.old.place ≡ places.Router s came) }
    requires moment { (label : Label) × IsBoxMoment f.now label m.old }
    ensures { (label : Label) → IsBoxMoment f.now label m.old
        → IsStepOn f.now (appliances_of f.now) label m.old m.new result }
{
    let _ = f.network().description();
    let x = router_on(f, s, &m.header);
    m.turn(&x)
}

// A VPC is entered by the table of the gateway, or without a route.
fn at_entrance(f: &Fabric, v: VpcNo, by: EnterBy, m: &mut BoxMoment) -> Onward
    requires place { m.old.place ≡ places.Enter v by }
    requires moment { (label : Label) × IsBoxMoment f.now label m.old }
    ensures { (label : Label) → IsBoxMoment f.now label m.old
        → IsStepOn f.now (appliances_of f.now) label m.old m.new result }
{
    let _ = f.network().description();
    let x = enter_on(f, v, by, &m.header);
    m.turn(&x)
}

// The internet rewrites nothing; its gateways do.
fn at_internet(f: &Fabric, m: &mut BoxMoment) -> Onward
    requires place { m.old.place ≡ places.Internet }
    requires moment { (label : Label) × IsBoxMoment f.now label m.old }
    ensures { (label : Label) → IsBoxMoment f.now label m.old
        → IsStepOn f.now (appliances_of f.now) label m.old m.new result }
{
    let _ = f.network().description();
    let x = internet_on(f, &m.header);
    m.turn(&x)
}

// A peering asks the blocks of its two VPCs.
fn at_peering(f: &Fabric, c: PeerNo, v: VpcNo, m: &mut BoxMoment) -> Onward
    requires place { m.old.place ≡ places.Peer c v }
    requires moment { (label : Label) × IsBoxMoment f.now label m.old }
    ensures { (label : Label) → IsBoxMoment f.now label m.old
        → IsStepOn f.now (appliances_of f.now) label m.old m.new result }
{
    let _ = f.network().description();
    let x = peer_on(f, c, v, &m.header);
    m.turn(&x)
}

// A transit gateway asks the table of the attachment.
fn at_tgw(f: &Fabric, a: AttNo, entered: SubnetNo, m: &mut BoxMoment) -> Onward
    requires place { m.old.place ≡ places.Tgw a entered }
    requires moment { (label : Label) × IsBoxMoment f.now label m.old }
    ensures { (label : Label) → IsBoxMoment f.now label m.old
        → IsStepOn f.now (appliances_of f.now) label m.old m.new result }
{
    let _ = f.network().description();
    let x = tgw_on(f, a, entered, &m.header);
    m.turn(&x)
}

// All packets leave by one subnet.
fn leaving_tgw(f: &Fabric, a: AttNo, entered: SubnetNo, m: &mut BoxMoment) -> Onward
    requires place { m.old.place ≡ places.TgwLeave a entered }
    requires moment { (label : Label) × IsBoxMoment f.now label m.old }
    ensures { (label : Label) → IsBoxMoment f.now label m.old
        → IsStepOn f.now (appliances_of f.now) label m.old m.new result }
{
    let _ = f.network().description();
    let x = Part {
        body: m.header.part,
        told: tgw_leave_to(f, a, entered),
    };
    m.turn(&x)
}

// What leads to a network that isn't described may ask what it carries.
fn leaving_to(f: &Fabric, k: FarNo, m: &mut BoxMoment) -> Onward
    requires place { m.old.place ≡ places.FarOut k }
    requires moment { (label : Label) × IsBoxMoment f.now label m.old }
    ensures { (label : Label) → IsBoxMoment f.now label m.old
        → IsStepOn f.now (appliances_of f.now) label m.old m.new result }
{
    let _ = f.network().description();
    let x = far_out_on(f, k, &m.header);
    m.turn(&x)
}

// From a network that isn't described.
fn coming_from(f: &Fabric, label: Label, k: FarNo, m: &mut BoxMoment) -> Onward
    requires place { m.old.place ≡ places.FarIn k }
    requires moment { IsBoxMoment f.now label m.old }
    ensures { IsStepOn f.now (appliances_of f.now) label m.old m.new result }
{
    let _ = f.network().description();
    let x = far_in_on(f, label, k, &m.header);
    m.turn(&x)
}

// A firewall endpoint asks what stands behind it.
fn at_firewall(f: &Fabric, e: FirewallNo, m: &mut BoxMoment) -> Onward
    requires place { m.old.place ≡ places.Inspect e }
    requires moment { (label : Label) × IsBoxMoment f.now label m.old }
    ensures { (label : Label) → IsBoxMoment f.now label m.old
        → IsStepOn f.now (appliances_of f.now) label m.old m.new result }
{
    let _ = f.network().description();
    let x = inspect_on(f, e, &m.header);
    m.turn(&x)
}

/// One step of the packets of a moment, which becomes the moment after it: over the body for which
/// it is one step, and at the next place where they go on. It takes no memory.
pub fn step_in_place(f: &Fabric, deciders: &Deciders, label: Label, m: &mut BoxMoment) -> Onward
    requires appliances { deciders.now.appliances ≡ appliances_of f.now }
    requires moment { IsBoxMoment f.now label m.old }
    requires room { CanRemember label m.old }
    ensures { IsStepOn f.now (appliances_of f.now) label m.old m.new result }
{
    match m.place {
        Place::OutOf(i) => out_on(f, label, i, m),
        Place::Router(s, _) => at_router(f, s, m),
        Place::Enter(v, by) => at_entrance(f, v, by, m),
        Place::Into(i) => into_on(f, deciders, label, i, m),
        Place::IgwOut(v) => igw_out_on(f, v, m),
        Place::Internet => at_internet(f, m),
        Place::IgwIn(v) => igw_in_on(f, v, m),
        Place::NatOut(n) => nat_out_on(f, label, n, m),
        Place::NatIn(n) => nat_in_on(f, label, n, m),
        Place::Peer(c, v) => at_peering(f, c, v, m),
        Place::Tgw(a, entered) => at_tgw(f, a, entered, m),
        Place::TgwLeave(a, entered) => leaving_tgw(f, a, entered, m),
        Place::FarOut(k) => leaving_to(f, k, m),
        Place::FarIn(k) => coming_from(f, label, k, m),
        Place::Inspect(e) => at_firewall(f, e, m),
    }
}

// What a step tells, with the moment after it.
fn next_of(onward: Onward, m: BoxMoment) -> BoxNext
    ensures moment { moment_after result ≡ m }
    ensures onward { (old : Place) → m.place ≡ comes_to old onward → onward_to result ≡ onward }
{
    match onward {
        Onward::Go(_) => BoxNext::Go(m),
        Onward::Arrive(end) => BoxNext::Arrived(end, m),
        Onward::Stop(stop) => BoxNext::Stopped(stop, m),
    }
}

/// One step of the packets of a moment, which stays as it is. The body is that of the moment that
/// is told. It takes no memory.
pub fn step_on(f: &Fabric, deciders: &Deciders, label: Label, m: &BoxMoment) -> Part<BoxNext>
    requires appliances { deciders.now.appliances ≡ appliances_of f.now }
    requires moment { IsBoxMoment f.now label m.now }
    requires room { CanRemember label m.now }
    ensures step { let after = moment_after result.told in
        IsStepOn f.now (appliances_of f.now) label m.now after (onward_to result.told) }
    ensures body { let after = moment_after result.told in result.body ≡ after.header.part }
{
    let mut after = m.copy();
    let onward = step_in_place(f, deciders, label, &mut after);
    Part {
        body: after.header.part,
        told: next_of(onward, after),
    }
}
