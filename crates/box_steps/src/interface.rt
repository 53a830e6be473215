// Out of an interface and into one, which may be that of an appliance.
ghost use Rattle.std.specs.Prelude.{◌≡◌, ◌<◌, if◌then◌else◌, IsTrue, length};
ghost use Rattle.box_images.specs.Answers.{Answers};
ghost use Rattle.box_images.specs.Images.{IsImageOfWalk, IsValidImage, header_at};
ghost use Rattle.header_boxes.specs.Boxes.{IsWithin};
ghost use Rattle.box_steps.specs.Cuts.{AtPlace, Standing};
ghost use Rattle.box_steps.specs.Moments.{CanRemember, IsBoxMoment, IsLetIn, IsStepOn};
ghost use Rattle.box_steps.specs.Onward.{onward_of};
ghost use Rattle.box_steps.specs.Passing as passing;
ghost use Rattle.vpc_base.specs.declared.headers.Header.{Header};
ghost use Rattle.vpc_base.specs.declared.headers.Label.TheVariants as labels;
ghost use Rattle.vpc_model.specs.Appliances.{appliances_of};
ghost use Rattle.vpc_model.specs.Sound.{is_eni};
ghost use Rattle.vpc_model.specs.Step.Interface.{taken_in};
ghost use Rattle.vpc_model.specs.Step.Words.{go, stop};
ghost use Rattle.vpc_model.specs.declared.places.Place.TheVariants as places;
ghost use Rattle.vpc_model.specs.declared.stops.Stop.TheVariants as stops;

use crate::groups::{passes_on, remember};
use crate::hosts::own_on;
use crate::moment::BoxMoment;
use crate::onward::Onward;
use appliances::Deciders;
use box_images::{Image, Part};
use fabric::Fabric;
use fabric::rows::{interface_at, subnet_of};
use vpc_base::{Dir, Label};
use vpc_model::{Came, End, EniNo, Place, Stop};

fn check_stop(dir: Dir, i: EniNo) -> Stop
    ensures { result ≡ passing.check_stop dir i }
{
    match dir {
        Dir::Outward => Stop::SourceCheck(i),
        Dir::Inward => Stop::DestCheck(i),
    }
}

fn groups_stop(dir: Dir, i: EniNo) -> Stop
    ensures { result ≡ passing.groups_stop dir i }
{
    match dir {
        Dir::Outward => Stop::GroupsOut(i),
        Dir::Inward => Stop::GroupsIn(i),
    }
}

// What the groups stop. The packets of the body are left.
fn groups_on(f: &Fabric, label: Label, i: EniNo, dir: Dir, m: &mut BoxMoment) -> Option<Stop>
    requires eni { IsTrue (is_eni f.now i) }
    requires moment { IsBoxMoment f.now label m.old }
    ensures { passing.TellsOf (AtPlace f.now (places.OutOf i))
        (passing.groups_barrier f.now label i dir) m.old m.new result }
{
    let passes = passes_on(f, label, i, dir, m);
    m.narrow(&passes.body);
    if passes.told {
        None
    } else {
        Some(groups_stop(dir, i))
    }
}

// What the check of the interface stops, or else the groups do. An interface that isn't checked isn't
// asked for its addresses.
fn checked_on(f: &Fabric, label: Label, i: EniNo, dir: Dir, m: &mut BoxMoment) -> Option<Stop>
    requires eni { IsTrue (is_eni f.now i) }
    requires moment { IsBoxMoment f.now label m.old }
    ensures { passing.TellsOf (AtPlace f.now (places.OutOf i))
        (passing.checked_barrier f.now label i dir) m.old m.new result }
{
    if !interface_at(f, i).checked {
        return groups_on(f, label, i, dir, m);
    }
    let own = own_on(f, i, dir, &m.header);
    m.narrow(&own.body);
    if own.told {
        groups_on(f, label, i, dir, m)
    } else {
        Some(check_stop(dir, i))
    }
}

// What stops packets at the interface: attached, source/destination check, groups (EC2 API,
// DescribeNetworkInterfaces).
fn barrier_on(f: &Fabric, label: Label, i: EniNo, dir: Dir, m: &mut BoxMoment) -> Option<Stop>
    requires eni { IsTrue (is_eni f.now i) }
    requires moment { IsBoxMoment f.now label m.old }
    ensures { passing.TellsOf (AtPlace f.now (places.OutOf i))
        (passing.barrier f.now label i dir) m.old m.new result }
{
    if interface_at(f, i).idle {
        return Some(Stop::Detached(i));
    }
    checked_on(f, label, i, dir, m)
}

// Past the interface: packets of which something is told come to their next place.
fn pass(f: &Fabric, label: Label, i: EniNo, dir: Dir, m: &mut BoxMoment, x: &Part<Onward>) -> Onward
    requires eni { IsTrue (is_eni f.now i) }
    requires valid { IsValidImage m.old.header }
    requires within { IsWithin x.now.body m.old.header.part }
    requires room { label ≡ labels.Opening → length m.old.conns.items < 64 }
    ensures { passing.HasPassed f.now label i dir x.now m.old m.new result }
{
    let onward = m.turn(x);
    remember(f, label, i, dir, m);
    onward
}

/// Out of an interface: attached, source check, groups (EC2 API, DescribeNetworkInterfaces).
pub fn out_on(f: &Fabric, label: Label, i: EniNo, m: &mut BoxMoment) -> Onward
    requires place { m.old.place ≡ places.OutOf i }
    requires moment { IsBoxMoment f.now label m.old }
    requires room { CanRemember label m.old }
    ensures { IsStepOn f.now (appliances_of f.now) label m.old m.new result }
{
    let _ = f.network().description();
    match barrier_on(f, label, i, Dir::Outward, m) {
        Some(stop) => Onward::Stop(stop),
        None => {
            let router = Part {
                body: m.header.part,
                told: Onward::Go(Place::Router(subnet_of(f, i), Came::Host(i))),
            };
            pass(f, label, i, Dir::Outward, m, &router)
        }
    }
}

// An appliance sends on what its boxes hold.
fn sent_on(i: EniNo, passes: bool) -> Onward
    ensures { (h : Header) → onward_of
        (if passes then go (places.OutOf i) h else stop (stops.ApplianceDrop i)) ≡ result }
{
    if passes {
        Onward::Go(Place::OutOf(i))
    } else {
        Onward::Stop(Stop::ApplianceDrop(i))
    }
}

// Arrived, unless the interface is an appliance's and the packets are for another address.
fn taken_in_on(f: &Fabric, deciders: &Deciders, i: EniNo, image: &Image) -> Part<Onward>
    requires eni { IsTrue (is_eni f.now i) }
    requires appliances { deciders.now.appliances ≡ appliances_of f.now }
    requires valid { IsValidImage image.now }
    requires walk { IsImageOfWalk image.now }
    ensures { Answers (Standing f.now)
        (λ h. onward_of (taken_in f.now (appliances_of f.now) i (header_at image.now h)))
        image.now.part result }
{
    let Some(k) = deciders.number(i) else {
        return Part {
            body: image.part,
            told: Onward::Arrive(End::Interface(i)),
        };
    };
    let own = own_on(f, i, Dir::Inward, image);
    if own.told {
        return Part {
            body: own.body,
            told: Onward::Arrive(End::Interface(i)),
        };
    }
    let passes = deciders.passes_on(k, &image.within(&own.body));
    Part {
        body: passes.body,
        told: sent_on(i, passes.told),
    }
}

/// Into an interface: attached, destination check, groups (EC2 API, DescribeNetworkInterfaces).
pub fn into_on(f: &Fabric, deciders: &Deciders, label: Label, i: EniNo, m: &mut BoxMoment) -> Onward
    requires place { m.old.place ≡ places.Into i }
    requires appliances { deciders.now.appliances ≡ appliances_of f.now }
    requires moment { IsBoxMoment f.now label m.old }
    requires room { CanRemember label m.old }
    ensures { IsStepOn f.now (appliances_of f.now) label m.old m.new result }
{
    let _ = f.network().description();
    match barrier_on(f, label, i, Dir::Inward, m) {
        Some(stop) => Onward::Stop(stop),
        None => {
            let taken = taken_in_on(f, deciders, i, &m.header);
            pass(f, label, i, Dir::Inward, m, &taken)
        }
    }
}

/// Opens before an interface, as they are once they have arrived there: taken to be let in, whatever its groups allow.
pub fn let_in(f: &Fabric, i: EniNo, m: &mut BoxMoment)
    requires place { m.old.place ≡ places.Into i }
    requires moment { IsBoxMoment f.now labels.Opening m.old }
    requires room { CanRemember labels.Opening m.old }
    ensures { IsLetIn f.now (appliances_of f.now) m.old m.new }
{
    let part = m.header.part;
    m.narrow(&part);
    let arrived = Part {
        body: part,
        told: Onward::Arrive(End::Interface(i)),
    };
    let _ = pass(f, Label::Opening, i, Dir::Inward, m, &arrived);
}
