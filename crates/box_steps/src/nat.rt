// The NAT gateway, for all packets of a moment.
ghost use Rattle.std.specs.Prelude.{◌≡◌, ◌==◌, IsTrue, Some, find};
ghost use Rattle.box_images.specs.Images.{IsValidImage};
ghost use Rattle.vpc_base.specs.declared.headers.Label.TheVariants as labels;
ghost use Rattle.vpc_model.specs.Appliances.{appliances_of};
ghost use Rattle.vpc_model.specs.Lookup.{nat_at, subnet_no};
ghost use Rattle.vpc_model.specs.Sound.{is_nat};
ghost use Rattle.vpc_model.specs.Step.Nat.{own_address, own_subnet};
ghost use Rattle.vpc_model.specs.declared.places.Came.TheVariants as from;
ghost use Rattle.vpc_model.specs.declared.places.Place.TheVariants as places;
ghost use Rattle.box_steps.specs.Moments.{CanRemember, IsBoxMoment, IsStepOn};
ghost use Rattle.box_steps.specs.Moments.{IsTurned, stop_of_all};

use crate::moment::{BoxMoment, ImageNat};
use crate::onward::{Onward, stopped};
use box_images::Part;
use fabric::Fabric;
use fabric::rows::nat_at;
use nat_gateway::{inward_on, outward_on};
use vpc_base::Label;
use vpc_model::{Came, NatLife, NatNo, Place, Stop};

// The private address of a live NAT gateway.
fn own_address(f: &Fabric, n: NatNo) -> u32
    requires { IsTrue (is_nat f.now n) }
    ensures { let row = nat_at f.now n in result ≡ own_address row.life }
{
    match &nat_at(f, n).life {
        NatLife::Live { address, .. } => *address,
        NatLife::Gone => 0,
        NatLife::Unmodelled => 0,
    }
}

// The router of a NAT gateway's subnet.
fn router_of(f: &Fabric, n: NatNo) -> Place
    requires { IsTrue (is_nat f.now n) }
    ensures { let row = nat_at f.now n in
        result ≡ places.Router (subnet_no f.now (own_subnet row.life)) (from.Nat n) }
{
    Place::Router(f.nat_subnet(n), Came::Nat(n))
}

// What a gateway has translated; at most one of them is its own.
fn translation_of(nats: &[ImageNat], n: NatNo) -> Option<ImageNat>
    ensures { result ≡ find (λ t. t.nat.0 == n.0) nats.now }
{
    for t in nats {
        if t.nat.0 == n.0 {
            return Some(*t);
        }
    }
    None
}

// One stop for all packets.
fn stop_all(m: &mut BoxMoment, stop: Stop) -> Onward
    requires { IsValidImage m.old.header }
    ensures { IsTurned (stop_of_all m.old stop) m.old m.new result }
{
    let x = stopped(&m.header, stop);
    m.turn(&x)
}

// Opens go out from the gateway's own address, and are remembered.
fn send_on(f: &Fabric, n: NatNo, m: &mut BoxMoment) -> Onward
    requires place { m.old.place ≡ places.NatOut n }
    requires moment { IsBoxMoment f.now labels.Opening m.old }
    requires room { CanRemember labels.Opening m.old }
    ensures { IsStepOn f.now (appliances_of f.now) labels.Opening m.old m.new result }
{
    let _ = f.network().description();
    let sent = outward_on(own_address(f, n), &m.header);
    match sent.told {
        Some(after) => {
            let before = m.header.within(&after.part);
            let next = m.rewrite(after, router_of(f, n));
            m.nats.push(ImageNat {
                nat: n,
                before,
                after,
            });
            next
        }
        None => m.turn(&Part {
            body: sent.body,
            told: Onward::Stop(Stop::NatProtocol(n)),
        }),
    }
}

// Answers to the one open that was translated go back as those of the open before.
fn give_back_by(f: &Fabric, n: NatNo, t: &ImageNat, m: &mut BoxMoment) -> Onward
    requires place { m.old.place ≡ places.NatIn n }
    requires moment { IsBoxMoment f.now labels.Answer m.old }
    requires found { find (λ u. u.nat.0 == n.0) m.old.nats.items ≡ Some t.now }
    ensures { IsStepOn f.now (appliances_of f.now) labels.Answer m.old m.new result }
{
    let _ = f.network().description();
    let back = inward_on(&t.before, &t.after, &m.header);
    match back.told {
        Some(header) => m.rewrite(header, router_of(f, n)),
        None => m.turn(&Part {
            body: back.body,
            told: Onward::Stop(Stop::NatUnsolicited(n)),
        }),
    }
}

// Answers go back if the gateway has translated anything.
fn give_back_on(f: &Fabric, n: NatNo, m: &mut BoxMoment) -> Onward
    requires place { m.old.place ≡ places.NatIn n }
    requires moment { IsBoxMoment f.now labels.Answer m.old }
    ensures { IsStepOn f.now (appliances_of f.now) labels.Answer m.old m.new result }
{
    let _ = f.network().description();
    match translation_of(m.nats.as_slice(), n) {
        Some(t) => give_back_by(f, n, &t, m),
        None => stop_all(m, Stop::NatUnsolicited(n)),
    }
}

/// Out by a NAT gateway: opens of TCP, UDP and ICMP alone, each to the port that is tried first,
/// since a walk comes to a gateway once (VPC User Guide, "NAT gateways").
pub fn nat_out_on(f: &Fabric, label: Label, n: NatNo, m: &mut BoxMoment) -> Onward
    requires place { m.old.place ≡ places.NatOut n }
    requires moment { IsBoxMoment f.now label m.old }
    requires room { CanRemember label m.old }
    ensures { IsStepOn f.now (appliances_of f.now) label m.old m.new result }
{
    let _ = f.network().description();
    match label {
        Label::Opening => send_on(f, n, m),
        Label::Answer => stop_all(m, Stop::NatAnswer(n)),
    }
}

/// Back by a NAT gateway: answers to what it sent out alone.
pub fn nat_in_on(f: &Fabric, label: Label, n: NatNo, m: &mut BoxMoment) -> Onward
    requires place { m.old.place ≡ places.NatIn n }
    requires moment { IsBoxMoment f.now label m.old }
    requires room { CanRemember label m.old }
    ensures { IsStepOn f.now (appliances_of f.now) label m.old m.new result }
{
    let _ = f.network().description();
    match label {
        Label::Opening => stop_all(m, Stop::NatUnsolicited(n)),
        Label::Answer => give_back_on(f, n, m),
    }
}
