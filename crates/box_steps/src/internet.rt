// The internet gateway, and the internet behind it.
ghost use Rattle.std.specs.Prelude.{◌≡◌, ◌||◌, if◌then◌else◌, IfSome, IsTrue, option_and_then, option_map, ℕ};
ghost use Rattle.box_images.specs.Answers.{Answers};
ghost use Rattle.box_images.specs.Images.{IsImageOfWalk, IsValidImage, header_at};
ghost use Rattle.box_steps.specs.Cuts.{Standing};
ghost use Rattle.box_steps.specs.Moments.{IsBoxMoment, IsStepOn};
ghost use Rattle.box_steps.specs.Onward.{onward_of};
ghost use Rattle.box_steps.specs.Publics.{got_at, own_in, unless_blocked};
ghost use Rattle.box_steps.specs.declared.onward.Onward.TheVariants as onwards;
ghost use Rattle.vpc_base.specs.declared.headers.Header.{Header};
ghost use Rattle.vpc_base.specs.declared.headers.Label.{Label};
ghost use Rattle.vpc_model.specs.Appliances.{appliances_of};
ghost use Rattle.vpc_model.specs.Internet.{is_unroutable, owner_of};
ghost use Rattle.vpc_model.specs.Lookup.{attached_gateway};
ghost use Rattle.vpc_model.specs.Sound.{has_gateway, is_eni, is_vpc};
ghost use Rattle.vpc_model.specs.Step.Internet as model;
ghost use Rattle.vpc_model.specs.Step.Words.{stop};
ghost use Rattle.vpc_model.specs.declared.places.Place.TheVariants as places;
ghost use Rattle.vpc_model.specs.declared.stops.Stop.TheVariants as stops;

use crate::hosts::sender_on;
use crate::moment::BoxMoment;
use crate::onward::Onward;
use box_images::{Image, Part};
use edge_gateways::unroutable_on;
use fabric::{Fabric, blocked, blocked_at};
use vpc_model::{End, EniNo, EnterBy, Place, Stop, VpcNo};

// To the gateway of the VPC that has the destination, if one has it.
fn to_owner(f: &Fabric, owner: Option<(VpcNo, u32)>) -> Onward
    requires { IfSome owner (λ o. IsTrue (is_vpc f.now o.0)) }
    ensures { (h : Header) →
        onward_of (model.to_owner f.now h (option_map (λ (o : VpcNo × ℕ). o.0) owner)) ≡ result }
{
    let Some((v, _)) = owner else {
        return Onward::Arrive(End::Internet);
    };
    match f.network().gateway_of(v) {
        Some(_) => Onward::Go(Place::IgwIn(v)),
        None => Onward::Stop(Stop::NoGateway(v)),
    }
}

/// On the internet: to the gateway of the VPC that has the public address, else arrived. It carries
/// no packet from or to an unroutable address.
pub fn internet_on(f: &Fabric, i: &Image) -> Part<Onward>
    requires valid { IsValidImage i.now }
    requires walk { IsImageOfWalk i.now }
    ensures { Answers (Standing f.now) (λ h. let k = header_at i.now h in
        onward_of (if is_unroutable k.src || is_unroutable k.dst then stop stops.PrivateAddress
        else model.to_owner f.now k (owner_of f.now k.dst))) i.now.part result }
{
    let unroutable = unroutable_on(i);
    if unroutable.told {
        return Part {
            body: unroutable.body,
            told: Onward::Stop(Stop::PrivateAddress),
        };
    }
    let _ = f.network().description();
    let owner = f.edges().in_addr_on(&i.within(&unroutable.body));
    Part {
        body: owner.body,
        told: to_owner(f, owner.told),
    }
}

// The stop of packets whose source has no public address.
fn no_public(f: &Fabric, v: VpcNo) -> Stop
    requires { IsTrue (has_gateway f.now v) }
    ensures { result ≡ stops.NoPublic (attached_gateway f.now v) }
{
    match f.network().gateway_of(v) {
        Some(g) => Stop::NoPublic(g),
        None => unreachable!(),
    }
}

// Packets go on to a place with another header.
fn send(m: &mut BoxMoment, place: Place, header: Image) -> Onward
    ensures place { m.new.place ≡ place }
    ensures header { m.new.header ≡ header }
    ensures conns { m.new.conns.items ≡ m.old.conns.items }
    ensures nats { m.new.nats.items ≡ m.old.nats.items }
    ensures told { result ≡ onwards.Go place }
{
    m.place = place;
    m.header = header;
    Onward::Go(place)
}

// What stops packets between the sender and the internet, if it is an interface of the VPC.
fn blocked_by(f: &Fabric, sender: Option<EniNo>) -> Option<Stop>
    requires { IfSome sender (λ e. IsTrue (is_eni f.now e)) }
    ensures { result ≡ option_and_then (model.blocked f.now) sender }
{
    match sender {
        Some(e) => blocked(f, e),
        None => None,
    }
}

// What stops packets of the source in a VPC on their way to the internet.
fn blocked_on(f: &Fabric, v: VpcNo, i: &Image) -> Part<Option<Stop>>
    requires vpc { IsTrue (is_vpc f.now v) }
    requires valid { IsValidImage i.now }
    requires walk { IsImageOfWalk i.now }
    ensures { Answers (Standing f.now)
        (λ h. model.blocked_at f.now v (header_at i.now h).src) i.now.part result }
{
    let sender = sender_on(f, v, i);
    Part {
        body: sender.body,
        told: blocked_by(f, sender.told),
    }
}

// The public address that packets get, unless something stops them.
fn unless_blocked(public: u32, stop: Option<Stop>) -> Result<u32, Stop>
    ensures { result ≡ unless_blocked public stop }
{
    match stop {
        None => Ok(public),
        Some(stop) => Err(stop),
    }
}

// The public address that packets get for their source, or what stops them.
fn got_on(f: &Fabric, v: VpcNo, i: &Image) -> Part<Result<u32, Stop>>
    requires gateway { IsTrue (has_gateway f.now v) }
    requires valid { IsValidImage i.now }
    requires walk { IsImageOfWalk i.now }
    ensures { Answers (Standing f.now) (λ h. got_at f.now v (header_at i.now h).src) i.now.part result }
{
    let _ = f.network().description();
    let public = f.edges().out_addr_on(v, i);
    let Some(a) = public.told else {
        return Part {
            body: public.body,
            told: Err(no_public(f, v)),
        };
    };
    let blocked = blocked_on(f, v, &i.within(&public.body));
    Part {
        body: blocked.body,
        told: unless_blocked(a, blocked.told),
    }
}

/// Out by the internet gateway, with the public address as the source, unless public access is blocked (VPC User
/// Guide, "Internet gateways"). The packets that go on have one source.
pub fn igw_out_on(f: &Fabric, v: VpcNo, m: &mut BoxMoment) -> Onward
    requires place { m.old.place ≡ places.IgwOut v }
    requires moment { (label : Label) × IsBoxMoment f.now label m.old }
    ensures { (label : Label) → IsBoxMoment f.now label m.old
        → IsStepOn f.now (appliances_of f.now) label m.old m.new result }
{
    let _ = f.network().description();
    let public = got_on(f, v, &m.header);
    m.narrow(&public.body);
    match public.told {
        Ok(a) => {
            let header = m.header.set_src(a);
            send(m, Place::Internet, header)
        }
        Err(stop) => Onward::Stop(stop),
    }
}

// The private address of an owner, if it is in the VPC.
fn own_in(v: VpcNo, owner: Option<(VpcNo, u32)>) -> Option<u32>
    ensures { result ≡ own_in v owner }
{
    match owner {
        Some((w, own)) => { if w.0 == v.0 { Some(own) } else { None } }
        None => None,
    }
}

/// In by the internet gateway, with the private address as the destination, unless public access is blocked; a
/// destination that is no public address of the VPC stays.
pub fn igw_in_on(f: &Fabric, v: VpcNo, m: &mut BoxMoment) -> Onward
    requires place { m.old.place ≡ places.IgwIn v }
    requires moment { (label : Label) × IsBoxMoment f.now label m.old }
    ensures { (label : Label) → IsBoxMoment f.now label m.old
        → IsStepOn f.now (appliances_of f.now) label m.old m.new result }
{
    let _ = f.network().description();
    let owner = f.edges().in_addr_on(&m.header);
    m.narrow(&owner.body);
    let place = Place::Enter(v, EnterBy::Gateway);
    let Some(own) = own_in(v, owner.told) else {
        let header = m.header;
        return send(m, place, header);
    };
    match blocked_at(f, v, own) {
        Some(stop) => Onward::Stop(stop),
        None => {
            let header = m.header.set_dst(own);
            send(m, place, header)
        }
    }
}
