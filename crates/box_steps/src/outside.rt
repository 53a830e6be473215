// Into networks that aren't described, and from there.
ghost use Rattle.std.specs.Prelude.{◌≡◌, IfSome, IsTrue};
ghost use Rattle.box_images.specs.Answers.{Answers};
ghost use Rattle.box_images.specs.Images.{IsImageOfWalk, IsValidImage, header_at};
ghost use Rattle.box_steps.specs.Cuts.{AtPlace, Standing};
ghost use Rattle.box_steps.specs.Onward.{onward_of};
ghost use Rattle.box_steps.specs.Outside.{over_sides};
ghost use Rattle.vpc_base.specs.declared.headers.Header.{Header};
ghost use Rattle.vpc_model.specs.Far.{blocks_beyond, peering_to, vpc_beside};
ghost use Rattle.vpc_model.specs.Lookup.{far_at};
ghost use Rattle.vpc_model.specs.Sound.{is_far, is_vpc};
ghost use Rattle.vpc_model.specs.Step.Far as model;
ghost use Rattle.vpc_model.specs.declared.places.Place.TheVariants as places;

use crate::onward::{Onward, onward_if, stopped};
use crate::transit::tgw_from_on;
use box_images::{Image, Part, Side};
use fabric::Fabric;
use fabric::rows::far_at;
use vpc_base::Label;
use vpc_model::{End, EnterBy, Far, FarKind, FarNo, PeerNo, Place, Stop, VpcNo};

// One thing that comes next for all headers of an image.
fn all_to(i: &Image, next: Onward) -> Part<Onward>
    ensures { result ≡ record { body = i.now.part; told = next } }
{
    Part {
        body: i.part,
        told: next,
    }
}

// By whether one side's blocks hold the sources and, where they do, the other's the destinations.
fn over_peering(
    x: PeerNo,
    source: &Part<bool>,
    destination: &Part<bool>,
    next: Onward,
) -> Part<Onward>
    ensures { result ≡ over_sides x source.now destination.now next }
{
    if source.told {
        onward_if(destination, next, Stop::PeerDestination(x))
    } else {
        Part {
            body: source.body,
            told: Onward::Stop(Stop::PeerSource(x)),
        }
    }
}

// Over a peering: from a block of the described VPC to one of the other.
fn out_by_peering(f: &Fabric, k: FarNo, far: &Far, i: &Image) -> Part<Onward>
    requires row { far.now ≡ far_at f.now k }
    requires far { IsTrue (is_far f.now k) }
    requires valid { IsValidImage i.now }
    requires walk { IsImageOfWalk i.now }
    ensures { let x = peering_to f.now far.now in let beyond = blocks_beyond f.now far.now in
        Answers (Standing f.now) (λ h. onward_of
        (model.over_half_peering f.now k x (header_at i.now h) beyond (vpc_beside f.now far.now)))
        i.now.part result }
{
    let n = f.network();
    let x = n.peering_to(far);
    let Some(v) = n.vpc_beside(far) else {
        return stopped(i, Stop::PeerNotActive(x));
    };
    let source = f.edges().is_inside_on(v, i, Side::Src);
    let destination = f
        .edges()
        .is_beyond_on(k, &i.within(&source.body), Side::Dst);
    over_peering(x, &source, &destination, Onward::Arrive(End::Far(k)))
}

// To the service of a gateway endpoint: from a block of its VPC.
fn to_service(f: &Fabric, k: FarNo, i: &Image, beside: Option<VpcNo>) -> Part<Onward>
    requires beside { IfSome beside (λ v. IsTrue (is_vpc f.now v)) }
    requires valid { IsValidImage i.now }
    requires walk { IsImageOfWalk i.now }
    ensures { Answers (Standing f.now)
        (λ h. onward_of (model.to_service f.now k (header_at i.now h) beside)) i.now.part result }
{
    let Some(v) = beside else {
        return stopped(i, Stop::FarSource(k));
    };
    let source = f.edges().is_inside_on(v, i, Side::Src);
    onward_if(&source, Onward::Arrive(End::Far(k)), Stop::FarSource(k))
}

/// Into a network that isn't described: arrived, where a peering carries the packets and a gateway endpoint serves
/// their sources.
pub fn far_out_on(f: &Fabric, k: FarNo, i: &Image) -> Part<Onward>
    requires far { IsTrue (is_far f.now k) }
    requires valid { IsValidImage i.now }
    requires walk { IsImageOfWalk i.now }
    ensures { let row = far_at f.now k in Answers (Standing f.now)
        (λ h. onward_of (model.out_by f.now k row (header_at i.now h) row.kind)) i.now.part result }
{
    let row = far_at(f, k);
    match &row.kind {
        FarKind::PrivateGateway(_) => all_to(i, Onward::Arrive(End::Far(k))),
        FarKind::Attachment(_) => all_to(i, Onward::Arrive(End::Far(k))),
        FarKind::Peering(..) => out_by_peering(f, k, row, i),
        FarKind::Endpoint(_) => to_service(f, k, i, f.network().vpc_beside(row)),
    }
}

// By a gateway of the VPC beside the network.
fn by_gateway(k: FarNo, beside: Option<VpcNo>) -> Onward
    ensures { (h : Header) → onward_of (model.in_by_gateway k h beside) ≡ result }
{
    match beside {
        Some(v) => Onward::Go(Place::Enter(v, EnterBy::Far(k))),
        None => Onward::Stop(Stop::FarDetached(k)),
    }
}

// Over a peering: from a block of the VPC that isn't described to one of the other.
fn in_by_peering(f: &Fabric, k: FarNo, far: &Far, i: &Image) -> Part<Onward>
    requires row { far.now ≡ far_at f.now k }
    requires far { IsTrue (is_far f.now k) }
    requires valid { IsValidImage i.now }
    requires walk { IsImageOfWalk i.now }
    ensures { let x = peering_to f.now far.now in let beyond = blocks_beyond f.now far.now in
        Answers (Standing f.now) (λ h. onward_of
        (model.in_by_peering f.now x (header_at i.now h) beyond (vpc_beside f.now far.now)))
        i.now.part result }
{
    let n = f.network();
    let x = n.peering_to(far);
    let Some(v) = n.vpc_beside(far) else {
        return stopped(i, Stop::PeerNotActive(x));
    };
    let source = f.edges().is_beyond_on(k, i, Side::Src);
    let destination = f
        .edges()
        .is_inside_on(v, &i.within(&source.body), Side::Dst);
    over_peering(
        x,
        &source,
        &destination,
        Onward::Go(Place::Enter(v, EnterBy::Peering(x))),
    )
}

// By a gateway endpoint, whose service sends answers alone.
fn by_endpoint(label: Label, k: FarNo, beside: Option<VpcNo>) -> Onward
    ensures { (h : Header) → onward_of (model.in_by_endpoint label k h beside) ≡ result }
{
    match label {
        Label::Opening => Onward::Stop(Stop::FarOpens(k)),
        Label::Answer => by_gateway(k, beside),
    }
}

/// From a network that isn't described.
pub fn far_in_on(f: &Fabric, label: Label, k: FarNo, i: &Image) -> Part<Onward>
    requires far { IsTrue (is_far f.now k) }
    requires valid { IsValidImage i.now }
    requires walk { IsImageOfWalk i.now }
    ensures { let row = far_at f.now k in Answers (AtPlace f.now (places.FarIn k))
        (λ h. onward_of (model.in_by f.now label k row (header_at i.now h) row.kind)) i.now.part result }
{
    let row = far_at(f, k);
    match &row.kind {
        FarKind::PrivateGateway(_) => all_to(i, by_gateway(k, f.network().vpc_beside(row))),
        FarKind::Attachment(_) => tgw_from_on(f, k, i),
        FarKind::Peering(..) => in_by_peering(f, k, row, i),
        FarKind::Endpoint(_) => all_to(i, by_endpoint(label, k, f.network().vpc_beside(row))),
    }
}
