// A transit gateway.
ghost use Rattle.std.specs.Prelude.{◌≡◌, ◌<◌, IfSome, IsTrue, Some, length};
ghost use Rattle.box_images.specs.Answers.{Answers};
ghost use Rattle.box_images.specs.Images.{IsImageOfWalk, IsValidImage, header_at};
ghost use Rattle.box_steps.specs.Cuts.{AtPlace};
ghost use Rattle.box_steps.specs.Onward.{onward_of};
ghost use Rattle.transit_gateway.specs.Index.{routes_of};
ghost use Rattle.vpc_base.specs.declared.headers.Header.{Header};
ghost use Rattle.box_steps.specs.Outside.{IsAttachment};
ghost use Rattle.vpc_model.specs.Far.{far_end_of_id, table_of_attachment_id};
ghost use Rattle.vpc_model.specs.Lookup.{attachment_at, attachment_of_id, far_at};
ghost use Rattle.vpc_model.specs.Sound.{is_attachment, is_far, is_subnet, is_tgw_table};
ghost use Rattle.vpc_model.specs.Step.Far.{in_by_attachment};
ghost use Rattle.vpc_model.specs.Step.Transit as model;
ghost use Rattle.vpc_model.specs.Transit.{first_described, leave_subnet, table_of_attachment};
ghost use Rattle.vpc_model.specs.declared.places.Place.TheVariants as places;

use crate::choosing::{tgw_route_from, tgw_route_on};
use crate::onward::{Onward, stopped};
use box_images::{Image, Part};
use fabric::Fabric;
use vpc_model::{AttNo, Came, FarNo, Foreign, Id, Place, Stop, SubnetNo, TgwTableNo};

// The first subnet of an attachment, where it is described.
fn first_subnet(f: &Fabric, a: AttNo) -> Option<SubnetNo>
    requires { IsTrue (is_attachment f.now a) }
    ensures { let row = attachment_at f.now a in result ≡ first_described f.now row.subnets }
{
    let id = f.network().attachment_at(a).subnets.as_slice().first()?;
    f.network().subnet(id.bytes())
}

// Out by an attachment: to leave by the zone of the subnet where the packets entered. Those that entered through none leave as if
// through the attachment's first subnet.
fn to_leave(f: &Fabric, a: AttNo, entered: Option<SubnetNo>) -> Onward
    requires { IsTrue (is_attachment f.now a) }
    ensures { (h : Header) → onward_of (model.to_leave f.now h a entered) ≡ result }
{
    let entered = match entered {
        Some(s) => Some(s),
        None => first_subnet(f, a),
    };
    match entered {
        Some(s) => Onward::Go(Place::TgwLeave(a, s)),
        None => Onward::Stop(Stop::Unmodelled(Foreign::Attachment(a))),
    }
}

// Out to a VPC by its attachment, where one is described.
fn to_attachment(f: &Fabric, t: TgwTableNo, k: u32, id: &Id, entered: Option<SubnetNo>) -> Onward
    ensures { (h : Header) → onward_of (model.to_attachment f.now entered h t k (attachment_of_id f.now id.now)) ≡ result }
{
    match f.network().attachment(id.bytes()) {
        Some(a) => to_leave(f, a, entered),
        None => Onward::Stop(Stop::Unmodelled(Foreign::FarAttachment(t, k))),
    }
}

// Into the network behind an attachment, else to a VPC.
fn to_attached(f: &Fabric, t: TgwTableNo, k: u32, id: &Id, entered: Option<SubnetNo>) -> Onward
    ensures { (h : Header) → onward_of (model.to_attached f.now entered h t k id.now (far_end_of_id f.now id.now)) ≡ result }
{
    match f.network().far_end(id.bytes()) {
        Some(far) => Onward::Go(Place::FarOut(far)),
        None => to_attachment(f, t, k, id, entered),
    }
}

// By a route of a table; a blackhole stops all packets.
fn by_route(f: &Fabric, t: TgwTableNo, k: u32, entered: Option<SubnetNo>) -> Onward
    requires table { IsTrue (is_tgw_table f.now t) }
    requires route { k < length (routes_of f.now t) }
    ensures { (h : Header) → onward_of (model.by_tgw_route f.now entered h t (Some k)) ≡ result }
{
    let route = &f.network().description().tgw_tables.as_slice()[t.0 as usize]
        .routes
        .as_slice()[k as usize];
    if route.blackhole {
        return Onward::Stop(Stop::TgwBlackhole(t, k));
    }
    let Some(id) = &route.attachment else {
        return Onward::Stop(Stop::Unmodelled(Foreign::Table(t)));
    };
    to_attached(f, t, k, id, entered)
}

// By the chosen route, if there is one.
fn by_choice(f: &Fabric, t: TgwTableNo, chosen: Option<u32>, entered: Option<SubnetNo>) -> Onward
    requires table { IsTrue (is_tgw_table f.now t) }
    requires route { IfSome chosen (λ k. k < length (routes_of f.now t)) }
    ensures { (h : Header) → onward_of (model.by_tgw_route f.now entered h t chosen) ≡ result }
{
    match chosen {
        Some(k) => by_route(f, t, k, entered),
        None => Onward::Stop(Stop::TgwNoRoute(t)),
    }
}

/// Into a transit gateway, by the table of the attachment.
pub fn tgw_on(f: &Fabric, a: AttNo, entered: SubnetNo, i: &Image) -> Part<Onward>
    requires attachment { IsTrue (is_attachment f.now a) }
    requires valid { IsValidImage i.now }
    requires walk { IsImageOfWalk i.now }
    ensures { let table = table_of_attachment f.now a in
        Answers (AtPlace f.now (places.Tgw a entered))
        (λ h. onward_of (model.by_tgw_table f.now a entered (header_at i.now h) table))
        i.now.part result }
{
    let _ = f.network().description();
    let Some(t) = f.transit().table_of(a) else {
        return stopped(i, Stop::TgwNoTable(a));
    };
    let chosen = tgw_route_on(f, a, t, i);
    Part {
        body: chosen.body,
        told: by_choice(f, t, chosen.told, Some(entered)),
    }
}

/// Into a transit gateway from a network that isn't described, by the table of its attachment.
pub fn tgw_from_on(f: &Fabric, k: FarNo, i: &Image) -> Part<Onward>
    requires far { IsTrue (is_far f.now k) }
    requires attachment { let row = far_at f.now k in IsAttachment row.kind }
    requires valid { IsValidImage i.now }
    requires walk { IsImageOfWalk i.now }
    ensures { let row = far_at f.now k in let table = table_of_attachment_id f.now row.id in
        Answers (AtPlace f.now (places.FarIn k))
        (λ h. onward_of (in_by_attachment f.now k (header_at i.now h) table)) i.now.part result }
{
    let _ = f.network().description();
    let Some(t) = f.table_behind(k) else {
        return stopped(i, Stop::FarNoTable(k));
    };
    let chosen = tgw_route_from(f, k, t, i);
    Part {
        body: chosen.body,
        told: by_choice(f, t, chosen.told, None),
    }
}

/// Out of a transit gateway, to the router of the subnet by which packets leave. All of them come to
/// the same place.
pub fn tgw_leave_to(f: &Fabric, a: AttNo, entered: SubnetNo) -> Onward
    requires attachment { IsTrue (is_attachment f.now a) }
    requires subnet { IsTrue (is_subnet f.now entered) }
    ensures { (h : Header) → onward_of (model.leave_by a h (leave_subnet f.now a entered)) ≡ result }
{
    match f.transit().leave(a, entered) {
        Some(s) => Onward::Go(Place::Router(s, Came::Transit(a))),
        None => Onward::Stop(Stop::Unmodelled(Foreign::Attachment(a))),
    }
}
