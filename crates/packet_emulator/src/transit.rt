// A transit gateway.
ghost use Rattle.std.specs.Prelude.{◌≡◌, ◌<◌, IsTrue, Some, length};
ghost use Rattle.vpc_model.specs.Lookup.{attachment_at, attachment_of_id, far_at};
ghost use Rattle.vpc_model.specs.Far.{far_end_of_id, table_of_attachment_id};
ghost use Rattle.vpc_model.specs.Sound.{is_attachment, is_far, is_subnet, is_tgw_table};
ghost use Rattle.vpc_model.specs.Step.Far.{in_by_attachment};
ghost use Rattle.vpc_model.specs.Step.Transit.{by_tgw_route, by_tgw_table, leave_by, to_attached, to_attachment, to_leave};
ghost use Rattle.vpc_model.specs.Transit.{chosen_tgw_route, first_described, leave_subnet, table_of_attachment};
ghost use Rattle.transit_gateway.specs.Index.{routes_of};
ghost use Rattle.packet_emulator.specs.Comes.{comes};

use crate::choosing::tgw_route_of;
use crate::next::Next;
use fabric::Fabric;
use vpc_base::Header;
use vpc_model::{AttNo, Came, FarNo, Foreign, Id, Place, Stop, SubnetNo, TgwTableNo};

// The first subnet of an attachment, where it is described.
fn first_subnet(f: &Fabric, a: AttNo) -> Option<SubnetNo>
    requires { IsTrue (is_attachment f.now a) }
    ensures { let row = attachment_at f.now a in result ≡ first_described f.now row.subnets }
{
    let id = f.network().attachment_at(a).subnets.as_slice().first()?;
    f.network().subnet(id.bytes())
}

// Out by an attachment: to leave by the zone of the subnet where the packet entered. One that entered through none leaves as if
// through the attachment's first subnet.
fn to_leave(f: &Fabric, h: &Header, a: AttNo, entered: Option<SubnetNo>) -> Next
    requires { IsTrue (is_attachment f.now a) }
    ensures { comes result ≡ to_leave f.now h.now a entered }
{
    let entered = match entered {
        Some(s) => Some(s),
        None => first_subnet(f, a),
    };
    match entered {
        Some(s) => Next::Go(Place::TgwLeave(a, s), *h),
        None => Next::Stop(Stop::Unmodelled(Foreign::Attachment(a))),
    }
}

// Out to a VPC by its attachment, where one is described.
fn to_attachment(
    f: &Fabric,
    t: TgwTableNo,
    k: u32,
    id: &Id,
    entered: Option<SubnetNo>,
    h: &Header,
) -> Next
    ensures { comes result ≡ to_attachment f.now entered h.now t k (attachment_of_id f.now id.now) }
{
    match f.network().attachment(id.bytes()) {
        Some(a) => to_leave(f, h, a, entered),
        None => Next::Stop(Stop::Unmodelled(Foreign::FarAttachment(t, k))),
    }
}

// Into the network behind an attachment, else to a VPC.
fn to_attached(
    f: &Fabric,
    t: TgwTableNo,
    k: u32,
    id: &Id,
    entered: Option<SubnetNo>,
    h: &Header,
) -> Next
    ensures { comes result ≡ to_attached f.now entered h.now t k id.now (far_end_of_id f.now id.now) }
{
    match f.network().far_end(id.bytes()) {
        Some(far) => Next::Go(Place::FarOut(far), *h),
        None => to_attachment(f, t, k, id, entered, h),
    }
}

// By a route of a table; a blackhole stops the packet.
fn by_route(f: &Fabric, t: TgwTableNo, k: u32, entered: Option<SubnetNo>, h: &Header) -> Next
    requires table { IsTrue (is_tgw_table f.now t) }
    requires route { k < length (routes_of f.now t) }
    ensures { comes result ≡ by_tgw_route f.now entered h.now t (Some k) }
{
    let route = &f.network().description().tgw_tables.as_slice()[t.0 as usize]
        .routes
        .as_slice()[k as usize];
    if route.blackhole {
        return Next::Stop(Stop::TgwBlackhole(t, k));
    }
    let Some(id) = &route.attachment else {
        return Next::Stop(Stop::Unmodelled(Foreign::Table(t)));
    };
    to_attached(f, t, k, id, entered, h)
}

// By the route that a table chooses.
fn by_table(f: &Fabric, t: TgwTableNo, entered: Option<SubnetNo>, h: &Header) -> Next
    requires { IsTrue (is_tgw_table f.now t) }
    ensures { comes result ≡ by_tgw_route f.now entered h.now t (chosen_tgw_route (routes_of f.now t) h.now.dst) }
{
    match tgw_route_of(f, t, h.dst) {
        Some(k) => by_route(f, t, k, entered, h),
        None => Next::Stop(Stop::TgwNoRoute(t)),
    }
}

/// Into a transit gateway from a VPC, by the table of the attachment.
pub fn tgw(f: &Fabric, a: AttNo, entered: SubnetNo, h: &Header) -> Next
    requires { IsTrue (is_attachment f.now a) }
    ensures { comes result ≡ by_tgw_table f.now a entered h.now (table_of_attachment f.now a) }
{
    match f.transit().table_of(a) {
        Some(t) => by_table(f, t, Some(entered), h),
        None => Next::Stop(Stop::TgwNoTable(a)),
    }
}

/// Into a transit gateway from a network that isn't described, by the table of its attachment.
pub fn tgw_from(f: &Fabric, k: FarNo, h: &Header) -> Next
    requires { IsTrue (is_far f.now k) }
    ensures { let row = far_at f.now k in
        comes result ≡ in_by_attachment f.now k h.now (table_of_attachment_id f.now row.id) }
{
    match f.table_behind(k) {
        Some(t) => by_table(f, t, None, h),
        None => Next::Stop(Stop::FarNoTable(k)),
    }
}

/// Out of a transit gateway, to the router of the subnet by which the packet leaves.
pub fn tgw_leave(f: &Fabric, a: AttNo, entered: SubnetNo, h: &Header) -> Next
    requires attachment { IsTrue (is_attachment f.now a) }
    requires subnet { IsTrue (is_subnet f.now entered) }
    ensures { comes result ≡ leave_by a h.now (leave_subnet f.now a entered) }
{
    match f.transit().leave(a, entered) {
        Some(s) => Next::Go(Place::Router(s, Came::Transit(a)), *h),
        None => Next::Stop(Stop::Unmodelled(Foreign::Attachment(a))),
    }
}
