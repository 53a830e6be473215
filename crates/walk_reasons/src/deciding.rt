// What decides at each place of a walk.
ghost use Rattle.std.specs.Prelude.{◌≡◌, ◌++◌, IfSome, IsTrue, OnOk, Some};
ghost use Rattle.vpc_model.specs.Lookup.{far_at, table_of};
ghost use Rattle.vpc_model.specs.Sound.{has_rule, is_attachment, is_entry, is_far, is_route, is_sound, is_subnet, is_table, is_tgw_table, is_vpc};
ghost use Rattle.walk_reasons.specs.Decisions.{at_entry, at_router, at_table, at_transit, by_entrance, by_group, by_route, by_tgw_table, decided_at, from_outside};
ghost use Rattle.walk_reasons.specs.Reasons.{decision_lines};

use crate::borders::{of_entrance, of_host, of_route};
use crate::judging::put_judged;
use crate::lines::put_group_line;
use crate::routes::{put_route_line, put_transit_line};
use fabric::Fabric;
use fabric::rows::far_at;
use packet_emulator::{route_of, tgw_route_of};
use reference_check::Network;
use vpc_base::{Header, NoMemory};
use vpc_model::{AttNo, By, EnterBy, FarKind, FarNo, Place, SubnetNo, TableNo, TgwTableNo, VpcNo};

// The rule of a group by which a packet passed, if one did.
fn put_by_group(out: &mut Vec<u8>, n: &Network, by: &By) -> Result<(), NoMemory>
    requires { IsTrue (has_rule n.now by.now) }
    ensures { OnOk result (out.new.items ≡ out.old.items ++ decision_lines n.now (by_group by.now)) }
{
    match by {
        By::Nothing => Ok(()),
        By::NoGroups => Ok(()),
        By::Tracked => Ok(()),
        By::Rule(r) => put_group_line(out, n, r),
    }
}

// The chosen route, and the ACLs on the way by it.
fn put_by_route(
    out: &mut Vec<u8>,
    f: &Fabric,
    s: SubnetNo,
    h: &Header,
    t: TableNo,
    k: u32,
) -> Result<(), NoMemory>
    requires subnet { IsTrue (is_subnet f.now s) }
    requires route { IsTrue (is_route f.now t k) }
    ensures { OnOk result (out.new.items ≡ out.old.items ++ decision_lines f.now (by_route f.now s h.now t (Some k))) }
{
    put_route_line(out, f, t, k)?;
    put_judged(out, f, h, of_route(f, s, h, t, k))
}

// At the router of a subnet.
fn put_at_router(out: &mut Vec<u8>, f: &Fabric, s: SubnetNo, h: &Header) -> Result<(), NoMemory>
    requires { IsTrue (is_subnet f.now s) }
    ensures { OnOk result (out.new.items ≡ out.old.items ++ decision_lines f.now (at_router f.now s h.now)) }
{
    let n = f.network();
    let _ = n.description();
    let t = n.table_of(s);
    match route_of(f, t, h.dst) {
        Some(k) => put_by_route(out, f, s, h, t, k),
        None => Ok(()),
    }
}

// By a route of the table of the gateway by which a packet enters a VPC.
fn put_by_entrance(
    out: &mut Vec<u8>,
    f: &Fabric,
    v: VpcNo,
    h: &Header,
    t: TableNo,
    k: u32,
) -> Result<(), NoMemory>
    requires vpc { IsTrue (is_vpc f.now v) }
    requires route { IsTrue (is_route f.now t k) }
    ensures { OnOk result (out.new.items ≡ out.old.items ++ decision_lines f.now (by_entrance f.now v h.now t (Some k))) }
{
    put_route_line(out, f, t, k)?;
    put_judged(out, f, h, of_entrance(f, v, h, t, k))
}

// By the table of that gateway.
fn put_at_table(
    out: &mut Vec<u8>,
    f: &Fabric,
    v: VpcNo,
    h: &Header,
    t: TableNo,
) -> Result<(), NoMemory>
    requires vpc { IsTrue (is_vpc f.now v) }
    requires table { IsTrue (is_table f.now t) }
    ensures { OnOk result (out.new.items ≡ out.old.items ++ decision_lines f.now (at_table f.now v h.now (Some t))) }
{
    match route_of(f, t, h.dst) {
        Some(k) => put_by_entrance(out, f, v, h, t, k),
        None => Ok(()),
    }
}

// Where a packet enters a VPC.
fn put_at_entry(
    out: &mut Vec<u8>,
    f: &Fabric,
    v: VpcNo,
    by: EnterBy,
    h: &Header,
) -> Result<(), NoMemory>
    requires vpc { IsTrue (is_vpc f.now v) }
    requires entry { IsTrue (is_entry f.now by) }
    ensures { OnOk result (out.new.items ≡ out.old.items ++ decision_lines f.now (at_entry f.now v by h.now)) }
{
    match f.entrance_table(v, by) {
        Some(t) => put_at_table(out, f, v, h, t),
        None => put_judged(out, f, h, of_host(f, v, h)),
    }
}

// By the table of an attachment, if it is associated with one.
fn put_by_transit(
    out: &mut Vec<u8>,
    f: &Fabric,
    table: Option<TgwTableNo>,
    h: &Header,
) -> Result<(), NoMemory>
    requires { IfSome table (λ t. IsTrue (is_tgw_table f.now t)) }
    ensures { OnOk result (out.new.items ≡ out.old.items ++ decision_lines f.now (by_tgw_table f.now h.now table)) }
{
    let Some(t) = table else {
        return Ok(());
    };
    match tgw_route_of(f, t, h.dst) {
        Some(k) => put_transit_line(out, f.network(), t, k),
        None => Ok(()),
    }
}

// From a network that isn't described.
fn put_from_outside(out: &mut Vec<u8>, f: &Fabric, k: FarNo, h: &Header) -> Result<(), NoMemory>
    requires { IsTrue (is_far f.now k) }
    ensures { let row = far_at f.now k in
        OnOk result (out.new.items ≡ out.old.items ++ decision_lines f.now (from_outside f.now h.now row row.kind)) }
{
    match &far_at(f, k).kind {
        FarKind::Attachment(_) => put_by_transit(out, f, f.table_behind(k), h),
        FarKind::PrivateGateway(_) | FarKind::Peering(..) | FarKind::Endpoint(_) => Ok(()),
    }
}

// At a transit gateway, where a packet comes by an attachment.
fn put_at_transit(out: &mut Vec<u8>, f: &Fabric, a: AttNo, h: &Header) -> Result<(), NoMemory>
    requires { IsTrue (is_attachment f.now a) }
    ensures { OnOk result (out.new.items ≡ out.old.items ++ decision_lines f.now (at_transit f.now a h.now)) }
{
    put_by_transit(out, f, f.transit().table_of(a), h)
}

/// Appends what decides at a place of a packet with this header, which passed groups by this.
pub fn put_decided_at(
    out: &mut Vec<u8>,
    f: &Fabric,
    h: &Header,
    by: &By,
    place: Place,
) -> Result<(), NoMemory>
    requires place { IsTrue (is_sound f.now place) }
    requires rule { IsTrue (has_rule f.now by.now) }
    ensures { OnOk result (out.new.items ≡ out.old.items ++ decision_lines f.now (decided_at f.now h.now by.now place)) }
{
    match place {
        Place::OutOf(_) => put_by_group(out, f.network(), by),
        Place::Router(s, _) => put_at_router(out, f, s, h),
        Place::Enter(v, entry) => put_at_entry(out, f, v, entry, h),
        Place::Into(_) => put_by_group(out, f.network(), by),
        Place::IgwOut(_) => Ok(()),
        Place::Internet => Ok(()),
        Place::IgwIn(_) => Ok(()),
        Place::NatOut(_) => Ok(()),
        Place::NatIn(_) => Ok(()),
        Place::Peer(_, _) => Ok(()),
        Place::Tgw(a, _) => put_at_transit(out, f, a, h),
        Place::TgwLeave(_, _) => Ok(()),
        Place::FarOut(_) => Ok(()),
        Place::FarIn(k) => put_from_outside(out, f, k, h),
        Place::Inspect(_) => Ok(()),
    }
}
