// Places and ends by kind and id.
ghost use Rattle.std.specs.Prelude.{◌≡◌, IsTrue};
ghost use Rattle.block_report.specs.Hops.{place_kind};
ghost use Rattle.vpc_model.specs.Id.{is_id};
ghost use Rattle.vpc_model.specs.Sound.{has_gateway, is_end, is_sound};
ghost use Rattle.vpc_model.specs.Told.{end_id, gateway_id, place_id};

use reference_check::Network;
use vpc_model::{End, Place, VpcNo};

pub fn place_kind(p: &Place) -> &'static [u8]
    ensures { result.now ≡ place_kind p.now }
{
    match p {
        Place::OutOf(_) => b"out",
        Place::Router(_, _) => b"router",
        Place::Enter(_, _) => b"enter",
        Place::Into(_) => b"in",
        Place::IgwOut(_) => b"igw-out",
        Place::Internet => b"internet",
        Place::IgwIn(_) => b"igw-in",
        Place::NatOut(_) => b"nat-out",
        Place::NatIn(_) => b"nat-in",
        Place::Peer(_, _) => b"peer",
        Place::Tgw(_, _) => b"tgw",
        Place::TgwLeave(_, _) => b"tgw-leave",
        Place::FarOut(_) => b"far-out",
        Place::FarIn(_) => b"far-in",
        Place::Inspect(_) => b"inspect",
    }
}

// The id of the internet gateway that is attached to a VPC.
fn gateway_id<'a>(n: &'a Network, v: VpcNo) -> &'a [u8]
    requires { IsTrue (has_gateway n.now v) }
    ensures value { result.now ≡ gateway_id n.now v }
    ensures visible { IsTrue (is_id result.now) }
{
    match n.gateway_of(v) {
        Some(g) => n.igw_at(g).id.bytes(),
        None => unreachable!(),
    }
}

pub fn place_id<'a>(n: &'a Network, p: &Place) -> &'a [u8]
    requires { IsTrue (is_sound n.now p.now) }
    ensures value { result.now ≡ place_id n.now p.now }
    ensures visible { IsTrue (is_id result.now) }
{
    match *p {
        Place::OutOf(i) => n.interface_at(i).id.bytes(),
        Place::Router(s, _) => n.subnet_at(s).id.bytes(),
        Place::Enter(v, _) => n.vpc_at(v).id.bytes(),
        Place::Into(i) => n.interface_at(i).id.bytes(),
        Place::IgwOut(v) => gateway_id(n, v),
        Place::Internet => b"internet",
        Place::IgwIn(v) => gateway_id(n, v),
        Place::NatOut(g) => n.nat_at(g).id.bytes(),
        Place::NatIn(g) => n.nat_at(g).id.bytes(),
        Place::Peer(x, _) => n.peering_at(x).id.bytes(),
        Place::Tgw(a, _) => n.attachment_at(a).id.bytes(),
        Place::TgwLeave(a, _) => n.attachment_at(a).id.bytes(),
        Place::FarOut(k) => n.far_at(k).id.bytes(),
        Place::FarIn(k) => n.far_at(k).id.bytes(),
        Place::Inspect(e) => n.firewall_at(e).id.bytes(),
    }
}

/// The id of an end: that of its interface or of what leads to its network, or `internet`.
pub fn end_id<'a>(n: &'a Network, end: &End) -> &'a [u8]
    requires { IsTrue (is_end n.now end.now) }
    ensures value { result.now ≡ end_id n.now end.now }
    ensures visible { IsTrue (is_id result.now) }
{
    match *end {
        End::Interface(i) => n.interface_at(i).id.bytes(),
        End::Internet => b"internet",
        End::Far(k) => n.far_at(k).id.bytes(),
    }
}
