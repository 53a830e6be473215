// Into networks that aren't described, and from there.
ghost use Rattle.std.specs.Prelude.{◌≡◌, IfSome, IsTrue};
ghost use Rattle.packet_emulator.specs.Comes.{comes};
ghost use Rattle.vpc_model.specs.Far.{blocks_beyond, peering_to, vpc_beside};
ghost use Rattle.vpc_model.specs.Lookup.{far_at};
ghost use Rattle.vpc_model.specs.Sound.{is_far, is_vpc};
ghost use Rattle.vpc_model.specs.Step.Far as model;

use crate::next::Next;
use crate::transit::tgw_from;
use fabric::Fabric;
use fabric::rows::far_at;
use vpc_base::{Header, Label};
use vpc_model::{End, EnterBy, Far, FarKind, FarNo, Place, Stop, VpcNo};

// Over a peering: from a block of the described VPC to one of the other.
fn over_peering(f: &Fabric, k: FarNo, far: &Far, h: &Header) -> Next
    requires row { far.now ≡ far_at f.now k }
    requires far { IsTrue (is_far f.now k) }
    ensures { comes result ≡ model.over_half_peering f.now k (peering_to f.now far.now) h.now
        (blocks_beyond f.now far.now) (vpc_beside f.now far.now) }
{
    let n = f.network();
    let x = n.peering_to(far);
    let Some(v) = n.vpc_beside(far) else {
        return Next::Stop(Stop::PeerNotActive(x));
    };
    if !f.edges().is_inside(v, h.src) {
        Next::Stop(Stop::PeerSource(x))
    } else if !f.edges().is_beyond(k, h.dst) {
        Next::Stop(Stop::PeerDestination(x))
    } else {
        Next::Arrive(End::Far(k))
    }
}

// To the service of a gateway endpoint: from a block of its VPC.
fn to_service(f: &Fabric, k: FarNo, h: &Header, beside: Option<VpcNo>) -> Next
    requires { IfSome beside (λ v. IsTrue (is_vpc f.now v)) }
    ensures { comes result ≡ model.to_service f.now k h.now beside }
{
    match beside {
        Some(v) => {
            if f.edges().is_inside(v, h.src) {
                Next::Arrive(End::Far(k))
            } else {
                Next::Stop(Stop::FarSource(k))
            }
        }
        None => Next::Stop(Stop::FarSource(k)),
    }
}

/// Into a network that isn't described: arrived, where a peering carries the packet and a gateway endpoint serves its
/// source.
pub fn far_out(f: &Fabric, k: FarNo, h: &Header) -> Next
    requires { IsTrue (is_far f.now k) }
    ensures { let row = far_at f.now k in comes result ≡ model.out_by f.now k row h.now row.kind }
{
    let row = far_at(f, k);
    match &row.kind {
        FarKind::PrivateGateway(_) => Next::Arrive(End::Far(k)),
        FarKind::Attachment(_) => Next::Arrive(End::Far(k)),
        FarKind::Peering(..) => over_peering(f, k, row, h),
        FarKind::Endpoint(_) => to_service(f, k, h, f.network().vpc_beside(row)),
    }
}

// By a gateway of the VPC beside the network.
fn by_gateway(k: FarNo, h: &Header, beside: Option<VpcNo>) -> Next
    ensures { comes result ≡ model.in_by_gateway k h.now beside }
{
    match beside {
        Some(v) => Next::Go(Place::Enter(v, EnterBy::Far(k)), *h),
        None => Next::Stop(Stop::FarDetached(k)),
    }
}

// Over a peering: from a block of the VPC that isn't described to one of the other.
fn by_peering(f: &Fabric, k: FarNo, far: &Far, h: &Header) -> Next
    requires row { far.now ≡ far_at f.now k }
    requires far { IsTrue (is_far f.now k) }
    ensures { comes result ≡ model.in_by_peering f.now (peering_to f.now far.now) h.now
        (blocks_beyond f.now far.now) (vpc_beside f.now far.now) }
{
    let n = f.network();
    let x = n.peering_to(far);
    let Some(v) = n.vpc_beside(far) else {
        return Next::Stop(Stop::PeerNotActive(x));
    };
    if !f.edges().is_beyond(k, h.src) {
        Next::Stop(Stop::PeerSource(x))
    } else if !f.edges().is_inside(v, h.dst) {
        Next::Stop(Stop::PeerDestination(x))
    } else {
        Next::Go(Place::Enter(v, EnterBy::Peering(x)), *h)
    }
}

// By a gateway endpoint, whose service sends answers alone.
fn by_endpoint(label: Label, k: FarNo, h: &Header, beside: Option<VpcNo>) -> Next
    ensures { comes result ≡ model.in_by_endpoint label k h.now beside }
{
    match label {
        Label::Opening => Next::Stop(Stop::FarOpens(k)),
        Label::Answer => by_gateway(k, h, beside),
    }
}

/// From a network that isn't described.
pub fn far_in(f: &Fabric, label: Label, k: FarNo, h: &Header) -> Next
    requires { IsTrue (is_far f.now k) }
    ensures { let row = far_at f.now k in comes result ≡ model.in_by f.now label k row h.now row.kind }
{
    let row = far_at(f, k);
    match &row.kind {
        FarKind::PrivateGateway(_) => by_gateway(k, h, f.network().vpc_beside(row)),
        FarKind::Attachment(_) => tgw_from(f, k, h),
        FarKind::Peering(..) => by_peering(f, k, row, h),
        FarKind::Endpoint(_) => by_endpoint(label, k, h, f.network().vpc_beside(row)),
    }
}
