// A peering.
ghost use Rattle.std.specs.Prelude.{◌≡◌, IsTrue};
ghost use Rattle.vpc_model.specs.Lookup.{peering_at};
ghost use Rattle.vpc_model.specs.Sound.{is_sound};
ghost use Rattle.vpc_model.specs.Step.Peering.{by_pair};
ghost use Rattle.vpc_model.specs.declared.places.Place.TheVariants as places;
ghost use Rattle.packet_emulator.specs.Comes.{comes};

use crate::next::Next;
use edge_gateways::Carry;
use fabric::Fabric;
use fabric::rows::far_vpc;
use vpc_base::Header;
use vpc_model::{EnterBy, PeerNo, Place, Stop, VpcNo};

/// Over a peering: from a block of the one VPC to a block of the other, and no further (VPC Peering Guide,
/// "Unsupported VPC peering configurations").
pub fn peer(f: &Fabric, x: PeerNo, v: VpcNo, h: &Header) -> Next
    requires { IsTrue (is_sound f.now (places.Peer x v)) }
    ensures { let row = peering_at f.now x in comes result ≡ by_pair f.now x v h.now row.pair }
{
    // In a sound place the other VPC is described where the peering is active.
    let Some(other) = far_vpc(f, x, v) else {
        return Next::Stop(Stop::PeerNotActive(x));
    };
    match f.edges().carries(x, v, h) {
        Carry::BadSource => Next::Stop(Stop::PeerSource(x)),
        Carry::BadDestination => Next::Stop(Stop::PeerDestination(x)),
        Carry::Yes => Next::Go(Place::Enter(other, EnterBy::Peering(x)), *h),
    }
}
