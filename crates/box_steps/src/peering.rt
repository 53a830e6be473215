// A peering.
ghost use Rattle.std.specs.Prelude.{◌≡◌, IsTrue};
ghost use Rattle.box_images.specs.Answers.{Answers};
ghost use Rattle.box_images.specs.Images.{IsImageOfWalk, IsValidImage, header_at};
ghost use Rattle.box_steps.specs.Cuts.{Standing};
ghost use Rattle.box_steps.specs.Onward.{after_carry, onward_of};
ghost use Rattle.vpc_model.specs.Lookup as model;
ghost use Rattle.vpc_model.specs.Sound.{is_sound};
ghost use Rattle.vpc_model.specs.Step.Peering.{by_pair};
ghost use Rattle.vpc_model.specs.declared.places.Place.TheVariants as places;

use crate::onward::{Onward, stopped};
use box_images::{Image, Part};
use edge_gateways::Carry;
use fabric::Fabric;
use fabric::rows::far_vpc;
use vpc_model::{EnterBy, PeerNo, Place, Stop, VpcNo};

// By what the peering carries into the other VPC.
fn after_carry(x: PeerNo, other: VpcNo, carry: Carry) -> Onward
    ensures { result ≡ after_carry x other carry }
{
    match carry {
        Carry::BadSource => Onward::Stop(Stop::PeerSource(x)),
        Carry::BadDestination => Onward::Stop(Stop::PeerDestination(x)),
        Carry::Yes => Onward::Go(Place::Enter(other, EnterBy::Peering(x))),
    }
}

/// Over a peering: from a block of the one VPC to a block of the other, and no further (VPC Peering
/// Guide, "Unsupported VPC peering configurations").
pub fn peer_on(f: &Fabric, x: PeerNo, v: VpcNo, i: &Image) -> Part<Onward>
    requires sound { IsTrue (is_sound f.now (places.Peer x v)) }
    requires valid { IsValidImage i.now }
    requires walk { IsImageOfWalk i.now }
    ensures { let row = model.peering_at f.now x in Answers (Standing f.now)
        (λ h. onward_of (by_pair f.now x v (header_at i.now h) row.pair)) i.now.part result }
{
    // In a sound place the other VPC is described where the peering is active.
    let Some(other) = far_vpc(f, x, v) else {
        return stopped(i, Stop::PeerNotActive(x));
    };
    let carry = f.edges().carries_on(x, v, i);
    Part {
        body: carry.body,
        told: after_carry(x, other, carry.told),
    }
}
