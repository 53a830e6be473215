// Networks that aren't described, by their ids.
ghost use Rattle.std.specs.Prelude.{◌≡◌};
ghost use Rattle.described_hosts.specs.Outside.{far_id};

use reference_check::Network;
use vpc_model::FarNo;

/// The id of what leads to a network; none where there is no such one.
pub fn far_id<'a>(n: &'a Network, k: FarNo) -> &'a [u8]
    ensures { result.now ≡ far_id n.now k }
{
    match n.description().fars.as_slice().get(k.0 as usize) {
        Some(far) => far.id.bytes(),
        None => &[],
    }
}
