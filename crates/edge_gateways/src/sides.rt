// The two VPCs of a peering, by their numbers.
ghost use Rattle.std.specs.Prelude.{◌≡◌, IfOk, map};
ghost use Rattle.edge_gateways.specs.Sides.{sides_by, sides_of};

use reference_check::Network;
use std::alloc::{AllocError, Global};
use vpc_model::{Id, Peering, VpcNo};

/// The two VPCs of an active peering.
#[derive(Clone, Copy, PartialEq, Eq)]
pub struct Sides {
    pub one: VpcNo,
    pub other: VpcNo,
}

// None unless both are described.
fn sides_by(n: &Network, pair: &(Id, Id)) -> Option<Sides>
    ensures { result ≡ sides_by n.now pair.now }
{
    let one = n.vpc(pair.0.bytes())?;
    let other = n.vpc(pair.1.bytes())?;
    Some(Sides { one, other })
}

fn sides_of(n: &Network, peering: &Peering) -> Option<Sides>
    ensures { result ≡ sides_of n.now peering.now }
{
    match &peering.pair {
        Some(pair) => sides_by(n, pair),
        None => None,
    }
}

/// The sides of each peering, where it is active and both VPCs are described.
pub fn all_sides(alloc: Global, n: &Network) -> Result<Vec<Option<Sides>>, AllocError>
    ensures { IfOk result (λ v. v.items ≡ map (sides_of n.now) n.now.peerings) }
{
    let mut sides = Vec::new(alloc);
    for peering in n.description().peerings.as_slice() {
        sides.push(sides_of(n, peering))?;
    }
    Ok(sides)
}
