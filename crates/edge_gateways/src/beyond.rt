// The blocks of networks that aren't described.
ghost use Rattle.std.specs.Prelude.{◌≡◌, IfOk};
ghost use Rattle.std.specs.List.{AllZip};
ghost use Rattle.vpc_model.specs.Far.{blocks_beyond, blocks_of_other, peering_to};
ghost use Rattle.vpc_model.specs.Lookup.{peering_at};
ghost use Rattle.edge_gateways.specs.FarBlocks.{HasBlocksBeyond};

use address_sets::AddressSet;
use prefix_text::Prefix;
use reference_check::Network;
use std::alloc::{AllocError, Global};
use vpc_model::{Far, FarKind, Id};

// Of the blocks of a peering's two sides those of the VPC that isn't described.
fn blocks_of_other<'a>(
    n: &Network,
    pair: &Option<(Id, Id)>,
    requester: &'a [Prefix],
    accepter: &'a [Prefix],
) -> &'a [Prefix]
    ensures { result.now ≡ blocks_of_other n.now pair.now requester.now accepter.now }
{
    match pair {
        Some(pair) => match n.vpc(pair.0.bytes()) {
            Some(_) => accepter,
            None => requester,
        },
        None => &[],
    }
}

fn blocks_over<'a>(
    n: &Network,
    far: &Far,
    requester: &'a [Prefix],
    accepter: &'a [Prefix],
) -> &'a [Prefix]
    ensures { let x = peering_at n.now (peering_to n.now far.now) in
        result.now ≡ blocks_of_other n.now x.pair requester.now accepter.now }
{
    match n.peering(far.id.bytes()) {
        Some(x) => blocks_of_other(n, &n.peering_at(x).pair, requester, accepter),
        None => &[],
    }
}

// The blocks of a network, as far as they are told.
fn blocks_beyond<'a>(n: &Network, far: &'a Far) -> &'a [Prefix]
    ensures { result.now ≡ blocks_beyond n.now far.now }
{
    match &far.kind {
        FarKind::Peering(requester, accepter) => {
            blocks_over(n, far, requester.as_slice(), accepter.as_slice())
        }
        FarKind::PrivateGateway(_) => &[],
        FarKind::Attachment(_) => &[],
        FarKind::Endpoint(_) => &[],
    }
}

/// The addresses of each network's blocks, as far as they are told.
pub fn beyond_of(alloc: Global, n: &Network) -> Result<Vec<AddressSet>, AllocError>
    ensures { IfOk result (λ v. AllZip (HasBlocksBeyond n.now) n.now.fars v.items) }
{
    let fars = n.description().fars.as_slice();
    let mut sets = Vec::with_capacity(alloc, fars.len())?;
    for far in fars {
        sets.push(AddressSet::of_blocks(alloc, blocks_beyond(n, far))?)?;
    }
    Ok(sets)
}
