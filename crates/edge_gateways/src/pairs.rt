// The private and public addresses of interfaces.
ghost use Rattle.std.specs.Prelude.{◌≡◌, ◌++◌, ◌<◌, ◌^◌, All, IfOk, OnOk, map};
ghost use Rattle.vpc_model.specs.Internet.{pair_of};
ghost use Rattle.std.specs.List.{filter_map};
ghost use Rattle.edge_gateways.specs.Pairs.{all_pairs, in_vpc, pair_in};

use reference_check::Network;
use std::alloc::{AllocError, Global};
use vpc_model::VpcNo;

/// Whose a public address is: a VPC, and a private address in it.
#[derive(Clone, Copy, PartialEq, Eq)]
pub struct Owner {
    pub vpc: VpcNo,
    pub own: u32,
}

/// A public address with its owner.
#[derive(Clone, Copy, Drop)]
pub struct Pair {
    pub owner: Owner,
    pub public: u32,
}

// Adds an address where it has a public one.
fn add_pair(
    pairs: &mut Vec<Pair>,
    vpc: VpcNo,
    own: u32,
    public: Option<u32>,
) -> Result<(), AllocError>
    ensures added { OnOk result
        (pairs.new.items ≡ pairs.old.items ++ pair_in vpc (own, public)) }
    ensures fit { All (λ p. p.owner.own < 2 ^ 32) pairs.old.items
        → OnOk result (All (λ p. p.owner.own < 2 ^ 32) pairs.new.items) }
{
    match public {
        Some(public) => {
            let owner = Owner { vpc, own };
            pairs.push(Pair { owner, public })?;
            Ok(())
        }
        None => Ok(()),
    }
}

// Adds the pairs of an interface in a VPC.
fn add_pairs(
    pairs: &mut Vec<Pair>,
    vpc: VpcNo,
    addresses: &[(u32, Option<u32>)],
) -> Result<(), AllocError>
    ensures added { OnOk result
        (pairs.new.items ≡ pairs.old.items ++ map (in_vpc vpc) (filter_map pair_of addresses.now)) }
    ensures fit { All (λ p. p.owner.own < 2 ^ 32) pairs.old.items
        → OnOk result (All (λ p. p.owner.own < 2 ^ 32) pairs.new.items) }
{
    for address in addresses {
        add_pair(pairs, vpc, address.0, address.1)?;
    }
    Ok(())
}

/// The pairs of all interfaces, in their order.
pub fn pairs_of(alloc: Global, n: &Network) -> Result<Vec<Pair>, AllocError>
    ensures pairs { IfOk result (λ v. v.items ≡ all_pairs n.now) }
    ensures fit { IfOk result (λ v. All (λ p. p.owner.own < 2 ^ 32) v.items) }
{
    let mut pairs = Vec::new(alloc);
    for interface in n.description().interfaces.as_slice() {
        let vpc = n.vpc_of_interface(interface);
        add_pairs(&mut pairs, vpc, interface.addresses.as_slice())?;
    }
    Ok(pairs)
}
