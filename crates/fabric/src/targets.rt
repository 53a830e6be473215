// The numbers of what routes lead to.
ghost use Rattle.std.specs.Prelude.{◌≡◌, IfOk};
ghost use Rattle.vpc_model.specs.Lookup.{eni_no, igw_no, nat_no, peer_no};
ghost use Rattle.fabric.specs.Targets.{target_number, targets_in, targets_of};

use reference_check::Network;
use std::alloc::{AllocError, Global};
use vpc_base::OwnList;
use vpc_model::{Id, RouteTable, Target};

// The number of an internet gateway: of one that isn't described, as only a blackhole names it, how many
// there are.
fn igw_number(n: &Network, id: &Id) -> u32
    ensures { let g = igw_no n.now id.now in result ≡ g.0 }
{
    match n.igw(id.bytes()) {
        Some(g) => g.0,
        None => n.description().igws.as_slice().len() as u32,
    }
}

// The number of a NAT gateway, likewise.
fn nat_number(n: &Network, id: &Id) -> u32
    ensures { let k = nat_no n.now id.now in result ≡ k.0 }
{
    match n.nat(id.bytes()) {
        Some(k) => k.0,
        None => n.description().nats.as_slice().len() as u32,
    }
}

// The number of an interface, likewise.
fn eni_number(n: &Network, id: &Id) -> u32
    ensures { let i = eni_no n.now id.now in result ≡ i.0 }
{
    match n.eni(id.bytes()) {
        Some(i) => i.0,
        None => n.description().interfaces.as_slice().len() as u32,
    }
}

fn target_number(n: &Network, target: &Target) -> u32
    ensures { result ≡ target_number n.now target.now }
{
    match target {
        Target::Internet(id) => igw_number(n, id),
        Target::Nat(id) => nat_number(n, id),
        Target::Peer(id) => n.peering_number(id).0,
        Target::Interface(id) => eni_number(n, id),
        Target::Local => 0,
        Target::Transit(_) => 0,
        Target::Other(_) => 0,
    }
}

fn targets_of(alloc: Global, n: &Network, table: &RouteTable) -> Result<OwnList<u32>, AllocError>
    ensures { IfOk result (λ v. v ≡ targets_of n.now table.now) }
{
    let routes = table.routes.as_slice();
    let mut numbers = Vec::with_capacity(alloc, routes.len())?;
    for route in routes {
        numbers.push(target_number(n, &route.target))?;
    }
    Ok(OwnList::of(numbers))
}

/// The number of the target of each route of each table.
pub fn targets_by_route(alloc: Global, n: &Network) -> Result<Vec<OwnList<u32>>, AllocError>
    ensures { IfOk result (λ v. v.items ≡ targets_in n.now) }
{
    let tables = n.description().tables.as_slice();
    let mut targets = Vec::with_capacity(alloc, tables.len())?;
    for table in tables {
        targets.push(targets_of(alloc, n, table)?)?;
    }
    Ok(targets)
}
