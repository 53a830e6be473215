// The subnets of interfaces and NAT gateways and the VPCs of subnets and peerings, by their numbers.
ghost use Rattle.std.specs.Prelude.{◌≡◌, Contains, IfOk};
ghost use Rattle.vpc_model.specs.Lookup.{subnet_no, vpc_no};
ghost use Rattle.vpc_model.specs.Step.Nat.{own_subnet};
ghost use Rattle.fabric.specs.Sites.{accesses_in, ends_by, ends_in, nat_subnets_in, subnets_in, vpc_by, vpcs_in};

use reference_check::Network;
use std::alloc::{AllocError, Global};
use vpc_model::{Access, Id, Interface, NatGateway, NatLife, Peering, Subnet, SubnetNo, VpcNo};

fn subnet_of(n: &Network, interface: &Interface) -> SubnetNo
    requires { Contains n.now.interfaces interface.now }
    ensures { result ≡ subnet_no n.now interface.now.subnet }
{
    let _ = n.description();
    n.subnet_named(&interface.subnet)
}

fn vpc_of(n: &Network, subnet: &Subnet) -> VpcNo
    requires { Contains n.now.subnets subnet.now }
    ensures { result ≡ vpc_no n.now subnet.now.vpc }
{
    let _ = n.description();
    n.vpc_named(&subnet.vpc)
}

// The id of a NAT gateway's subnet; one that isn't live has none.
fn own_subnet(life: &NatLife) -> &[u8]
    ensures { result.now ≡ own_subnet life.now }
{
    match life {
        NatLife::Live { subnet, .. } => subnet.bytes(),
        NatLife::Gone => &[],
        NatLife::Unmodelled => &[],
    }
}

fn subnet_of_nat(n: &Network, nat: &NatGateway) -> SubnetNo
    ensures { result ≡ subnet_no n.now (own_subnet nat.now.life) }
{
    match n.subnet(own_subnet(&nat.life)) {
        Some(s) => s,
        None => SubnetNo(n.description().subnets.as_slice().len() as u32),
    }
}

fn vpc_by(n: &Network, id: &Id) -> Option<VpcNo>
    ensures { result ≡ vpc_by n.now id.now }
{
    n.vpc(id.bytes())
}

fn ends_of(n: &Network, peering: &Peering) -> (Option<VpcNo>, Option<VpcNo>)
    ensures { result ≡ ends_by n.now peering.now.pair }
{
    match &peering.pair {
        Some((one, other)) => (vpc_by(n, one), vpc_by(n, other)),
        None => (None, None),
    }
}

/// The subnet of each interface.
pub fn subnets_by_interface(alloc: Global, n: &Network) -> Result<Vec<SubnetNo>, AllocError>
    ensures { IfOk result (λ v. v.items ≡ subnets_in n.now) }
{
    let interfaces = n.description().interfaces.as_slice();
    let mut subnets = Vec::with_capacity(alloc, interfaces.len())?;
    for interface in interfaces {
        subnets.push(subnet_of(n, interface))?;
    }
    Ok(subnets)
}

/// The VPC of each subnet.
pub fn vpcs_by_subnet(alloc: Global, n: &Network) -> Result<Vec<VpcNo>, AllocError>
    ensures { IfOk result (λ v. v.items ≡ vpcs_in n.now) }
{
    let subnets = n.description().subnets.as_slice();
    let mut vpcs = Vec::with_capacity(alloc, subnets.len())?;
    for subnet in subnets {
        vpcs.push(vpc_of(n, subnet))?;
    }
    Ok(vpcs)
}

/// The mode of Block Public Access in each subnet.
pub fn accesses_by_subnet(alloc: Global, n: &Network) -> Result<Vec<Access>, AllocError>
    ensures { IfOk result (λ v. v.items ≡ accesses_in n.now) }
{
    let subnets = n.description().subnets.as_slice();
    let mut accesses = Vec::with_capacity(alloc, subnets.len())?;
    for subnet in subnets {
        accesses.push(n.access_in(subnet))?;
    }
    Ok(accesses)
}

/// The subnet of each NAT gateway.
pub fn subnets_by_nat(alloc: Global, n: &Network) -> Result<Vec<SubnetNo>, AllocError>
    ensures { IfOk result (λ v. v.items ≡ nat_subnets_in n.now) }
{
    let nats = n.description().nats.as_slice();
    let mut subnets = Vec::with_capacity(alloc, nats.len())?;
    for nat in nats {
        subnets.push(subnet_of_nat(n, nat))?;
    }
    Ok(subnets)
}

/// The VPCs that each peering joins, those that are described; none where it isn't active.
pub fn ends_by_peering(
    alloc: Global,
    n: &Network,
) -> Result<Vec<(Option<VpcNo>, Option<VpcNo>)>, AllocError>
    ensures { IfOk result (λ v. v.items ≡ ends_in n.now) }
{
    let peerings = n.description().peerings.as_slice();
    let mut ends = Vec::with_capacity(alloc, peerings.len())?;
    for peering in peerings {
        ends.push(ends_of(n, peering))?;
    }
    Ok(ends)
}
