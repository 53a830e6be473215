// Where subnets are.
ghost use Rattle.std.specs.Prelude.{◌≡◌, Contains, IfOk, map};
ghost use Rattle.transit_gateway.specs.Sites.{AreZones, site_of, zone_no};

use reference_check::{FirstNumbers, Network};
use std::alloc::{AllocError, Global};
use vpc_model::{Subnet, VpcNo};

/// Where a subnet is: its VPC, and its zone by the number of the first subnet there.
#[derive(Clone, Copy, PartialEq, Eq)]
pub struct Site {
    pub vpc: VpcNo,
    pub zone: u32,
}

/// The number of a subnet's zone.
pub fn zone_of(n: &Network, zones: &FirstNumbers, subnet: &Subnet) -> u32
    requires zones { AreZones n.now zones.now }
    requires listed { Contains n.now.subnets subnet.now }
    ensures { result ≡ zone_no n.now subnet.now.zone }
{
    // An accepted network has few subnets.
    let _ = n.description();
    zones.number(&subnet.zone) as u32
}

fn site_of(n: &Network, zones: &FirstNumbers, subnet: &Subnet) -> Site
    requires zones { AreZones n.now zones.now }
    requires listed { Contains n.now.subnets subnet.now }
    ensures { result ≡ site_of n.now subnet.now }
{
    let _ = n.description();
    Site {
        vpc: n.vpc_named(&subnet.vpc),
        zone: zone_of(n, zones, subnet),
    }
}

/// The sites of the subnets, in their order.
pub fn sites_of(alloc: Global, n: &Network, zones: &FirstNumbers) -> Result<Vec<Site>, AllocError>
    requires { AreZones n.now zones.now }
    ensures { IfOk result (λ v. v.items ≡ map (site_of n.now) n.now.subnets) }
{
    let subnets = n.description().subnets.as_slice();
    let mut sites = Vec::with_capacity(alloc, subnets.len())?;
    for subnet in subnets {
        sites.push(site_of(n, zones, subnet))?;
    }
    Ok(sites)
}
