// What leads to networks that aren't described, and firewall endpoints.
ghost use Rattle.std.specs.Prelude.{◌≡◌, IfOk};
ghost use Rattle.serde_json.specs.View.{view};
ghost use Rattle.json_fields.specs.FieldFault.{Reads};
ghost use Rattle.read_gateways.specs.Outside.{endpoints_of, leading_of, outside_by, outside_of};

use crate::endpoints::{Endpoint, Endpoints, add_endpoint};
use crate::far_attachments::FarAttachments;
use crate::far_peerings::FarPeerings;
use crate::private_gateways::PrivateGateways;
use json_fields::{FieldFault, first_of_each, read_kept_list, read_list};
use serde_json::Value;
use std::alloc::Global;
use vpc_base::{NoMemory, OwnList};
use vpc_model::{Far, FirewallEndpoint};

/// What leads to networks that aren't described, and firewall endpoints.
#[derive(Drop)]
pub struct OutsideRows {
    /// Each id once.
    pub fars: OwnList<Far>,
    pub firewalls: OwnList<FirewallEndpoint>,
}

// What leads to networks, but for endpoints.
fn leading_of(alloc: Global, bundle: &Value) -> Result<Vec<Far>, FieldFault>
    ensures { Reads (λ v. v.items) (leading_of (view bundle.now)) result }
{
    let mut leading = read_list::<PrivateGateways>(alloc, bundle, "VpnGateways")?;
    let mut attachments = read_kept_list::<Far, FarAttachments>(
        alloc,
        bundle,
        "TransitGatewayAttachments",
    )?;
    let mut peerings = read_kept_list::<Far, FarPeerings>(alloc, bundle, "VpcPeeringConnections")?;
    leading.append(&mut attachments)?;
    leading.append(&mut peerings)?;
    Ok(leading)
}

fn endpoints_of(alloc: Global, bundle: &Value) -> Result<Vec<Endpoint>, FieldFault>
    ensures { Reads (λ v. v.items) (endpoints_of (view bundle.now)) result }
{
    let all = read_kept_list::<Endpoint, Endpoints>(alloc, bundle, "VpcEndpoints")?;
    Ok(first_of_each(alloc, all)?)
}

#[tactic(auto, using(json_fields::proofs::KeptLemmas::there_next))]
fn outside_by(
    alloc: Global,
    leading: Vec<Far>,
    endpoints: Vec<Endpoint>,
) -> Result<OutsideRows, NoMemory>
    ensures { IfOk result (λ rows. rows ≡ outside_by leading.items endpoints.items) }
{
    let mut fars = leading;
    let mut firewalls = Vec::new(alloc);
    for endpoint in endpoints {
        add_endpoint(&mut fars, &mut firewalls, endpoint)?;
    }
    Ok(OutsideRows {
        fars: OwnList::of(first_of_each(alloc, fars)?),
        firewalls: OwnList::of(firewalls),
    })
}

/// What a bundle tells of networks that it doesn't describe, and its firewall endpoints. It takes time linear in the
/// bundle.
///
/// The lists are `VpnGateways`, `TransitGatewayAttachments`, `VpcPeeringConnections` and `VpcEndpoints` of the EC2 API's
/// Describe calls of these names. Any of them may be wanting. What they name needn't be described.
pub fn read_outside(alloc: Global, bundle: &Value) -> Result<OutsideRows, FieldFault>
    ensures { Reads (λ x. x) (outside_of (view bundle.now)) result }
{
    let leading = leading_of(alloc, bundle)?;
    let endpoints = endpoints_of(alloc, bundle)?;
    Ok(outside_by(alloc, leading, endpoints)?)
}
