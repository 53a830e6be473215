// Endpoints of VPCs.
ghost use Rattle.std.specs.Prelude.{◌≡◌, ◌++◌, ◌∷◌, [], OnOk};
ghost use Rattle.serde_json.specs.View.{view};
ghost use Rattle.json_fields.specs.FieldFault.{Reads};
ghost use Rattle.json_fields.specs.Kept.{those_there};
ghost use Rattle.read_gateways.specs.Outside.{endpoint_kind_of, endpoint_of, endpoint_subnet_of, far_endpoint, firewall_of_endpoint, is_available_of, kind_of_type};

use crate::ids::{IdItems, first_id};
use json_fields::{FieldFault, HasId, Path, ReadRow, id_at, read_items, str_if};
use serde_json::Value;
use std::alloc::{AllocError, Global};
use vpc_model::{Far, FarKind, FirewallEndpoint, Id};

/// What an endpoint leads to.
#[derive(Clone, Copy)]
pub enum EndpointKind {
    /// A service, by the routes that name the endpoint.
    Service,
    /// A firewall, from which packets come back to the endpoint.
    Firewall,
    /// What its interfaces lead to, which are described as other interfaces are.
    Interfaces,
}

/// An endpoint of a VPC.
#[derive(Drop)]
pub struct Endpoint {
    id: Id,
    kind: EndpointKind,
    vpc: Id,
    /// The first of its subnets.
    subnet: Option<Id>,
}

impl HasId for Endpoint {
    ghost id_of = { λ row. row.id };

    fn id(&self) -> &Id {
        &self.id
    }
}

fn kind_of_type(text: &str) -> EndpointKind
    ensures { result ≡ kind_of_type (Some text.now) }
{
    if text == "Gateway" {
        EndpointKind::Service
    } else if text == "GatewayLoadBalancer" {
        EndpointKind::Firewall
    } else {
        EndpointKind::Interfaces
    }
}

fn endpoint_kind_of(alloc: Global, row: &Value, path: &Path) -> Result<EndpointKind, FieldFault>
    ensures { Reads (λ x. x) (endpoint_kind_of (view row.now) path.now) result }
{
    match str_if(alloc, row, path, "VpcEndpointType") {
        Ok(Some(text)) => Ok(kind_of_type(text)),
        Ok(None) => Ok(EndpointKind::Interfaces),
        Err(fault) => Err(fault),
    }
}

fn is_available(alloc: Global, row: &Value, path: &Path) -> Result<bool, FieldFault>
    ensures { Reads (λ x. x) (is_available_of (view row.now) path.now) result }
{
    match str_if(alloc, row, path, "State") {
        Ok(Some(state)) => Ok(state.eq_ignore_ascii_case("available")),
        Ok(None) => Ok(false),
        Err(fault) => Err(fault),
    }
}

// The first subnet counts, and all subnets and interfaces are read.
fn endpoint_subnet_of(alloc: Global, row: &Value, path: &Path) -> Result<Option<Id>, FieldFault>
    ensures { Reads (λ x. x) (endpoint_subnet_of (view row.now) path.now) result }
{
    let subnets = read_items::<IdItems>(alloc, row, path, "SubnetIds")?;
    let _ = read_items::<IdItems>(alloc, row, path, "NetworkInterfaceIds")?;
    Ok(first_id(subnets))
}

fn endpoint_of(alloc: Global, row: &Value, path: &Path) -> Result<Option<Endpoint>, FieldFault>
    ensures { Reads (λ x. x) (endpoint_of (view row.now) path.now) result }
{
    let id = id_at(alloc, row, path, "VpcEndpointId")?;
    let kind = endpoint_kind_of(alloc, row, path)?;
    let vpc = id_at(alloc, row, path, "VpcId")?;
    let available = is_available(alloc, row, path)?;
    let subnet = endpoint_subnet_of(alloc, row, path)?;
    if !available {
        return Ok(None);
    }
    Ok(Some(Endpoint {
        id,
        kind,
        vpc,
        subnet,
    }))
}

/// The rows of `VpcEndpoints`.
pub struct Endpoints;

impl ReadRow for Endpoints {
    type Row = Option<Endpoint>;

    ghost meaning = { endpoint_of };

    fn read(alloc: Global, row: &Value, path: &Path) -> Result<Option<Endpoint>, FieldFault> {
        endpoint_of(alloc, row, path)
    }
}

fn add_firewall(
    firewalls: &mut Vec<FirewallEndpoint>,
    id: Id,
    vpc: Id,
    subnet: Option<Id>,
) -> Result<(), AllocError>
    ensures { OnOk result (firewalls.new.items ≡ firewalls.old.items
        ++ those_there (firewall_of_endpoint (record { id = id; kind = EndpointKind.Firewall; vpc = vpc; subnet = subnet }) ∷ [])) }
{
    if let Some(subnet) = subnet {
        firewalls.push(FirewallEndpoint { id, vpc, subnet })?;
    }
    Ok(())
}

/// Adds an endpoint to what leads to networks, or to firewall endpoints, by its kind.
pub fn add_endpoint(
    fars: &mut Vec<Far>,
    firewalls: &mut Vec<FirewallEndpoint>,
    endpoint: Endpoint,
) -> Result<(), AllocError>
    ensures fars { OnOk result (fars.new.items ≡ fars.old.items ++ those_there (far_endpoint endpoint ∷ [])) }
    ensures firewalls { OnOk result (firewalls.new.items ≡ firewalls.old.items
        ++ those_there (firewall_of_endpoint endpoint ∷ [])) }
{
    let Endpoint {
        id,
        kind,
        vpc,
        subnet,
    } = endpoint;
    match kind {
        EndpointKind::Service => {
            let kind = FarKind::Endpoint(vpc);
            fars.push(Far { id, kind })?;
        }
        EndpointKind::Firewall => add_firewall(firewalls, id, vpc, subnet)?,
        EndpointKind::Interfaces => {}
    }
    Ok(())
}
