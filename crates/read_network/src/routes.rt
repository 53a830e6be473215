// Routes of route tables.
ghost use Rattle.std.specs.Prelude.{◌≡◌, IfOk, codes};
ghost use Rattle.serde_json.specs.View.{view};
ghost use Rattle.json_fields.specs.FieldFault.{Reads};
ghost use Rattle.read_network.specs.Routes.{first_target, gateway_target, reach_else, reach_of, route_of, route_to, target_of, unfollowed};

use json_fields::{FieldFault, Path, ReadRow, has_text, id_if, member, prefix_if};
use serde_json::Value;
use std::alloc::Global;
use vpc_base::NoMemory;
use vpc_model::{Id, Reach, Route, Target};

fn reach_else(alloc: Global, row: &Value, path: &Path) -> Result<Option<Reach>, FieldFault>
    ensures { Reads (λ x. x) (reach_else (view row.now) path.now) result }
{
    if let Some(list) = id_if(alloc, row, path, "DestinationPrefixListId")? {
        return Ok(Some(Reach::List(list)));
    }
    match member(row, "DestinationIpv6CidrBlock") {
        Some(_) => Ok(None),
        None => Err(FieldFault::wrong_shape_of(alloc, path)),
    }
}

fn reach_of(alloc: Global, row: &Value, path: &Path) -> Result<Option<Reach>, FieldFault>
    ensures { Reads (λ x. x) (reach_of (view row.now) path.now) result }
{
    match prefix_if(alloc, row, path, "DestinationCidrBlock")? {
        Some(block) => Ok(Some(Reach::Block(block))),
        None => reach_else(alloc, row, path),
    }
}

fn gateway_target(id: Id) -> Target
    ensures { result ≡ gateway_target id }
{
    if id.bytes() == b"local".as_slice() {
        return Target::Local;
    }
    if id.bytes().starts_with(b"igw-") {
        Target::Internet(id)
    } else {
        Target::Other(id)
    }
}

/// What stands for the target of a route that names none.
fn no_target(alloc: Global) -> Result<Target, NoMemory>
    ensures { IfOk result (λ t. t ≡ Target.Other (codes "none")) }
{
    match Id::of(alloc, b"none")? {
        Some(id) => Ok(Target::Other(id)),
        None => unreachable!(),
    }
}

fn unfollowed_target(alloc: Global, row: &Value, path: &Path) -> Result<Target, FieldFault>
    ensures { Reads (λ x. x) (first_target unfollowed (view row.now) path.now) result }
{
    if let Some(id) = id_if(alloc, row, path, "InstanceId")? {
        return Ok(Target::Other(id));
    }
    if let Some(id) = id_if(alloc, row, path, "LocalGatewayId")? {
        return Ok(Target::Other(id));
    }
    if let Some(id) = id_if(alloc, row, path, "CarrierGatewayId")? {
        return Ok(Target::Other(id));
    }
    if let Some(id) = id_if(alloc, row, path, "EgressOnlyInternetGatewayId")? {
        return Ok(Target::Other(id));
    }
    if let Some(id) = id_if(alloc, row, path, "CoreNetworkArn")? {
        return Ok(Target::Other(id));
    }
    Ok(no_target(alloc)?)
}

fn target_of(alloc: Global, row: &Value, path: &Path) -> Result<Target, FieldFault>
    ensures { Reads (λ x. x) (target_of (view row.now) path.now) result }
{
    if let Some(id) = id_if(alloc, row, path, "GatewayId")? {
        return Ok(gateway_target(id));
    }
    if let Some(id) = id_if(alloc, row, path, "NatGatewayId")? {
        return Ok(Target::Nat(id));
    }
    if let Some(id) = id_if(alloc, row, path, "TransitGatewayId")? {
        return Ok(Target::Transit(id));
    }
    if let Some(id) = id_if(alloc, row, path, "VpcPeeringConnectionId")? {
        return Ok(Target::Peer(id));
    }
    if let Some(id) = id_if(alloc, row, path, "NetworkInterfaceId")? {
        return Ok(Target::Interface(id));
    }
    unfollowed_target(alloc, row, path)
}

fn route_to(
    alloc: Global,
    row: &Value,
    path: &Path,
    reach: Reach,
) -> Result<Option<Route>, FieldFault>
    ensures { Reads (λ x. x) (route_to (view row.now) path.now reach) result }
{
    let target = target_of(alloc, row, path)?;
    let blackhole = has_text(alloc, "blackhole", row, path, "State")?;
    let propagated = has_text(alloc, "EnableVgwRoutePropagation", row, path, "Origin")?;
    Ok(Some(Route {
        reach,
        target,
        blackhole,
        propagated,
    }))
}

fn route_of(alloc: Global, row: &Value, path: &Path) -> Result<Option<Route>, FieldFault>
    ensures { Reads (λ x. x) (route_of (view row.now) path.now) result }
{
    match reach_of(alloc, row, path)? {
        Some(reach) => route_to(alloc, row, path, reach),
        None => Ok(None),
    }
}

/// The rows of a route table's `Routes`.
pub struct Routes;

impl ReadRow for Routes {
    type Row = Option<Route>;

    ghost meaning = { route_of };

    fn read(alloc: Global, row: &Value, path: &Path) -> Result<Option<Route>, FieldFault> {
        route_of(alloc, row, path)
    }
}
