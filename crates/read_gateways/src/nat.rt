// NAT gateways.
ghost use Rattle.std.specs.Prelude.{◌≡◌};
ghost use Rattle.serde_json.specs.View.{view};
ghost use Rattle.json_fields.specs.FieldFault.{Reads};
ghost use Rattle.read_gateways.specs.Nat.{chosen_address, life_if, life_within, live_of, nat_address_of, nat_gateway_of, primary_number};

use crate::texts::text_is;
use json_fields::{FieldFault, Path, ReadRow, addr_at, flag_if, id_at, id_if, read_items};
use serde_json::Value;
use std::alloc::Global;
use vpc_model::{Id, NatGateway, NatLife};

/// An address of a NAT gateway.
#[derive(Drop)]
struct NatAddress {
    /// The interface that has it.
    eni: Id,
    /// The private address.
    address: u32,
    primary: bool,
}

fn nat_address_of(alloc: Global, row: &Value, path: &Path) -> Result<NatAddress, FieldFault>
    ensures { Reads (λ x. x) (nat_address_of (view row.now) path.now) result }
{
    let eni = id_at(alloc, row, path, "NetworkInterfaceId")?;
    let address = addr_at(alloc, row, path, "PrivateIp")?;
    let primary = flag_if(alloc, row, path, "IsPrimary")?;
    Ok(NatAddress {
        eni,
        address,
        primary: primary.unwrap_or(false),
    })
}

fn primary_number(addresses: &[NatAddress]) -> Option<usize>
    ensures { result ≡ primary_number addresses.now }
{
    addresses.iter().position(|address| address.primary)
}

fn chosen_address(mut addresses: Vec<NatAddress>) -> Option<NatAddress>
    ensures { result ≡ chosen_address addresses.items }
{
    let number = primary_number(addresses.as_slice()).unwrap_or(0);
    if number < addresses.len() {
        Some(addresses.swap_remove(number))
    } else {
        None
    }
}

/// The rows of a gateway's `NatGatewayAddresses`.
struct NatAddresses;

impl ReadRow for NatAddresses {
    type Row = NatAddress;

    ghost meaning = { nat_address_of };

    fn read(alloc: Global, row: &Value, path: &Path) -> Result<NatAddress, FieldFault> {
        nat_address_of(alloc, row, path)
    }
}

fn live_of(alloc: Global, subnet: Id, row: &Value, path: &Path) -> Result<NatLife, FieldFault>
    ensures { Reads (λ x. x) (live_of subnet (view row.now) path.now) result }
{
    let addresses = read_items::<NatAddresses>(alloc, row, path, "NatGatewayAddresses")?;
    match chosen_address(addresses) {
        Some(chosen) => Ok(NatLife::Live {
            subnet,
            eni: chosen.eni,
            address: chosen.address,
        }),
        None => Err(FieldFault::wrong_shape(alloc, path, "NatGatewayAddresses")),
    }
}

fn life_within(
    alloc: Global,
    subnet: Option<Id>,
    row: &Value,
    path: &Path,
) -> Result<NatLife, FieldFault>
    ensures { Reads (λ x. x) (life_within subnet (view row.now) path.now) result }
{
    match subnet {
        Some(subnet) => live_of(alloc, subnet, row, path),
        None => Ok(NatLife::Unmodelled),
    }
}

fn life_if(alloc: Global, available: bool, row: &Value, path: &Path) -> Result<NatLife, FieldFault>
    ensures { Reads (λ x. x) (life_if available (view row.now) path.now) result }
{
    if !available {
        return Ok(NatLife::Gone);
    }
    let subnet = id_if(alloc, row, path, "SubnetId")?;
    life_within(alloc, subnet, row, path)
}

fn nat_gateway_of(alloc: Global, row: &Value, path: &Path) -> Result<NatGateway, FieldFault>
    ensures { Reads (λ x. x) (nat_gateway_of (view row.now) path.now) result }
{
    let id = id_at(alloc, row, path, "NatGatewayId")?;
    let available = text_is(alloc, "available", row, path, "State")?;
    let life = life_if(alloc, available, row, path)?;
    Ok(NatGateway { id, life })
}

/// The rows of `NatGateways`.
pub struct NatGateways;

impl ReadRow for NatGateways {
    type Row = NatGateway;

    ghost meaning = { nat_gateway_of };

    fn read(alloc: Global, row: &Value, path: &Path) -> Result<NatGateway, FieldFault> {
        nat_gateway_of(alloc, row, path)
    }
}
