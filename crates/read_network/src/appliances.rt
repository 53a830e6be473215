// Appliances.
ghost use Rattle.std.specs.Prelude.{◌≡◌};
ghost use Rattle.serde_json.specs.View.{view};
ghost use Rattle.json_fields.specs.FieldFault.{Reads};
ghost use Rattle.read_network.specs.Appliances.{appliance_of, appliances_of, behind_endpoint, kind_at, kind_by, ports_of, service_of, some_ports, standing_of};

use json_fields::{FieldFault, Path, ReadRow, id_if, prefix_at, read_list, str_at};
use prefix_text::read_range;
use serde_json::Value;
use std::alloc::Global;
use vpc_model::{Appliance, ApplianceAt, ApplianceKind, Id};

/// Where an appliance stands.
#[derive(Drop)]
struct Standing {
    id: Id,
    at: ApplianceAt,
}

fn some_ports(range: (u16, u16)) -> Option<(u16, u16)>
    ensures { result ≡ some_ports range }
{
    if range.0 <= range.1 {
        Some(range)
    } else {
        None
    }
}

fn ports_of(text: &str) -> Option<(u16, u16)>
    ensures { result ≡ ports_of text.now }
{
    match read_range(text.as_bytes()) {
        Some(range) => some_ports(range),
        None => None,
    }
}

fn service_of(alloc: Global, row: &Value, path: &Path) -> Result<ApplianceKind, FieldFault>
    ensures { Reads (λ x. x) (service_of (view row.now) path.now) result }
{
    match str_at(alloc, row, path, "Ports") {
        Ok(text) => match ports_of(text) {
            Some((first, last)) => Ok(ApplianceKind::Service(first, last)),
            None => Err(FieldFault::bad_text(alloc, path, "Ports")),
        },
        Err(fault) => Err(fault),
    }
}

fn kind_by(alloc: Global, row: &Value, path: &Path, text: &str) -> Result<ApplianceKind, FieldFault>
    ensures { Reads (λ x. x) (kind_by (view row.now) path.now text.now) result }
{
    if text == "all" {
        Ok(ApplianceKind::All)
    } else if text == "none" {
        Ok(ApplianceKind::Nothing)
    } else if text == "service" {
        service_of(alloc, row, path)
    } else if text == "peer" {
        Ok(ApplianceKind::Peer(prefix_at(alloc, row, path, "Prefix")?))
    } else {
        Err(FieldFault::bad_text(alloc, path, "Kind"))
    }
}

fn kind_at(alloc: Global, row: &Value, path: &Path) -> Result<ApplianceKind, FieldFault>
    ensures { Reads (λ x. x) (kind_at (view row.now) path.now) result }
{
    match str_at(alloc, row, path, "Kind") {
        Ok(text) => kind_by(alloc, row, path, text),
        Err(fault) => Err(fault),
    }
}

fn behind_endpoint(alloc: Global, row: &Value, path: &Path) -> Result<Standing, FieldFault>
    ensures { Reads (λ x. x) (behind_endpoint (view row.now) path.now) result }
{
    match id_if(alloc, row, path, "VpcEndpointId")? {
        Some(id) => Ok(Standing {
            id,
            at: ApplianceAt::Endpoint,
        }),
        None => Err(FieldFault::wrong_shape(alloc, path, "NetworkInterfaceId")),
    }
}

fn standing_of(alloc: Global, row: &Value, path: &Path) -> Result<Standing, FieldFault>
    ensures { Reads (λ x. x) (standing_of (view row.now) path.now) result }
{
    match id_if(alloc, row, path, "NetworkInterfaceId")? {
        Some(id) => Ok(Standing {
            id,
            at: ApplianceAt::Interface,
        }),
        None => behind_endpoint(alloc, row, path),
    }
}

fn appliance_of(alloc: Global, row: &Value, path: &Path) -> Result<Appliance, FieldFault>
    ensures { Reads (λ x. x) (appliance_of (view row.now) path.now) result }
{
    let standing = standing_of(alloc, row, path)?;
    let kind = kind_at(alloc, row, path)?;
    Ok(Appliance {
        id: standing.id,
        at: standing.at,
        kind,
    })
}

/// The rows of `Appliances`.
struct Appliances;

impl ReadRow for Appliances {
    type Row = Appliance;

    ghost meaning = { appliance_of };

    fn read(alloc: Global, row: &Value, path: &Path) -> Result<Appliance, FieldFault> {
        appliance_of(alloc, row, path)
    }
}

/// The appliances of a bundle, or the first fault where a row can't be read. It takes time linear in
/// the bundle.
///
/// No call of AWS prints the list `Appliances`. Each of its rows has a `NetworkInterfaceId`, or else a `VpcEndpointId`,
/// and a `Kind`: `all`, `none`, `service` with `Ports` such as `80-443`, or `peer` with a `Prefix`.
pub fn read_appliances(alloc: Global, bundle: &Value) -> Result<Vec<Appliance>, FieldFault>
    ensures { Reads (λ v. v.items) (appliances_of (view bundle.now)) result }
{
    read_list::<Appliances>(alloc, bundle, "Appliances")
}
