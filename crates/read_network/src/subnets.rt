// Subnets.
ghost use Rattle.std.specs.Prelude.{◌≡◌};
ghost use Rattle.serde_json.specs.View.{view};
ghost use Rattle.json_fields.specs.FieldFault.{Reads};
ghost use Rattle.read_network.specs.Subnets.{subnet_of};

use crate::access::access_at;
use json_fields::{FieldFault, Path, ReadRow, id_at};
use serde_json::Value;
use std::alloc::Global;
use vpc_model::Subnet;

fn subnet_of(alloc: Global, row: &Value, path: &Path) -> Result<Subnet, FieldFault>
    ensures { Reads (λ x. x) (subnet_of (view row.now) path.now) result }
{
    let id = id_at(alloc, row, path, "SubnetId")?;
    let vpc = id_at(alloc, row, path, "VpcId")?;
    let zone = id_at(alloc, row, path, "AvailabilityZone")?;
    let access = access_at(alloc, row, path)?;
    Ok(Subnet {
        id,
        vpc,
        zone,
        access,
    })
}

/// The rows of `Subnets`.
pub struct Subnets;

impl ReadRow for Subnets {
    type Row = Subnet;

    ghost meaning = { subnet_of };

    fn read(alloc: Global, row: &Value, path: &Path) -> Result<Subnet, FieldFault> {
        subnet_of(alloc, row, path)
    }
}
