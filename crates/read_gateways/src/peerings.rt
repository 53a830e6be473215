// Peerings of VPCs.
ghost use Rattle.std.specs.Prelude.{◌≡◌, codes};
ghost use Rattle.serde_json.specs.View.{view};
ghost use Rattle.json_fields.specs.FieldFault.{Reads};
ghost use Rattle.read_gateways.specs.Peerings.{is_active_of, pair_if, peering_of, side_of};

use json_fields::{FieldFault, Path, ReadRow, id_at, id_within, str_within};
use serde_json::Value;
use std::alloc::Global;
use vpc_model::{Id, Peering};

// The VPC on a side.
fn side_of(alloc: Global, row: &Value, path: &Path, side: &str) -> Result<Id, FieldFault>
    ensures { Reads (λ x. x) (side_of (view row.now) path.now side.now) result }
{
    id_within(alloc, row, path, side, "VpcId")
}

/// Whether the peering is active.
pub fn is_active(alloc: Global, row: &Value, path: &Path) -> Result<bool, FieldFault>
    ensures { Reads (λ x. x) (is_active_of (view row.now) path.now) result }
{
    match str_within(alloc, row, path, "Status", "Code") {
        Ok(code) => Ok(code == "active"),
        Err(fault) => Err(fault),
    }
}

fn pair_if(
    alloc: Global,
    active: bool,
    row: &Value,
    path: &Path,
) -> Result<Option<(Id, Id)>, FieldFault>
    ensures { Reads (λ x. x) (pair_if active (view row.now) path.now) result }
{
    if !active {
        return Ok(None);
    }
    let requester = side_of(alloc, row, path, "RequesterVpcInfo")?;
    let accepter = side_of(alloc, row, path, "AccepterVpcInfo")?;
    Ok(Some((requester, accepter)))
}

fn peering_of(alloc: Global, row: &Value, path: &Path) -> Result<Peering, FieldFault>
    ensures { Reads (λ x. x) (peering_of (view row.now) path.now) result }
{
    let id = id_at(alloc, row, path, "VpcPeeringConnectionId")?;
    let active = is_active(alloc, row, path)?;
    let pair = pair_if(alloc, active, row, path)?;
    Ok(Peering { id, pair })
}

/// The rows of `VpcPeeringConnections`.
pub struct Peerings;

impl ReadRow for Peerings {
    type Row = Peering;

    ghost meaning = { peering_of };

    fn read(alloc: Global, row: &Value, path: &Path) -> Result<Peering, FieldFault> {
        peering_of(alloc, row, path)
    }
}
