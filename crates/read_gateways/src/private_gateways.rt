// Virtual private gateways.
ghost use Rattle.serde_json.specs.View.{view};
ghost use Rattle.json_fields.specs.FieldFault.{Reads};
ghost use Rattle.read_gateways.specs.Outside.{vpc_in_force, private_gateway_of};

use crate::ids::first_id;
use json_fields::{FieldFault, Path, ReadRow, has_text, id_at, read_kept_items};
use serde_json::Value;
use std::alloc::Global;
use vpc_model::{Far, FarKind, Id};

fn vpc_in_force(alloc: Global, row: &Value, path: &Path) -> Result<Option<Id>, FieldFault>
    ensures { Reads (λ x. x) (vpc_in_force (view row.now) path.now) result }
{
    let attached = has_text(alloc, "attached", row, path, "State")?;
    let vpc = id_at(alloc, row, path, "VpcId")?;
    if attached { Ok(Some(vpc)) } else { Ok(None) }
}

/// The rows of a gateway's `VpcAttachments`.
struct VpcAttachments;

impl ReadRow for VpcAttachments {
    type Row = Option<Id>;

    ghost meaning = { vpc_in_force };

    fn read(alloc: Global, row: &Value, path: &Path) -> Result<Option<Id>, FieldFault> {
        vpc_in_force(alloc, row, path)
    }
}

// The first attachment that is in force counts, and all of them are read.
fn private_gateway_of(alloc: Global, row: &Value, path: &Path) -> Result<Far, FieldFault>
    ensures { Reads (λ x. x) (private_gateway_of (view row.now) path.now) result }
{
    let id = id_at(alloc, row, path, "VpnGatewayId")?;
    let vpcs = read_kept_items::<Id, VpcAttachments>(alloc, row, path, "VpcAttachments")?;
    Ok(Far {
        id,
        kind: FarKind::PrivateGateway(first_id(vpcs)),
    })
}

/// The rows of `VpnGateways`.
pub struct PrivateGateways;

impl ReadRow for PrivateGateways {
    type Row = Far;

    ghost meaning = { private_gateway_of };

    fn read(alloc: Global, row: &Value, path: &Path) -> Result<Far, FieldFault> {
        private_gateway_of(alloc, row, path)
    }
}
