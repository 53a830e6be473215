// Internet gateways.
ghost use Rattle.std.specs.Prelude.{◌≡◌};
ghost use Rattle.serde_json.specs.View.{view};
ghost use Rattle.json_fields.specs.FieldFault.{Reads};
ghost use Rattle.read_gateways.specs.Internet.{attached_vpc, internet_gateway_of, is_attached};

use json_fields::{FieldFault, Path, ReadRow, id_at, read_kept_items, str_at};
use serde_json::Value;
use std::alloc::Global;
use vpc_base::OwnList;
use vpc_model::{Id, InternetGateway};

fn is_attached(state: &str) -> bool
    ensures { result ≡ is_attached state.now }
{
    state == "available" || state == "attached"
}

fn attached_vpc(alloc: Global, row: &Value, path: &Path) -> Result<Option<Id>, FieldFault>
    ensures { Reads (λ x. x) (attached_vpc (view row.now) path.now) result }
{
    let state = match str_at(alloc, row, path, "State") {
        Ok(state) => state,
        Err(fault) => return Err(fault),
    };
    let vpc = id_at(alloc, row, path, "VpcId")?;
    if is_attached(state) {
        Ok(Some(vpc))
    } else {
        Ok(None)
    }
}

/// The rows of a gateway's `Attachments`.
struct AttachedVpcs;

impl ReadRow for AttachedVpcs {
    type Row = Option<Id>;

    ghost meaning = { attached_vpc };

    fn read(alloc: Global, row: &Value, path: &Path) -> Result<Option<Id>, FieldFault> {
        attached_vpc(alloc, row, path)
    }
}

fn internet_gateway_of(
    alloc: Global,
    row: &Value,
    path: &Path,
) -> Result<InternetGateway, FieldFault>
    ensures { Reads (λ x. x) (internet_gateway_of (view row.now) path.now) result }
{
    let id = id_at(alloc, row, path, "InternetGatewayId")?;
    let vpcs = read_kept_items::<Id, AttachedVpcs>(alloc, row, path, "Attachments")?;
    Ok(InternetGateway {
        id,
        vpcs: OwnList::of(vpcs),
    })
}

/// The rows of `InternetGateways`.
pub struct InternetGateways;

impl ReadRow for InternetGateways {
    type Row = InternetGateway;

    ghost meaning = { internet_gateway_of };

    fn read(alloc: Global, row: &Value, path: &Path) -> Result<InternetGateway, FieldFault> {
        internet_gateway_of(alloc, row, path)
    }
}
