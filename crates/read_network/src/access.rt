// Modes of Block Public Access.
ghost use Rattle.std.specs.Prelude.{◌≡◌};
ghost use Rattle.serde_json.specs.View.{view};
ghost use Rattle.json_fields.specs.FieldFault.{Reads};
ghost use Rattle.read_network.specs.Access.{access_at, access_named};

use json_fields::{FieldFault, Path, str_if_within};
use serde_json::Value;
use std::alloc::Global;
use vpc_model::Access;

fn access_named(text: &str) -> Option<Access>
    ensures { result ≡ access_named text.now }
{
    if text == "off" {
        Some(Access::Off)
    } else if text == "block-ingress" {
        Some(Access::BlockIngress)
    } else if text == "block-bidirectional" {
        Some(Access::BlockBidirectional)
    } else {
        None
    }
}

/// The mode of a VPC or a subnet, if it is told. A word that is none of the API's three is `BadText`, so that
/// none counts as `off` which isn't understood.
pub fn access_at(alloc: Global, row: &Value, path: &Path) -> Result<Option<Access>, FieldFault>
    ensures { Reads (λ x. x) (access_at (view row.now) path.now) result }
{
    let part = "BlockPublicAccessStates";
    let field = "InternetGatewayBlockMode";
    match str_if_within(alloc, row, path, part, field) {
        Ok(Some(text)) => match access_named(text) {
            Some(access) => Ok(Some(access)),
            None => Err(FieldFault::bad_text(alloc, &path.member(part), field)),
        },
        Ok(None) => Ok(None),
        Err(fault) => Err(fault),
    }
}
