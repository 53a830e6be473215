// Attachments of transit gateways to networks that may not be described.
ghost use Rattle.std.specs.Prelude.{◌≡◌, option_map};
ghost use Rattle.serde_json.specs.View.{view};
ghost use Rattle.json_fields.specs.FieldFault.{Reads};
ghost use Rattle.read_gateways.specs.Outside.{far_attachment_of, is_usable_if_of, kind_of_resource, resource_of};

use crate::transit::is_usable;
use json_fields::{FieldFault, Path, ReadRow, id_at, id_if, str_if};
use serde_json::Value;
use std::alloc::Global;
use vpc_model::{Far, FarKind, Id};

// The kind of what an attachment is of, by its type.
fn kind_of_resource(kind: &str, resource: Option<Id>) -> Option<FarKind>
    ensures { result ≡ kind_of_resource (Some kind.now) resource }
{
    if kind != "vpc" {
        return Some(FarKind::Attachment(None));
    }
    match resource {
        Some(vpc) => Some(FarKind::Attachment(Some(vpc))),
        None => None,
    }
}

fn resource_of(alloc: Global, row: &Value, path: &Path) -> Result<Option<FarKind>, FieldFault>
    ensures { Reads (λ x. x) (resource_of (view row.now) path.now) result }
{
    let kind = match str_if(alloc, row, path, "ResourceType") {
        Ok(kind) => kind,
        Err(fault) => return Err(fault),
    };
    let resource = id_if(alloc, row, path, "ResourceId")?;
    match kind {
        Some(kind) => Ok(kind_of_resource(kind, resource)),
        None => Ok(None),
    }
}

fn is_usable_if(alloc: Global, row: &Value, path: &Path) -> Result<bool, FieldFault>
    ensures { Reads (λ x. x) (is_usable_if_of (view row.now) path.now) result }
{
    match str_if(alloc, row, path, "State") {
        Ok(Some(state)) => Ok(is_usable(state)),
        Ok(None) => Ok(false),
        Err(fault) => Err(fault),
    }
}

fn far_attachment_of(alloc: Global, row: &Value, path: &Path) -> Result<Option<Far>, FieldFault>
    ensures { Reads (λ x. x) (far_attachment_of (view row.now) path.now) result }
{
    let id = id_at(alloc, row, path, "TransitGatewayAttachmentId")?;
    let gateway = id_if(alloc, row, path, "TransitGatewayId")?;
    let kind = resource_of(alloc, row, path)?;
    let usable = is_usable_if(alloc, row, path)?;
    match kind {
        Some(kind) if usable && gateway.is_some() => Ok(Some(Far { id, kind })),
        _ => Ok(None),
    }
}

/// The rows of `TransitGatewayAttachments`, as far as they tell of networks.
pub struct FarAttachments;

impl ReadRow for FarAttachments {
    type Row = Option<Far>;

    ghost meaning = { far_attachment_of };

    fn read(alloc: Global, row: &Value, path: &Path) -> Result<Option<Far>, FieldFault> {
        far_attachment_of(alloc, row, path)
    }
}
