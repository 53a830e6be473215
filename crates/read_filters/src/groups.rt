// Security groups.
ghost use Rattle.std.specs.Prelude.{◌≡◌};
ghost use Rattle.serde_json.specs.View.{view};
ghost use Rattle.json_fields.specs.FieldFault.{Reads};
ghost use Rattle.read_filters.specs.Groups.{group_of};

use crate::permissions::Permissions;
use json_fields::{FieldFault, Path, ReadRow, id_at, read_items};
use serde_json::Value;
use std::alloc::Global;
use vpc_base::OwnList;
use vpc_model::Group;

fn group_of(alloc: Global, row: &Value, path: &Path) -> Result<Group, FieldFault>
    ensures { Reads (λ x. x) (group_of (view row.now) path.now) result }
{
    let id = id_at(alloc, row, path, "GroupId")?;
    let vpc = id_at(alloc, row, path, "VpcId")?;
    let inward = read_items::<Permissions>(alloc, row, path, "IpPermissions")?;
    let outward = read_items::<Permissions>(alloc, row, path, "IpPermissionsEgress")?;
    Ok(Group {
        id,
        vpc,
        inward: OwnList::of(inward),
        outward: OwnList::of(outward),
    })
}

/// The rows of `SecurityGroups`.
pub struct Groups;

impl ReadRow for Groups {
    type Row = Group;

    ghost meaning = { group_of };

    fn read(alloc: Global, row: &Value, path: &Path) -> Result<Group, FieldFault> {
        group_of(alloc, row, path)
    }
}
