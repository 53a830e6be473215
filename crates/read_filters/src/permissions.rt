// Permissions of security groups.
ghost use Rattle.std.specs.Prelude.{◌≡◌, codes};
ghost use Rattle.serde_json.specs.View.{view};
ghost use Rattle.json_fields.specs.FieldFault.{Reads};
ghost use Rattle.json_fields.specs.Fields.{needed, text_in};
ghost use Rattle.read_filters.specs.Permissions.{named_list, paired_group, permission_of, range_block, targets_of, traffic_of};
ghost use Rattle.read_filters.specs.Protocols.{named_protocol};

use crate::protocols::named_protocol;
use crate::ranges::{QRange, RangeFields, kind_of, range_of};
use json_fields::{
    FieldFault, Path, ReadRow, id_at, id_if, prefix_at, read_items, read_kept_items, str_at,
};
use prefix_text::Prefix;
use serde_json::Value;
use std::alloc::Global;
use vpc_base::OwnList;
use vpc_model::{Id, Permission};

/// The packets that a permission is for.
#[derive(Clone, Copy)]
pub struct Traffic {
    pub proto: Option<u8>,
    pub q: QRange,
}

fn protocol_at(alloc: Global, row: &Value, path: &Path) -> Result<Option<u8>, FieldFault>
    ensures { Reads (λ x. x) (needed (text_in named_protocol) (view row.now) path.now
        (codes "IpProtocol")) result }
{
    match str_at(alloc, row, path, "IpProtocol") {
        Ok(text) => match named_protocol(text) {
            Some(proto) => Ok(proto),
            None => Err(FieldFault::bad_text(alloc, path, "IpProtocol")),
        },
        Err(fault) => Err(fault),
    }
}

/// The packets that a permission or a rule of its own is for: `IpProtocol`, and `FromPort` and `ToPort`
/// where the protocol has ports or ICMP types and codes.
pub fn traffic_of(alloc: Global, row: &Value, path: &Path) -> Result<Traffic, FieldFault>
    ensures { Reads (λ x. x) (traffic_of (view row.now) path.now) result }
{
    let proto = protocol_at(alloc, row, path)?;
    let fields = RangeFields {
        first: "FromPort",
        last: "ToPort",
    };
    let q = range_of(alloc, kind_of(proto), row, path, &fields)?;
    Ok(Traffic { proto, q })
}

/// The rows of a permission's `IpRanges`.
struct RangeBlocks;

impl ReadRow for RangeBlocks {
    type Row = Prefix;

    ghost meaning = { range_block };

    fn read(alloc: Global, row: &Value, path: &Path) -> Result<Prefix, FieldFault> {
        prefix_at(alloc, row, path, "CidrIp")
    }
}

/// The rows of a permission's `PrefixListIds`.
struct NamedLists;

impl ReadRow for NamedLists {
    type Row = Id;

    ghost meaning = { named_list };

    fn read(alloc: Global, row: &Value, path: &Path) -> Result<Id, FieldFault> {
        id_at(alloc, row, path, "PrefixListId")
    }
}

/// The rows of a permission's `UserIdGroupPairs`.
struct PairedGroups;

impl ReadRow for PairedGroups {
    type Row = Option<Id>;

    ghost meaning = { paired_group };

    fn read(alloc: Global, row: &Value, path: &Path) -> Result<Option<Id>, FieldFault> {
        id_if(alloc, row, path, "GroupId")
    }
}

/// The sources or destinations of a permission.
#[derive(Drop)]
pub struct Targets {
    pub blocks: OwnList<Prefix>,
    pub lists: OwnList<Id>,
    pub groups: OwnList<Id>,
}

fn targets_of(alloc: Global, row: &Value, path: &Path) -> Result<Targets, FieldFault>
    ensures { Reads (λ x. x) (targets_of (view row.now) path.now) result }
{
    let blocks = read_items::<RangeBlocks>(alloc, row, path, "IpRanges")?;
    let lists = read_items::<NamedLists>(alloc, row, path, "PrefixListIds")?;
    let groups = read_kept_items::<Id, PairedGroups>(alloc, row, path, "UserIdGroupPairs")?;
    Ok(Targets {
        blocks: OwnList::of(blocks),
        lists: OwnList::of(lists),
        groups: OwnList::of(groups),
    })
}

fn permission_of(alloc: Global, row: &Value, path: &Path) -> Result<Permission, FieldFault>
    ensures { Reads (λ x. x) (permission_of (view row.now) path.now) result }
{
    let traffic = traffic_of(alloc, row, path)?;
    let targets = targets_of(alloc, row, path)?;
    Ok(Permission {
        id: None,
        proto: traffic.proto,
        q_from: traffic.q.first,
        q_to: traffic.q.last,
        blocks: targets.blocks,
        lists: targets.lists,
        groups: targets.groups,
    })
}

/// The rows of a group's `IpPermissions` and `IpPermissionsEgress`.
pub struct Permissions;

impl ReadRow for Permissions {
    type Row = Permission;

    ghost meaning = { permission_of };

    fn read(alloc: Global, row: &Value, path: &Path) -> Result<Permission, FieldFault> {
        permission_of(alloc, row, path)
    }
}
