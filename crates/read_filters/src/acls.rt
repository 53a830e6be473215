// Network ACLs.
ghost use Rattle.std.specs.Prelude.{◌≡◌, codes};
ghost use Rattle.serde_json.specs.View.{view};
ghost use Rattle.json_fields.specs.FieldFault.{Reads};
ghost use Rattle.json_fields.specs.Fields.{needed, text_in};
ghost use Rattle.read_filters.specs.Acls.{acl_of, action_of, associated_subnet, entry_of, entry_range, head_of, ipv4_entry_of, rule_number_of};
ghost use Rattle.read_filters.specs.Protocols.{numbered_protocol};

use crate::protocols::numbered_protocol;
use crate::ranges::{EVERY_Q, QKind, QRange, RangeFields, kind_of, range_within};
use json_fields::{
    FieldFault, Path, ReadRow, flag_at, id_at, member, number_if, prefix_at, read_items,
    read_kept_items, str_at,
};
use serde_json::Value;
use std::alloc::Global;
use vpc_base::OwnList;
use vpc_model::{Acl, AclRow, Id};

/// What is read of an entry before its block.
#[derive(Clone, Copy)]
struct AclHead {
    number: u16,
    outward: bool,
    proto: Option<u8>,
    allow: bool,
}

fn rule_number_at(alloc: Global, row: &Value, path: &Path) -> Result<u16, FieldFault>
    ensures { Reads (λ x. x) (needed rule_number_of (view row.now) path.now (codes "RuleNumber")) result }
{
    match number_if(alloc, row, path, "RuleNumber", 1, 65535)? {
        Some(number) => Ok(number as u16),
        None => Err(FieldFault::wrong_shape(alloc, path, "RuleNumber")),
    }
}

fn protocol_at(alloc: Global, row: &Value, path: &Path) -> Result<Option<u8>, FieldFault>
    ensures { Reads (λ x. x) (needed (text_in numbered_protocol) (view row.now) path.now
        (codes "Protocol")) result }
{
    match str_at(alloc, row, path, "Protocol") {
        Ok(text) => match numbered_protocol(text) {
            Some(proto) => Ok(proto),
            None => Err(FieldFault::bad_text(alloc, path, "Protocol")),
        },
        Err(fault) => Err(fault),
    }
}

fn action_of(text: &str) -> Option<bool>
    ensures { result ≡ action_of text.now }
{
    if text == "allow" {
        Some(true)
    } else if text == "deny" {
        Some(false)
    } else {
        None
    }
}

fn action_at(alloc: Global, row: &Value, path: &Path) -> Result<bool, FieldFault>
    ensures { Reads (λ x. x) (needed (text_in action_of) (view row.now) path.now
        (codes "RuleAction")) result }
{
    match str_at(alloc, row, path, "RuleAction") {
        Ok(text) => match action_of(text) {
            Some(allow) => Ok(allow),
            None => Err(FieldFault::bad_text(alloc, path, "RuleAction")),
        },
        Err(fault) => Err(fault),
    }
}

fn head_of(alloc: Global, row: &Value, path: &Path) -> Result<AclHead, FieldFault>
    ensures { Reads (λ x. x) (head_of (view row.now) path.now) result }
{
    let number = rule_number_at(alloc, row, path)?;
    let outward = flag_at(alloc, row, path, "Egress")?;
    let proto = protocol_at(alloc, row, path)?;
    let allow = action_at(alloc, row, path)?;
    Ok(AclHead {
        number,
        outward,
        proto,
        allow,
    })
}

fn entry_range(alloc: Global, kind: QKind, row: &Value, path: &Path) -> Result<QRange, FieldFault>
    ensures { Reads (λ x. x) (entry_range kind (view row.now) path.now) result }
{
    match kind {
        QKind::Ports => {
            let fields = RangeFields {
                first: "From",
                last: "To",
            };
            range_within(alloc, kind, row, path, "PortRange", &fields)
        }
        QKind::Messages => {
            let fields = RangeFields {
                first: "Type",
                last: "Code",
            };
            range_within(alloc, kind, row, path, "IcmpTypeCode", &fields)
        }
        QKind::Anything => Ok(EVERY_Q),
    }
}

fn ipv4_entry_of(alloc: Global, row: &Value, path: &Path) -> Result<AclRow, FieldFault>
    ensures { Reads (λ x. x) (ipv4_entry_of (view row.now) path.now) result }
{
    let head = head_of(alloc, row, path)?;
    let block = prefix_at(alloc, row, path, "CidrBlock")?;
    let q = entry_range(alloc, kind_of(head.proto), row, path)?;
    Ok(AclRow {
        number: head.number,
        outward: head.outward,
        allow: head.allow,
        proto: head.proto,
        q_from: q.first,
        q_to: q.last,
        block,
    })
}

fn entry_of(alloc: Global, row: &Value, path: &Path) -> Result<Option<AclRow>, FieldFault>
    ensures { Reads (λ x. x) (entry_of (view row.now) path.now) result }
{
    match member(row, "CidrBlock") {
        Some(_) => Ok(Some(ipv4_entry_of(alloc, row, path)?)),
        None => Ok(None),
    }
}

/// The rows of an ACL's `Entries`.
struct Entries;

impl ReadRow for Entries {
    type Row = Option<AclRow>;

    ghost meaning = { entry_of };

    fn read(alloc: Global, row: &Value, path: &Path) -> Result<Option<AclRow>, FieldFault> {
        entry_of(alloc, row, path)
    }
}

/// The rows of an ACL's `Associations`.
struct AssociatedSubnets;

impl ReadRow for AssociatedSubnets {
    type Row = Id;

    ghost meaning = { associated_subnet };

    fn read(alloc: Global, row: &Value, path: &Path) -> Result<Id, FieldFault> {
        id_at(alloc, row, path, "SubnetId")
    }
}

fn acl_of(alloc: Global, row: &Value, path: &Path) -> Result<Acl, FieldFault>
    ensures { Reads (λ x. x) (acl_of (view row.now) path.now) result }
{
    let id = id_at(alloc, row, path, "NetworkAclId")?;
    let subnets = read_items::<AssociatedSubnets>(alloc, row, path, "Associations")?;
    let rows = read_kept_items::<AclRow, Entries>(alloc, row, path, "Entries")?;
    Ok(Acl {
        id,
        subnets: OwnList::of(subnets),
        rows: OwnList::of(rows),
    })
}

/// The rows of `NetworkAcls`.
pub struct Acls;

impl ReadRow for Acls {
    type Row = Acl;

    ghost meaning = { acl_of };

    fn read(alloc: Global, row: &Value, path: &Path) -> Result<Acl, FieldFault> {
        acl_of(alloc, row, path)
    }
}
