// Transit gateways.
ghost use Rattle.std.specs.Prelude.{◌≡◌};
ghost use Rattle.serde_json.specs.View.{view};
ghost use Rattle.json_fields.specs.FieldFault.{Reads};
ghost use Rattle.read_gateways.specs.Transit.{association_of, attachment_of, destination_of, first_attachment, head_of, ipv4_route_of, is_ipv6, is_usable, is_usable_of, named_attachment, tgw_route_of, tgw_table_of};

use crate::ids::{IdItems, first_id};
use crate::texts::text_is;
use json_fields::{
    FieldFault, Path, ReadRow, id_at, id_if_within, read_items, read_kept_items, str_at,
};
use prefix_text::{Prefix, read_prefix};
use serde_json::Value;
use std::alloc::Global;
use vpc_base::OwnList;
use vpc_model::{Association, Attachment, Id, TgwRoute, TgwTable};

/// Whether an attachment in this state carries packets.
pub fn is_usable(state: &str) -> bool
    ensures { result ≡ is_usable state.now }
{
    state == "available" || state == "modifying"
}

/// Whether the attachment carries packets.
pub fn is_usable_at(alloc: Global, row: &Value, path: &Path) -> Result<bool, FieldFault>
    ensures { Reads (λ x. x) (is_usable_of (view row.now) path.now) result }
{
    match str_at(alloc, row, path, "State") {
        Ok(state) => Ok(is_usable(state)),
        Err(fault) => Err(fault),
    }
}

/// What is read of an attachment before its subnets.
#[derive(Drop)]
struct AttachmentHead {
    id: Id,
    gateway: Id,
    vpc: Id,
}

fn head_of(alloc: Global, row: &Value, path: &Path) -> Result<AttachmentHead, FieldFault>
    ensures { Reads (λ x. x) (head_of (view row.now) path.now) result }
{
    let id = id_at(alloc, row, path, "TransitGatewayAttachmentId")?;
    let gateway = id_at(alloc, row, path, "TransitGatewayId")?;
    let vpc = id_at(alloc, row, path, "VpcId")?;
    Ok(AttachmentHead { id, gateway, vpc })
}

fn attachment_of(alloc: Global, row: &Value, path: &Path) -> Result<Option<Attachment>, FieldFault>
    ensures { Reads (λ x. x) (attachment_of (view row.now) path.now) result }
{
    let head = head_of(alloc, row, path)?;
    let subnets = read_items::<IdItems>(alloc, row, path, "SubnetIds")?;
    if !is_usable_at(alloc, row, path)? {
        return Ok(None);
    }
    Ok(Some(Attachment {
        id: head.id,
        gateway: head.gateway,
        vpc: head.vpc,
        subnets: OwnList::of(subnets),
    }))
}

/// The rows of `TransitGatewayVpcAttachments`.
pub struct Attachments;

impl ReadRow for Attachments {
    type Row = Option<Attachment>;

    ghost meaning = { attachment_of };

    fn read(alloc: Global, row: &Value, path: &Path) -> Result<Option<Attachment>, FieldFault> {
        attachment_of(alloc, row, path)
    }
}

fn association_of(
    alloc: Global,
    row: &Value,
    path: &Path,
) -> Result<Option<Association>, FieldFault>
    ensures { Reads (λ x. x) (association_of (view row.now) path.now) result }
{
    let attachment = id_at(alloc, row, path, "TransitGatewayAttachmentId")?;
    let table = id_if_within(
        alloc,
        row,
        path,
        "Association",
        "TransitGatewayRouteTableId",
    )?;
    match table {
        Some(table) => Ok(Some(Association { attachment, table })),
        None => Ok(None),
    }
}

/// The rows of `TransitGatewayAttachments`.
pub struct Associations;

impl ReadRow for Associations {
    type Row = Option<Association>;

    ghost meaning = { association_of };

    fn read(alloc: Global, row: &Value, path: &Path) -> Result<Option<Association>, FieldFault> {
        association_of(alloc, row, path)
    }
}

fn is_ipv6(text: &str) -> bool
    ensures { result ≡ is_ipv6 text.now }
{
    text.as_bytes().iter().any(|c| *c == b':')
}

fn destination_of(alloc: Global, row: &Value, path: &Path) -> Result<Option<Prefix>, FieldFault>
    ensures { Reads (λ x. x) (destination_of (view row.now) path.now) result }
{
    let text = match str_at(alloc, row, path, "DestinationCidrBlock") {
        Ok(text) => text,
        Err(fault) => return Err(fault),
    };
    if is_ipv6(text) {
        return Ok(None);
    }
    match read_prefix(text.as_bytes()) {
        Some(block) => Ok(Some(block)),
        None => Err(FieldFault::bad_text(alloc, path, "DestinationCidrBlock")),
    }
}

/// The attachments that a route lists.
struct NamedAttachments;

impl ReadRow for NamedAttachments {
    type Row = Id;

    ghost meaning = { named_attachment };

    fn read(alloc: Global, row: &Value, path: &Path) -> Result<Id, FieldFault> {
        id_at(alloc, row, path, "TransitGatewayAttachmentId")
    }
}

// The first attachment that is listed counts, and all of them are read.
fn first_attachment(alloc: Global, row: &Value, path: &Path) -> Result<Option<Id>, FieldFault>
    ensures { Reads (λ x. x) (first_attachment (view row.now) path.now) result }
{
    let all = read_items::<NamedAttachments>(alloc, row, path, "TransitGatewayAttachments")?;
    Ok(first_id(all))
}

fn ipv4_route_of(
    alloc: Global,
    block: Prefix,
    row: &Value,
    path: &Path,
) -> Result<TgwRoute, FieldFault>
    ensures { Reads (λ x. x) (ipv4_route_of block (view row.now) path.now) result }
{
    let propagated = text_is(alloc, "propagated", row, path, "Type")?;
    let blackhole = text_is(alloc, "blackhole", row, path, "State")?;
    let attachment = first_attachment(alloc, row, path)?;
    Ok(TgwRoute {
        block,
        blackhole,
        propagated,
        attachment,
    })
}

fn tgw_route_of(alloc: Global, row: &Value, path: &Path) -> Result<Option<TgwRoute>, FieldFault>
    ensures { Reads (λ x. x) (tgw_route_of (view row.now) path.now) result }
{
    match destination_of(alloc, row, path)? {
        Some(block) => Ok(Some(ipv4_route_of(alloc, block, row, path)?)),
        None => Ok(None),
    }
}

/// The rows of a transit table's `Routes`.
struct TgwRoutes;

impl ReadRow for TgwRoutes {
    type Row = Option<TgwRoute>;

    ghost meaning = { tgw_route_of };

    fn read(alloc: Global, row: &Value, path: &Path) -> Result<Option<TgwRoute>, FieldFault> {
        tgw_route_of(alloc, row, path)
    }
}

fn tgw_table_of(alloc: Global, row: &Value, path: &Path) -> Result<TgwTable, FieldFault>
    ensures { Reads (λ x. x) (tgw_table_of (view row.now) path.now) result }
{
    let id = id_at(alloc, row, path, "TransitGatewayRouteTableId")?;
    let routes = read_kept_items::<TgwRoute, TgwRoutes>(alloc, row, path, "Routes")?;
    Ok(TgwTable {
        id,
        routes: OwnList::of(routes),
    })
}

/// The rows of `TransitGatewayRoutes`.
pub struct TgwTables;

impl ReadRow for TgwTables {
    type Row = TgwTable;

    ghost meaning = { tgw_table_of };

    fn read(alloc: Global, row: &Value, path: &Path) -> Result<TgwTable, FieldFault> {
        tgw_table_of(alloc, row, path)
    }
}
