// Where security groups count beside their own VPC.
ghost use Rattle.std.specs.Prelude.{◌≡◌, ◌++◌, ◌∷◌, [], IfOk, OnOk};
ghost use Rattle.serde_json.specs.View.{view};
ghost use Rattle.json_fields.specs.FieldFault.{Reads};
ghost use Rattle.read_gateways.specs.Scope.{attachment_option_of, gateway_option_of, group_vpc_of, ids_on, is_on_of, naming_attachments_of, naming_gateways_of, scope_of};

use crate::transit::is_usable_at;
use json_fields::{
    FieldFault, HasId, Path, ReadRow, first_of_each, has_text, id_at, read_kept_list, read_list,
    str_if_within,
};
use serde_json::Value;
use std::alloc::{AllocError, Global};
use vpc_base::OwnList;
use vpc_model::{GroupScope, GroupVpc, Id};

/// A row of a transit gateway or of an attachment, and whether its option for references of groups is on.
#[derive(Drop)]
struct NamingOption {
    id: Id,
    on: bool,
}

impl HasId for NamingOption {
    ghost id_of = { λ row. row.id };

    fn id(&self) -> &Id {
        &self.id
    }
}

fn is_on(alloc: Global, row: &Value, path: &Path) -> Result<bool, FieldFault>
    ensures { Reads (λ x. x) (is_on_of (view row.now) path.now) result }
{
    match str_if_within(
        alloc,
        row,
        path,
        "Options",
        "SecurityGroupReferencingSupport",
    ) {
        Ok(Some(told)) => Ok(told == "enable"),
        Ok(None) => Ok(false),
        Err(fault) => Err(fault),
    }
}

/// The rows of `TransitGateways`.
struct GatewayOptions;

impl ReadRow for GatewayOptions {
    type Row = NamingOption;

    ghost meaning = { gateway_option_of };

    fn read(alloc: Global, row: &Value, path: &Path) -> Result<NamingOption, FieldFault> {
        let id = id_at(alloc, row, path, "TransitGatewayId")?;
        let on = is_on(alloc, row, path)?;
        Ok(NamingOption { id, on })
    }
}

fn attachment_option_of(
    alloc: Global,
    row: &Value,
    path: &Path,
) -> Result<Option<NamingOption>, FieldFault>
    ensures { Reads (λ x. x) (attachment_option_of (view row.now) path.now) result }
{
    let id = id_at(alloc, row, path, "TransitGatewayAttachmentId")?;
    let on = is_on(alloc, row, path)?;
    if !is_usable_at(alloc, row, path)? {
        return Ok(None);
    }
    Ok(Some(NamingOption { id, on }))
}

/// The rows of `TransitGatewayVpcAttachments`, as far as their options go.
struct AttachmentOptions;

impl ReadRow for AttachmentOptions {
    type Row = Option<NamingOption>;

    ghost meaning = { attachment_option_of };

    fn read(alloc: Global, row: &Value, path: &Path) -> Result<Option<NamingOption>, FieldFault> {
        attachment_option_of(alloc, row, path)
    }
}

fn group_vpc_of(alloc: Global, row: &Value, path: &Path) -> Result<Option<GroupVpc>, FieldFault>
    ensures { Reads (λ x. x) (group_vpc_of (view row.now) path.now) result }
{
    let group = id_at(alloc, row, path, "GroupId")?;
    let vpc = id_at(alloc, row, path, "VpcId")?;
    if !has_text(alloc, "associated", row, path, "State")? {
        return Ok(None);
    }
    Ok(Some(GroupVpc { group, vpc }))
}

/// The rows of `SecurityGroupVpcAssociations`.
struct GroupVpcs;

impl ReadRow for GroupVpcs {
    type Row = Option<GroupVpc>;

    ghost meaning = { group_vpc_of };

    fn read(alloc: Global, row: &Value, path: &Path) -> Result<Option<GroupVpc>, FieldFault> {
        group_vpc_of(alloc, row, path)
    }
}

// Adds the id of a row whose option is on.
fn add_on(ids: &mut Vec<Id>, row: NamingOption) -> Result<(), AllocError>
    ensures { OnOk result (ids.new.items ≡ ids.old.items ++ ids_on (row ∷ [])) }
{
    let NamingOption { id, on } = row;
    if on {
        ids.push(id)?;
    }
    Ok(())
}

// The ids of the rows whose option is on.
fn ids_on(alloc: Global, rows: Vec<NamingOption>) -> Result<OwnList<Id>, AllocError>
    ensures { IfOk result (λ ids. ids ≡ ids_on rows.items) }
{
    let mut ids = Vec::new(alloc);
    for row in rows {
        add_on(&mut ids, row)?;
    }
    Ok(OwnList::of(ids))
}

fn naming_gateways_of(alloc: Global, bundle: &Value) -> Result<OwnList<Id>, FieldFault>
    ensures { Reads (λ ids. ids) (naming_gateways_of (view bundle.now)) result }
{
    let all = read_list::<GatewayOptions>(alloc, bundle, "TransitGateways")?;
    let first = first_of_each(alloc, all)?;
    Ok(ids_on(alloc, first)?)
}

fn naming_attachments_of(alloc: Global, bundle: &Value) -> Result<OwnList<Id>, FieldFault>
    ensures { Reads (λ ids. ids) (naming_attachments_of (view bundle.now)) result }
{
    let all = read_kept_list::<NamingOption, AttachmentOptions>(
        alloc,
        bundle,
        "TransitGatewayVpcAttachments",
    )?;
    let first = first_of_each(alloc, all)?;
    Ok(ids_on(alloc, first)?)
}

/// Where a bundle's security groups count beside their own VPC. It takes time linear in the bundle.
///
/// The lists are `TransitGateways`, the options of `TransitGatewayVpcAttachments` and `SecurityGroupVpcAssociations` of the
/// EC2 API's Describe calls of these names. Any of them may be wanting. What they name needn't be described.
pub fn read_group_scope(alloc: Global, bundle: &Value) -> Result<GroupScope, FieldFault>
    ensures { Reads (λ x. x) (scope_of (view bundle.now)) result }
{
    let gateways = naming_gateways_of(alloc, bundle)?;
    let attachments = naming_attachments_of(alloc, bundle)?;
    let vpcs = read_kept_list::<GroupVpc, GroupVpcs>(
        alloc,
        bundle,
        "SecurityGroupVpcAssociations",
    )?;
    Ok(GroupScope {
        gateways,
        attachments,
        vpcs: OwnList::of(vpcs),
    })
}
