// The lists of gateways in a bundle.
ghost use Rattle.std.specs.Prelude.{◌≡◌};
ghost use Rattle.serde_json.specs.View.{view};
ghost use Rattle.json_fields.specs.FieldFault.{Reads};
ghost use Rattle.read_gateways.specs.Gateways.{associations_of, attachments_of, gateways_of, peerings_of, transit_of};

use crate::internet::InternetGateways;
use crate::nat::NatGateways;
use crate::peerings::Peerings;
use crate::transit::{Associations, Attachments, TgwTables};
use json_fields::{FieldFault, first_of_each, read_kept_list, read_list};
use serde_json::Value;
use std::alloc::Global;
use vpc_base::OwnList;
use vpc_model::{Association, Attachment, InternetGateway, NatGateway, Peering, TgwTable};

/// The rows of gateways, in the order of the bundle.
#[derive(Drop)]
pub struct GatewayRows {
    pub igws: OwnList<InternetGateway>,
    pub nats: OwnList<NatGateway>,
    pub peerings: OwnList<Peering>,
    pub attachments: OwnList<Attachment>,
    pub associations: OwnList<Association>,
    pub tgw_tables: OwnList<TgwTable>,
}

/// The rows of transit gateways.
#[derive(Drop)]
struct TransitRows {
    attachments: OwnList<Attachment>,
    associations: OwnList<Association>,
    tgw_tables: OwnList<TgwTable>,
}

fn peerings_of(alloc: Global, bundle: &Value) -> Result<Vec<Peering>, FieldFault>
    ensures { Reads (λ v. v.items) (peerings_of (view bundle.now)) result }
{
    let all = read_list::<Peerings>(alloc, bundle, "VpcPeeringConnections")?;
    Ok(first_of_each(alloc, all)?)
}

fn attachments_of(alloc: Global, bundle: &Value) -> Result<Vec<Attachment>, FieldFault>
    ensures { Reads (λ v. v.items) (attachments_of (view bundle.now)) result }
{
    let all = read_kept_list::<Attachment, Attachments>(
        alloc,
        bundle,
        "TransitGatewayVpcAttachments",
    )?;
    Ok(first_of_each(alloc, all)?)
}

fn associations_of(alloc: Global, bundle: &Value) -> Result<Vec<Association>, FieldFault>
    ensures { Reads (λ v. v.items) (associations_of (view bundle.now)) result }
{
    let all = read_kept_list::<Association, Associations>(
        alloc,
        bundle,
        "TransitGatewayAttachments",
    )?;
    Ok(first_of_each(alloc, all)?)
}

fn transit_of(alloc: Global, bundle: &Value) -> Result<TransitRows, FieldFault>
    ensures { Reads (λ x. x) (transit_of (view bundle.now)) result }
{
    let attachments = attachments_of(alloc, bundle)?;
    let associations = associations_of(alloc, bundle)?;
    let tgw_tables = read_list::<TgwTables>(alloc, bundle, "TransitGatewayRoutes")?;
    Ok(TransitRows {
        attachments: OwnList::of(attachments),
        associations: OwnList::of(associations),
        tgw_tables: OwnList::of(tgw_tables),
    })
}

/// The gateways of a bundle as the EC2 API's Describe calls print them, and the first fault where one
/// can't be read. It takes time linear in the bundle.
///
/// The lists are `InternetGateways`, `NatGateways`, `VpcPeeringConnections`,
/// `TransitGatewayVpcAttachments` and `TransitGatewayAttachments` of the calls of these names, and
/// `TransitGatewayRoutes`, which wraps what SearchTransitGatewayRoutes prints: each of its rows has a
/// `TransitGatewayRouteTableId` and `Routes`. Of peerings and attachments that two accounts list, the
/// first row is kept.
pub fn read_gateways(alloc: Global, bundle: &Value) -> Result<GatewayRows, FieldFault>
    ensures { Reads (λ x. x) (gateways_of (view bundle.now)) result }
{
    let igws = read_list::<InternetGateways>(alloc, bundle, "InternetGateways")?;
    let nats = read_list::<NatGateways>(alloc, bundle, "NatGateways")?;
    let peerings = peerings_of(alloc, bundle)?;
    let transit = transit_of(alloc, bundle)?;
    Ok(GatewayRows {
        igws: OwnList::of(igws),
        nats: OwnList::of(nats),
        peerings: OwnList::of(peerings),
        attachments: transit.attachments,
        associations: transit.associations,
        tgw_tables: transit.tgw_tables,
    })
}
