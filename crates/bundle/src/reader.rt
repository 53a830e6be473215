// The network that a bundle describes.
ghost use Rattle.std.specs.Prelude.{◌≡◌, IfErr, IfOk};
ghost use Rattle.serde_json.specs.View.{view};
ghost use Rattle.json_fields.specs.FieldFault.{Reads};
ghost use Rattle.bundle.specs.Json.{IsJson};
ghost use Rattle.bundle.specs.Meaning.{IsDescribedBy, IsMeantBy, IsUnread, description_of, meaning_of, with_later_lists, with_rows};

use crate::BundleRefusal;
use crate::instances::read_instances;
use json_fields::FieldFault;
use read_filters::{FilterRows, read_filters, read_group_rules};
use read_gateways::{GatewayRows, OutsideRows, read_gateways, read_group_scope, read_outside};
use read_network::{NetworkRows, read_appliances, read_network};
use reference_check::Network;
use serde_json::Value;
use std::alloc::Global;
use vpc_base::OwnList;
use vpc_model::{Acl, Appliance, Description, Group, GroupScope};

// The rows of all lists, as one description.
fn with_rows(
    network: NetworkRows,
    acls: OwnList<Acl>,
    groups: Vec<Group>,
    gateways: GatewayRows,
    appliances: Vec<Appliance>,
    outside: OutsideRows,
    scope: GroupScope,
) -> Description
    ensures { result ≡ with_rows network acls groups.items gateways appliances.items outside scope }
{
    Description {
        vpcs: network.vpcs,
        subnets: network.subnets,
        interfaces: network.interfaces,
        tables: network.tables,
        lists: network.lists,
        acls,
        groups: OwnList::of(groups),
        igws: gateways.igws,
        nats: gateways.nats,
        peerings: gateways.peerings,
        attachments: gateways.attachments,
        associations: gateways.associations,
        tgw_tables: gateways.tgw_tables,
        appliances: OwnList::of(appliances),
        fars: outside.fars,
        firewalls: outside.firewalls,
        scope,
    }
}

// The rows of all lists, with what later lists tell of groups, interfaces and networks that aren't described.
fn with_later_lists(
    alloc: Global,
    bundle: &Value,
    network: NetworkRows,
    filters: FilterRows,
    gateways: GatewayRows,
    appliances: Vec<Appliance>,
) -> Result<Description, FieldFault>
    ensures { Reads (λ d. d) (with_later_lists
        (view bundle.now) network filters gateways appliances.items) result }
{
    let groups = read_group_rules(alloc, bundle, filters.groups.into_vec())?;
    let outside = read_outside(alloc, bundle)?;
    let interfaces = read_instances(alloc, bundle, network.interfaces.into_vec())?;
    let scope = read_group_scope(alloc, bundle)?;
    let network = NetworkRows {
        interfaces: OwnList::of(interfaces),
        ..network
    };
    Ok(with_rows(
        network,
        filters.acls,
        groups,
        gateways,
        appliances,
        outside,
        scope,
    ))
}

// The rows of a bundle, or its first fault.
fn description_of(alloc: Global, bundle: &Value) -> Result<Description, FieldFault>
    ensures { Reads (λ d. d) (description_of (view bundle.now)) result }
{
    let network = read_network(alloc, bundle)?;
    let filters = read_filters(alloc, bundle)?;
    let gateways = read_gateways(alloc, bundle)?;
    let appliances = read_appliances(alloc, bundle)?;
    with_later_lists(alloc, bundle, network, filters, gateways, appliances)
}

/// The network that the JSON value of a bundle describes. It takes time linear in the bundle, but for
/// hashing of ids that were chosen to collide.
pub fn network_of(alloc: Global, bundle: &Value) -> Result<Network, BundleRefusal>
    ensures { IsMeantBy (meaning_of (view bundle.now)) result }
{
    let description = description_of(alloc, bundle)?;
    Ok(Network::of(alloc, description)?)
}

/// The JSON value of a bundle.
pub fn read_json(alloc: Global, bytes: &[u8]) -> Result<Value, BundleRefusal>
    ensures value { IfOk result (λ bundle. IsJson bytes.now (view bundle)) }
    ensures cause { IfErr result (IsUnread bytes.now) }
{
    match Value::from_slice(alloc, bytes) {
        Ok(bundle) => Ok(bundle),
        Err(e) if e.is_memory() => Err(BundleRefusal::Memory),
        Err(_) => Err(BundleRefusal::NotJson),
    }
}

/// The network that the bytes of a bundle describe.
pub fn read_bundle(alloc: Global, bytes: &[u8]) -> Result<Network, BundleRefusal>
    ensures { IsDescribedBy bytes.now result }
{
    let bundle = read_json(alloc, bytes)?;
    network_of(alloc, &bundle)
}
