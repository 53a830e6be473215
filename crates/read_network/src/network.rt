// The lists of networks in a bundle.
ghost use Rattle.serde_json.specs.View.{view};
ghost use Rattle.json_fields.specs.FieldFault.{Reads};
ghost use Rattle.read_network.specs.Network.{network_of};

use crate::interfaces::Interfaces;
use crate::prefix_lists::prefix_lists_of;
use crate::subnets::Subnets;
use crate::tables::Tables;
use crate::vpcs::Vpcs;
use json_fields::{FieldFault, read_list};
use serde_json::Value;
use std::alloc::Global;
use vpc_base::OwnList;
use vpc_model::{Interface, PrefixList, RouteTable, Subnet, Vpc};

/// The rows of networks, in the order of the bundle.
#[derive(Drop)]
pub struct NetworkRows {
    pub vpcs: OwnList<Vpc>,
    pub subnets: OwnList<Subnet>,
    pub interfaces: OwnList<Interface>,
    pub tables: OwnList<RouteTable>,
    /// Of the lists that have one id, the first is kept.
    pub lists: OwnList<PrefixList>,
}

/// The network of a bundle, or the first fault where a row can't be read. It takes time linear in the
/// bundle.
///
/// The lists are `Vpcs`, `Subnets`, `NetworkInterfaces`, `RouteTables` and `PrefixLists` of the EC2
/// API's Describe calls, and `PrefixListEntries`, which wraps what GetManagedPrefixListEntries prints:
/// each of its rows has a `PrefixListId` and `Entries`.
pub fn read_network(alloc: Global, bundle: &Value) -> Result<NetworkRows, FieldFault>
    ensures { Reads (λ x. x) (network_of (view bundle.now)) result }
{
    let vpcs = read_list::<Vpcs>(alloc, bundle, "Vpcs")?;
    let subnets = read_list::<Subnets>(alloc, bundle, "Subnets")?;
    let interfaces = read_list::<Interfaces>(alloc, bundle, "NetworkInterfaces")?;
    let tables = read_list::<Tables>(alloc, bundle, "RouteTables")?;
    let lists = prefix_lists_of(alloc, bundle)?;
    Ok(NetworkRows {
        vpcs: OwnList::of(vpcs),
        subnets: OwnList::of(subnets),
        interfaces: OwnList::of(interfaces),
        tables: OwnList::of(tables),
        lists: OwnList::of(lists),
    })
}
