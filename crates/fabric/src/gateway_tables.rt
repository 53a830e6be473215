// The route tables of gateways.
ghost use Rattle.std.specs.Prelude.{◌≡◌, ◌++◌, IfOk, OnOk, map};
ghost use Rattle.vpc_model.specs.Firewalls.{edge_table};
ghost use Rattle.fabric.specs.Named.{by_gateways, named_by, named_from};
ghost use Rattle.fabric.specs.Outside.{network_table, tables_of_gateways, tables_of_networks};

use crate::named::{FirstNamed, Named};
use crate::routes::add;
use reference_check::Network;
use std::alloc::{AllocError, Global};
use vpc_base::NoMemory;
use vpc_model::{Far, FarKind, Id, TableNo};

// Adds the gateways that a table is associated with.
fn add_gateways(
    alloc: Global,
    rows: &mut Vec<Named>,
    number: u32,
    gateways: &[Id],
) -> Result<(), NoMemory>
    ensures { OnOk result (rows.new.items ≡ rows.old.items ++ map (named_by number) gateways.now) }
{
    for gateway in gateways {
        let id = gateway.copied(alloc)?;
        add(rows, Named { id, number })?;
    }
    Ok(())
}

fn gateways_of(alloc: Global, n: &Network) -> Result<Vec<Named>, NoMemory>
    ensures { IfOk result (λ v. v.items ≡ named_from by_gateways 0 n.now.tables) }
{
    let tables = n.description().tables.as_slice();
    let mut rows = Vec::new(alloc);
    for (number, table) in tables.iter().enumerate() {
        add_gateways(alloc, &mut rows, number as u32, table.gateways.as_slice())?;
    }
    Ok(rows)
}

/// The gateways of a network's tables, with the numbers of the tables.
pub fn associated_gateways(alloc: Global, n: &Network) -> Result<FirstNamed, NoMemory>
    ensures { IfOk result (λ t. t ≡ named_from by_gateways 0 n.now.tables) }
{
    let rows = gateways_of(alloc, n)?;
    let associated = FirstNamed::of(alloc, rows)?;
    Ok(associated)
}

fn table_of(n: &Network, associated: &FirstNamed, gateway: &Id) -> Option<TableNo>
    requires { associated.now ≡ named_from by_gateways 0 n.now.tables }
    ensures { result ≡ edge_table n.now gateway.now }
{
    let _ = n;
    match associated.get(gateway) {
        Some(number) => Some(TableNo(number)),
        None => None,
    }
}

/// The table of each internet gateway, if it has one.
pub fn gateway_tables(
    alloc: Global,
    n: &Network,
    associated: &FirstNamed,
) -> Result<Vec<Option<TableNo>>, AllocError>
    requires { associated.now ≡ named_from by_gateways 0 n.now.tables }
    ensures { IfOk result (λ v. v.items ≡ tables_of_gateways n.now) }
{
    let igws = n.description().igws.as_slice();
    let mut tables = Vec::with_capacity(alloc, igws.len())?;
    for igw in igws {
        tables.push(table_of(n, associated, &igw.id))?;
    }
    Ok(tables)
}

fn network_table(n: &Network, associated: &FirstNamed, far: &Far) -> Option<TableNo>
    requires { associated.now ≡ named_from by_gateways 0 n.now.tables }
    ensures { result ≡ network_table n.now far.now }
{
    match &far.kind {
        FarKind::PrivateGateway(_) => table_of(n, associated, &far.id),
        FarKind::Attachment(_) => None,
        FarKind::Peering(_, _) => None,
        FarKind::Endpoint(_) => None,
    }
}

/// The table of the virtual private gateway that leads to each network, if one does and it has one.
pub fn network_tables(
    alloc: Global,
    n: &Network,
    associated: &FirstNamed,
) -> Result<Vec<Option<TableNo>>, AllocError>
    requires { associated.now ≡ named_from by_gateways 0 n.now.tables }
    ensures { IfOk result (λ v. v.items ≡ tables_of_networks n.now) }
{
    let fars = n.description().fars.as_slice();
    let mut tables = Vec::with_capacity(alloc, fars.len())?;
    for far in fars {
        tables.push(network_table(n, associated, far))?;
    }
    Ok(tables)
}
