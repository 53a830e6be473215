// Route tables.
ghost use Rattle.std.specs.Prelude.{◌≡◌, ◌++◌, ◌∷◌, [], IfOk, OnOk};
ghost use Rattle.serde_json.specs.View.{view};
ghost use Rattle.json_fields.specs.FieldFault.{Reads};
ghost use Rattle.json_fields.specs.Kept.{those_there};
ghost use Rattle.read_network.specs.Tables.{is_main, served_of, table_association, table_of};

use crate::routes::Routes;
use json_fields::{FieldFault, Path, ReadRow, flag_if, id_at, id_if, read_items, read_kept_items};
use serde_json::Value;
use std::alloc::{AllocError, Global};
use vpc_base::OwnList;
use vpc_model::{Id, Route, RouteTable};

/// What an association of a route table makes of it.
#[derive(Drop)]
struct TableAssociation {
    main: bool,
    subnet: Option<Id>,
    gateway: Option<Id>,
}

/// Whose packets a route table routes, but for those of its VPC's other subnets where it is the main one.
#[derive(Drop)]
struct Served {
    subnets: OwnList<Id>,
    gateways: OwnList<Id>,
}

fn table_association(
    alloc: Global,
    row: &Value,
    path: &Path,
) -> Result<TableAssociation, FieldFault>
    ensures { Reads (λ x. x) (table_association (view row.now) path.now) result }
{
    let main = flag_if(alloc, row, path, "Main")?;
    let subnet = id_if(alloc, row, path, "SubnetId")?;
    let gateway = id_if(alloc, row, path, "GatewayId")?;
    Ok(TableAssociation {
        main: main.unwrap_or(false),
        subnet,
        gateway,
    })
}

/// The rows of a route table's `Associations`.
struct TableAssociations;

impl ReadRow for TableAssociations {
    type Row = TableAssociation;

    ghost meaning = { table_association };

    fn read(alloc: Global, row: &Value, path: &Path) -> Result<TableAssociation, FieldFault> {
        table_association(alloc, row, path)
    }
}

fn is_main(associations: &[TableAssociation]) -> bool
    ensures { result ≡ is_main associations.now }
{
    associations.iter().any(|association| association.main)
}

// Adds the id after those that are there, if it is told.
fn add_told(ids: &mut Vec<Id>, id: Option<Id>) -> Result<(), AllocError>
    ensures { OnOk result (ids.new.items ≡ ids.old.items ++ those_there (id ∷ [])) }
{
    if let Some(id) = id {
        ids.push(id)?;
    }
    Ok(())
}

#[tactic(auto, using(json_fields::proofs::KeptLemmas::there_next))]
fn served_of(alloc: Global, associations: Vec<TableAssociation>) -> Result<Served, AllocError>
    ensures { IfOk result (λ served. served ≡ served_of associations.items) }
{
    let mut subnets = Vec::new(alloc);
    let mut gateways = Vec::new(alloc);
    for association in associations {
        add_told(&mut subnets, association.subnet)?;
        add_told(&mut gateways, association.gateway)?;
    }
    Ok(Served {
        subnets: OwnList::of(subnets),
        gateways: OwnList::of(gateways),
    })
}

fn table_of(alloc: Global, row: &Value, path: &Path) -> Result<RouteTable, FieldFault>
    ensures { Reads (λ x. x) (table_of (view row.now) path.now) result }
{
    let id = id_at(alloc, row, path, "RouteTableId")?;
    let vpc = id_at(alloc, row, path, "VpcId")?;
    let associations = read_items::<TableAssociations>(alloc, row, path, "Associations")?;
    let routes = read_kept_items::<Route, Routes>(alloc, row, path, "Routes")?;
    let main = is_main(associations.as_slice());
    let served = served_of(alloc, associations)?;
    Ok(RouteTable {
        id,
        vpc,
        main,
        subnets: served.subnets,
        gateways: served.gateways,
        routes: OwnList::of(routes),
    })
}

/// The rows of `RouteTables`.
pub struct Tables;

impl ReadRow for Tables {
    type Row = RouteTable;

    ghost meaning = { table_of };

    fn read(alloc: Global, row: &Value, path: &Path) -> Result<RouteTable, FieldFault> {
        table_of(alloc, row, path)
    }
}
