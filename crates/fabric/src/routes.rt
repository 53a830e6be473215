// The indexes of all route tables.
ghost use Rattle.std.specs.Prelude.{◌≡◌, ◌++◌, ◌∷◌, [], IfOk, IsTrue, OnOk};
ghost use Rattle.std.specs.List.{AllZip};
ghost use Rattle.vpc_model.specs.Lookup.{table_at};
ghost use Rattle.vpc_model.specs.Sound.{is_table};
ghost use Rattle.fabric.specs.Indexes.{IsRouteIndex};

use reference_check::Network;
use route_tables::RouteIndex;
use std::alloc::Global;
use vpc_base::NoMemory;
use vpc_model::TableNo;

fn index_of(alloc: Global, n: &Network, t: TableNo) -> Result<RouteIndex, NoMemory>
    requires { IsTrue (is_table n.now t) }
    ensures { IfOk result (IsRouteIndex n.now (table_at n.now t)) }
{
    RouteIndex::of(alloc, n, t)
}

/// The index of each route table, in their order.
pub fn route_indexes(alloc: Global, n: &Network) -> Result<Vec<RouteIndex>, NoMemory>
    ensures { IfOk result (λ v. AllZip (IsRouteIndex n.now) n.now.tables v.items) }
{
    let tables = n.description().tables.as_slice();
    let mut indexes = Vec::with_capacity(alloc, tables.len())?;
    for (k, _table) in tables.iter().enumerate() {
        let index = index_of(alloc, n, TableNo(k as u32))?;
        add(&mut indexes, index)?;
    }
    Ok(indexes)
}

/// Appends an index.
pub fn add<T: Drop>(indexes: &mut Vec<T>, index: T) -> Result<(), NoMemory>
    ensures { OnOk result (indexes.new.items ≡ indexes.old.items ++ index ∷ []) }
{
    match indexes.push(index) {
        Ok(()) => Ok(()),
        Err(_) => Err(NoMemory),
    }
}
