// The pieces of all route tables.
ghost use Rattle.std.specs.Prelude.{◌≡◌, ◌<◌, ◌^◌, ◌++◌, ◌∷◌, [], All, IfOk, OnOk, length};
ghost use Rattle.transit_gateway.specs.Index.{AreRouteTables};

use crate::routes::pieces_for;
use piece_table::Pieces;
use std::alloc::Global;
use vpc_base::NoMemory;
use vpc_model::TgwTable;

/// The pieces of each table, in the order of the tables.
pub fn all_pieces(alloc: Global, tables: &[TgwTable]) -> Result<Vec<Pieces>, NoMemory>
    requires { All (λ t. length t.routes < 2 ^ 32) tables.now }
    ensures { IfOk result (λ v. AreRouteTables tables.now v.items) }
{
    let mut all = Vec::with_capacity(alloc, tables.len())?;
    for table in tables {
        let pieces = pieces_for(alloc, table.routes.as_slice())?;
        add(&mut all, pieces)?;
    }
    Ok(all)
}

fn add(all: &mut Vec<Pieces>, pieces: Pieces) -> Result<(), NoMemory>
    ensures { OnOk result (all.new.items ≡ all.old.items ++ pieces ∷ []) }
{
    match all.push(pieces) {
        Ok(()) => Ok(()),
        Err(_) => Err(NoMemory),
    }
}
