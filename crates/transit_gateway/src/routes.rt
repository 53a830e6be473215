// The pieces of one route table.
ghost use Rattle.std.specs.Prelude.{◌≡◌, ◌≤◌, ◌<◌, ◌+◌, ◌*◌, ◌++◌, ◌^◌, ℕ, All, IfOk, OnOk, length};
ghost use Rattle.prefix_text.specs.Block.{IsBlock};
ghost use Rattle.piece_table.specs.Pieces.{ArePieces, told_at};
ghost use Rattle.vpc_model.specs.Transit.{chosen_tgw_route};
ghost use Rattle.transit_gateway.specs.Rows.{IsRouteTable, row_of, rows_of};

use block_pieces::{BlockRow, pieces_of};
use piece_table::Pieces;
use prefix_text::Prefix;
use std::alloc::{AllocError, Global};
use vpc_base::NoMemory;
use vpc_model::TgwRoute;

// What is so of each prefix. It does nothing.
fn is_block(block: &Prefix)
    ensures { IsBlock block.now }
{
    let _first = block.first();
}

// What is so of all pieces. It does nothing.
fn are_pieces(pieces: &Pieces)
    ensures { ArePieces pieces.now }
{
    let _count = pieces.count();
}

// The block of the route with this number. A longer block is better, and of equal lengths a static route:
// one number ranks both.
fn row_of(route: &TgwRoute, number: u32) -> BlockRow
    ensures row { result ≡ row_of number route.now }
    ensures block { IsBlock route.now.block }
{
    is_block(&route.block);
    BlockRow {
        block: route.block,
        rank: u64::from(32 - route.block.length()) * 2 + u64::from(route.propagated),
        row: number,
    }
}

fn rows_of(alloc: Global, routes: &[TgwRoute]) -> Result<Vec<BlockRow>, AllocError>
    requires { length routes.now < 2 ^ 32 }
    ensures rows { IfOk result (λ v. v.items ≡ rows_of 0 routes.now) }
    ensures blocks { OnOk result (All (λ r. IsBlock r.block) routes.now) }
{
    let mut rows = Vec::with_capacity(alloc, routes.len())?;
    for (number, route) in routes.iter().enumerate() {
        rows.push(row_of(route, number as u32))?;
    }
    Ok(rows)
}

/// The pieces of the addresses that each tell the number of the chosen route.
pub fn pieces_for(alloc: Global, routes: &[TgwRoute]) -> Result<Pieces, NoMemory>
    requires { length routes.now < 2 ^ 32 }
    ensures { IfOk result (λ p. IsRouteTable routes.now p) }
{
    let rows = rows_of(alloc, routes)?;
    let pieces = pieces_of(alloc, rows)?;
    are_pieces(&pieces);
    Ok(pieces)
}
