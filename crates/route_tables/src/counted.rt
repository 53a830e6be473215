// The blocks by which a table chooses.
ghost use Rattle.std.specs.Prelude.{◌≡◌, ◌<◌, ◌∷◌, ◌++◌, ◌^◌, [], All, IfOk, OnOk, filter, length, map, not};
ghost use Rattle.prefix_text.specs.Block.{IsBlock};
ghost use Rattle.vpc_model.specs.Cuts.{blocks_of_reach};
ghost use Rattle.route_tables.specs.Rows.{AreBlocks, counted_rows_of, counted_rows_once, is_covered, row_of};

use crate::blocks::{blocks_of, is_block, is_local, kind_of};
use crate::repeats::SeenUses;
use block_pieces::BlockRow;
use piece_table::{Pieces, Steps};
use prefix_text::Prefix;
use reference_check::Network;
use std::alloc::{AllocError, Global};
use std::sync::ledger::Ledger;
use vpc_model::Route;

// A block of the route with this number. A longer block is better, and of equal lengths the kind that
// comes before: one number ranks both, as a kind is below 4.
fn row_of(block: &Prefix, kind: u8, number: u32) -> BlockRow
    ensures row { result ≡ row_of kind number block.now }
    ensures block { IsBlock block.now }
{
    is_block(block);
    let length = block.length();
    BlockRow {
        block: *block,
        rank: u64::from(32 - length) * 4 + u64::from(kind),
        row: number,
    }
}

fn add_all(
    rows: &mut Vec<BlockRow>,
    blocks: &[Prefix],
    kind: u8,
    number: u32,
) -> Result<(), AllocError>
    ensures rows { OnOk result (rows.new.items ≡ rows.old.items ++ map (row_of kind number) blocks.now) }
    ensures blocks { OnOk result (All IsBlock blocks.now) }
{
    for block in blocks {
        rows.push(row_of(block, kind, number))?;
    }
    Ok(())
}

// Whether a local block holds the whole block: then one that holds its first address is no longer.
fn is_covered<L: Ledger>(locals: &Pieces, block: &Prefix, steps: &mut Steps<L>) -> bool
    ensures { result ≡ is_covered locals.now block.now }
{
    let (_, _, told) = locals.find(block.first(), steps);
    told.is_some_and(|length| length <= u32::from(block.length()))
}

// Adds the block unless a local one holds it.
fn add_uncovered<L: Ledger>(
    rows: &mut Vec<BlockRow>,
    locals: &Pieces,
    row: BlockRow,
    steps: &mut Steps<L>,
) -> Result<(), AllocError>
    ensures { OnOk result (rows.new.items
        ≡ rows.old.items ++ filter (λ r. not (is_covered locals.now r.block)) (row ∷ [])) }
{
    if !is_covered(locals, &row.block, steps) {
        rows.push(row)?;
    }
    Ok(())
}

fn add_all_uncovered<L: Ledger>(
    rows: &mut Vec<BlockRow>,
    locals: &Pieces,
    blocks: &[Prefix],
    number: u32,
    steps: &mut Steps<L>,
) -> Result<(), AllocError>
    ensures rows { OnOk result (rows.new.items ≡ rows.old.items
        ++ filter (λ r. not (is_covered locals.now r.block)) (map (row_of 2 number) blocks.now)) }
    ensures blocks { OnOk result (All IsBlock blocks.now) }
{
    for block in blocks {
        add_uncovered(rows, locals, row_of(block, 2, number), steps)?;
    }
    Ok(())
}

fn add_route<L: Ledger>(
    rows: &mut Vec<BlockRow>,
    n: &Network,
    locals: &Pieces,
    route: &Route,
    number: u32,
    steps: &mut Steps<L>,
) -> Result<(), AllocError>
    ensures rows { OnOk result (rows.new.items
        ≡ rows.old.items ++ counted_rows_of n.now locals.now number route.now) }
    ensures blocks { OnOk result (All IsBlock (blocks_of_reach n.now route.now.reach)) }
{
    let blocks = blocks_of(n, &route.reach);
    if route.propagated && !is_local(&route.target) {
        return add_all_uncovered(rows, locals, blocks, number, steps);
    }
    add_all(rows, blocks, kind_of(route), number)
}

/// The blocks of the routes, each of which tells the number of its route. Routes that repeat earlier ones are
/// left out, and so are blocks of propagated routes that a local block holds, as no address of theirs counts them.
pub fn counted_rows<L: Ledger>(
    alloc: Global,
    n: &Network,
    locals: &Pieces,
    routes: &[Route],
    steps: &mut Steps<L>,
) -> Result<Vec<BlockRow>, AllocError>
    requires { length routes.now < 2 ^ 32 }
    ensures rows { IfOk result (λ v. v.items ≡ counted_rows_once n.now locals.now routes.now) }
    ensures blocks { OnOk result (AreBlocks n.now routes.now) }
{
    let mut rows = Vec::new(alloc);
    let mut seen = SeenUses::none(alloc);
    for (number, route) in routes.iter().enumerate() {
        if !seen.is_new(alloc, route)? {
            continue;
        }
        add_route(&mut rows, n, locals, route, number as u32, steps)?;
    }
    Ok(rows)
}
