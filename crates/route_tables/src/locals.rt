// The blocks of local routes. They keep propagated routes back.
ghost use Rattle.std.specs.Prelude.{◌≡◌, ◌++◌, IfOk, OnOk, map};
ghost use Rattle.std.specs.List.{flat_map};
ghost use Rattle.vpc_model.specs.Cuts.{blocks_of_reach};
ghost use Rattle.route_tables.specs.Rows.{length_row, local_rows_of, local_rows_once};

use crate::blocks::{blocks_of, is_local};
use crate::repeats::SeenUses;
use block_pieces::BlockRow;
use prefix_text::Prefix;
use reference_check::Network;
use std::alloc::{AllocError, Global};
use vpc_model::Route;

// A block that tells its own length. The shortest is the best.
fn length_row(block: &Prefix) -> BlockRow
    ensures { result ≡ length_row block.now }
{
    let length = block.length();
    BlockRow {
        block: *block,
        rank: u64::from(length),
        row: u32::from(length),
    }
}

fn add_lengths(rows: &mut Vec<BlockRow>, blocks: &[Prefix]) -> Result<(), AllocError>
    ensures { OnOk result (rows.new.items ≡ rows.old.items ++ map length_row blocks.now) }
{
    for block in blocks {
        rows.push(length_row(block))?;
    }
    Ok(())
}

fn add_local(rows: &mut Vec<BlockRow>, n: &Network, route: &Route) -> Result<(), AllocError>
    ensures { OnOk result (rows.new.items ≡ rows.old.items ++ local_rows_of n.now route.now) }
{
    if is_local(&route.target) {
        add_lengths(rows, blocks_of(n, &route.reach))?;
    }
    Ok(())
}

/// The blocks of the local routes, each of which tells its length. Routes that repeat earlier ones are left out.
pub fn local_rows(alloc: Global, n: &Network, routes: &[Route]) -> Result<Vec<BlockRow>, AllocError>
    ensures { IfOk result (λ v. v.items ≡ local_rows_once n.now routes.now) }
{
    let mut rows = Vec::new(alloc);
    let mut seen = SeenUses::none(alloc);
    for route in routes {
        if !seen.is_new(alloc, route)? {
            continue;
        }
        add_local(&mut rows, n, route)?;
    }
    Ok(rows)
}
