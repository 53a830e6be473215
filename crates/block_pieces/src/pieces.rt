// Pieces made of blocks.
ghost use Rattle.std.specs.Prelude.{◌≡◌, ◌≤◌, ◌<◌, ◌+◌, ◌*◌, ◌^◌, ◌⊎◌, ◌↔◌, ◌∷◌, ◌++◌, ℕ, All, Contains, length, map, IfOk, OnOk};
ghost use Rattle.std.specs.List.Sorted.{IsPermutation, IsStrictlyIncreasing};
ghost use Rattle.prefix_text.specs.Block.{IsBlock};
ghost use Rattle.piece_table.specs.Pieces.{told_at};
ghost use Rattle.block_pieces.specs.Told.{borders_of, told_by};
ghost use Rattle.block_pieces.specs.Sweep.{AreInOrder, inner_borders, within_line};

use crate::BlockRow;
use crate::sweep::{Sweep, order_of};
use piece_table::Pieces;
use prefix_text::Prefix;
use std::alloc::{AllocError, Global};
use vpc_base::NoMemory;

// Where a block begins, and where the addresses after it do. There are none after the greatest.
fn add_borders(borders: &mut Vec<u32>, block: &Prefix) -> Result<(), AllocError>
    ensures added { OnOk result (borders.new.items ≡ borders.old.items ++ inner_borders block.now) }
    ensures block { OnOk result (IsBlock block.now) }
{
    borders.push(block.first())?;
    let last = block.last();
    if last < u32::MAX {
        borders.push(last + 1)?;
    }
    Ok(())
}

fn all_borders(alloc: Global, rows: &[BlockRow]) -> Result<Vec<u32>, AllocError>
    ensures all { IfOk result (λ b. b.items ≡ 0 ∷ within_line rows.now) }
    ensures blocks { OnOk result (All (λ r. IsBlock r.block) rows.now) }
{
    let mut borders = vec![in alloc; 0]?;
    for row in rows {
        add_borders(&mut borders, &row.block)?;
    }
    Ok(borders)
}

// Numbers in ascending order, each once.
fn ascending(mut numbers: Vec<u32>) -> Vec<u32>
    ensures order { IsStrictlyIncreasing result.items }
    ensures members { (x : ℕ) → Contains result.items x ↔ Contains numbers.items x }
    ensures few { length result.items ≤ length numbers.items }
{
    numbers.sort_unstable();
    numbers.dedup();
    numbers
}

fn in_order(mut rows: Vec<BlockRow>) -> Vec<BlockRow>
    requires { All (λ r. IsBlock r.block) rows.items }
    ensures order { AreInOrder result.items }
    ensures same { IsPermutation rows.items result.items }
{
    rows.sort_unstable_by_key(|row| order_of(row));
    rows
}

// What is told of each of some ascending addresses.
fn told_at_each(
    alloc: Global,
    rows: &[BlockRow],
    firsts: &[u32],
) -> Result<Vec<Option<u32>>, AllocError>
    requires order { AreInOrder rows.now }
    requires ascending { IsStrictlyIncreasing firsts.now }
    ensures { IfOk result (λ t. t.items ≡ map (told_by rows.now) firsts.now) }
{
    let mut sweep = Sweep::new(alloc);
    let mut told = Vec::with_capacity(alloc, firsts.len())?;
    for first in firsts {
        let row = sweep.told_at(rows, *first)?;
        told.push(row)?;
    }
    Ok(told)
}

/// The pieces that tell of each address the number of the best block that holds it, and nothing where
/// none does. There are at most twice as many as blocks and one more, and all but the first begin where a
/// block begins or has ended. Takes time n log n in the number of blocks. Fails for want of memory alone.
pub fn pieces_of(alloc: Global, rows: Vec<BlockRow>) -> Result<Pieces, NoMemory>
    ensures told { IfOk result (λ p. (a : ℕ) → a < 2 ^ 32 → told_at p a ≡ told_by rows.items a) }
    ensures few { IfOk result (λ p. length p.firsts ≤ 2 * length rows.items + 1) }
    ensures firsts { IfOk result (λ p. (f : ℕ) → Contains p.firsts f
        → (f ≡ 0) ⊎ Contains (borders_of rows.items) f) }
{
    let firsts = ascending(all_borders(alloc, &rows)?);
    let rows = in_order(rows);
    let told = told_at_each(alloc, &rows, &firsts)?;
    Ok(Pieces::of(firsts, told))
}
