// The search whose rows are the leaves of a tree.
ghost use Rattle.std.specs.Prelude.{◌≤◌, [], IfOk, OnOk, length};
ghost use Rattle.header_boxes.specs.Boxes.{IsValid};
ghost use Rattle.ordered_cover.specs.Grown.{IsGrown};
ghost use Rattle.ordered_cover.specs.Growing.{IsAdded, IsGrowing};
ghost use Rattle.ordered_cover.specs.Open.{AreSplit, every};

use crate::joining::{Along, one_with_last};
use crate::open::OpenBoxes;
use crate::search::ask;
use crate::trees::tree_of;
use crate::{Grown, Probe};
use header_boxes::{Box5, Row};
use std::alloc::{AllocError, Global};
use vpc_base::NoMemory;

// Adds a row. Where it goes on from the last one with its word, the two are one: then the box that was asked is what the last
// one had left of its own beside it, by q.
fn add_row<P: Probe>(rows: &mut Vec<Row<P::Word>>, row: Row<P::Word>) -> Result<(), AllocError>
    ensures { OnOk result (IsAdded rows.old.items row rows.new.items) }
{
    match one_with_last::<P>(Along::Q, rows.as_slice(), &row) {
        Some(wider) => {
            rows.pop();
            rows.push(wider)?;
        }
        None => rows.push(row)?,
    }
    Ok(())
}

// The tree of rows that hold all headers.
fn blocked<P: Probe>(
    alloc: Global,
    p: &P,
    sides: Box5,
    max: u32,
    rows: &[Row<P::Word>],
) -> Result<Grown<P::Word>, NoMemory>
    requires split { AreSplit (P.meaning p.now) (P.cuts p.now) every sides [] rows.now }
    requires growing { IsGrowing sides [] rows.now }
    requires few { length rows.now ≤ max }
    ensures { IfOk result (IsGrown (P.meaning p.now) (P.cuts p.now) sides max) }
{
    let nodes = tree_of(alloc, sides, rows)?;
    Ok(Grown::Blocked(nodes))
}

/// What the probe says of all headers of the sides, by a tree of at most `max` leaves: the first header that gets through,
/// or a cut tree whose leaves hold all headers, or as many rows as leaves are allowed and the first header outside them.
/// Parts that follow each other with one word, and differ in q alone, are one leaf. Open boxes are asked in the order of
/// their low corners, so the tree grows at any of them, and its nodes are listed once it is whole.
pub fn grow<P: Probe>(
    alloc: Global,
    p: &P,
    sides: Box5,
    max: u32,
) -> Result<Grown<P::Word>, NoMemory>
    requires valid { IsValid sides }
    requires some { 1 ≤ max }
    ensures { IfOk result (IsGrown (P.meaning p.now) (P.cuts p.now) sides max) }
{
    let mut boxes = OpenBoxes::of(alloc, sides)?;
    let mut rows = Vec::new(alloc);
    'kept: while rows.len() < max as usize {
        let Some((part, word)) = ask(p, &mut boxes)? else {
            return blocked(alloc, p, sides, max, rows.as_slice());
        };
        match word {
            None => return Ok(Grown::Found(part.low())),
            Some(word) => add_row::<P>(&mut rows, Row { part, word })?,
        }
    }
    match boxes.take_first() {
        None => blocked(alloc, p, sides, max, rows.as_slice()),
        Some(next) => Ok(Grown::More(rows, next.low())),
    }
}
