// Boxes that slice a cell.
ghost use Rattle.std.specs.Prelude.{◌≡◌, IsTrue, slice_get};
ghost use Rattle.box_survey.specs.Cuts.{range_on, with_range};
ghost use Rattle.box_survey.specs.Slices.{AreSlices, is_slice, next_slice, slice_from};

use crate::cuts::holds_sides;
use crate::numbered::numbered;
use crate::sides::{Side, range_on};
use header_boxes::Box5;

// The box, as wide as the cell on one side.
fn widened(b: &Box5, cell: &Box5, side: Side) -> Box5
    ensures { result ≡ with_range side b.now (range_on side cell.now) }
{
    match side {
        Side::Proto => Box5 {
            proto: cell.proto,
            ..*b
        },
        Side::Src => Box5 {
            src: cell.src,
            ..*b
        },
        Side::Dst => Box5 {
            dst: cell.dst,
            ..*b
        },
        Side::P => Box5 { p: cell.p, ..*b },
        Side::Q => Box5 { q: cell.q, ..*b },
    }
}

fn is_slice(b: &Box5, cell: &Box5, side: Side, from: u64) -> bool
    ensures { result ≡ is_slice side cell.now from b.now }
{
    let range = range_on(b, side);
    let whole = range_on(cell, side);
    holds_sides(&widened(b, cell, side), cell)
        && ((u64::from(range.0.max(whole.0)) == from) && (from <= u64::from(range.1)))
}

// Where the slice after that of this number begins, if it is one that begins there.
fn next_slice(boxes: &[Box5], cell: &Box5, number: u32, side: Side, from: u64) -> Option<u64>
    ensures { result ≡ next_slice side cell.now from (slice_get boxes.now number) }
{
    let b = numbered(boxes, number)?;
    if is_slice(b, cell, side, from) {
        Some(u64::from(range_on(b, side).1) + 1)
    } else {
        None
    }
}

fn are_slices_along(boxes: &[Box5], cell: &Box5, numbers: &[u32], side: Side) -> bool
    ensures { result ≡ slice_from boxes.now side cell.now (range_on side cell.now).0 numbers.now }
{
    let whole = range_on(cell, side);
    let mut from = u64::from(whole.0);
    for i in numbers {
        match next_slice(boxes, cell, *i, side, from) {
            Some(next) => from = next,
            None => return false,
        }
    }
    u64::from(whole.1) < from
}

/// Whether the boxes of these numbers are slices of the cell in their order, beside each other along one side: then each of
/// its headers is in one of them. Rows that were printed in their order often are.
pub fn are_slices(boxes: &[Box5], cell: &Box5, numbers: &[u32]) -> bool
    ensures { IsTrue result → AreSlices boxes.now cell.now numbers.now }
{
    for side in [Side::Q, Side::P, Side::Dst, Side::Src, Side::Proto] {
        if are_slices_along(boxes, cell, numbers, side) {
            return true;
        }
    }
    false
}
