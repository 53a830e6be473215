// Where a cell is cut in two.
ghost use Rattle.std.specs.Prelude.{◌≡◌, ◌<◌, ◌++◌, [], All, Any, Contains, IfNone, IfOk, IfSome, IsTrue, MatchOption, OnOk, length, true};
ghost use Rattle.box_survey.specs.Cells.{HoldsCell, holds_sides, meets_at};
ghost use Rattle.box_survey.specs.Cuts.{AreEnds, Divides, HoldsRange, IsCutOf, ends_inside, range_on};
ghost use Rattle.box_survey.specs.declared.sides.Side.{Side as Line};

use crate::numbered::numbered;
use crate::sides::{Cut, Side, range_on};
use header_boxes::Box5;
use std::alloc::{AllocError, Global};

// The cuts of a range where another one begins or has ended.
fn push_ends(ends: &mut Vec<u32>, range: (u32, u32), other: (u32, u32)) -> Result<(), AllocError>
    ensures { OnOk result (ends.new.items ≡ ends.old.items ++ ends_inside range other) }
{
    if range.0 < other.0 && other.0 <= range.1 {
        ends.push(other.0)?;
    }
    if range.0 <= other.1 && other.1 < range.1 {
        ends.push(other.1 + 1)?;
    }
    Ok(())
}

// The cuts of one side of the cell where that of a box begins or has ended.
fn ends_on(
    alloc: Global,
    boxes: &[Box5],
    cell: &Box5,
    numbers: &[u32],
    side: Side,
) -> Result<Vec<u32>, AllocError>
    requires { All (λ i. meets_at boxes.now cell.now i ≡ true) numbers.now }
    ensures { IfOk result (λ v. AreEnds boxes.now cell.now side numbers.now v.items) }
{
    let range = range_on(cell, side);
    let mut ends = Vec::new(alloc);
    for i in numbers {
        if let Some(b) = numbered(boxes, *i) {
            push_ends(&mut ends, range, range_on(b, side))?;
        }
    }
    Ok(ends)
}

/// The cuts of one side.
#[derive(Drop)]
struct Ends {
    side: Side,
    at: Vec<u32>,
}

// The cuts of the side that has the most.
fn fullest_side(
    alloc: Global,
    boxes: &[Box5],
    cell: &Box5,
    numbers: &[u32],
) -> Result<Ends, AllocError>
    requires { All (λ i. meets_at boxes.now cell.now i ≡ true) numbers.now }
    ensures cuts { IfOk result (λ e. All (Divides (range_on e.side cell.now)) e.at.items) }
    ensures none { IfOk result (λ e. e.at.items ≡ [] → (s : Line)
        → All (HoldsRange boxes.now s (range_on s cell.now)) numbers.now) }
{
    let mut fullest = Ends {
        side: Side::Proto,
        at: ends_on(alloc, boxes, cell, numbers, Side::Proto)?,
    };
    for side in [Side::Src, Side::Dst, Side::P, Side::Q] {
        let at = ends_on(alloc, boxes, cell, numbers, side)?;
        if at.len() > fullest.at.len() {
            fullest = Ends { side, at };
        }
    }
    Ok(fullest)
}

// The cut that as many of these are below as above.
fn median(ends: Ends) -> Option<Cut>
    ensures none { IfNone result (ends.at.items ≡ []) }
    ensures some { IfSome result (λ cut. (cut.side ≡ ends.side) × Contains ends.at.items cut.at) }
{
    let Ends { side, mut at } = ends;
    let middle = at.len() / 2;
    if middle == at.len() {
        return None;
    }
    let (_, at, _) = at.as_mut_slice().select_nth_unstable(middle);
    Some(Cut { side, at: *at })
}

/// Whether each side of the box holds that of the cell.
pub fn holds_sides(b: &Box5, cell: &Box5) -> bool
    ensures { result ≡ holds_sides b.now cell.now }
{
    (b.proto.0 <= cell.proto.0 && cell.proto.1 <= b.proto.1)
        && ((b.src.0 <= cell.src.0 && cell.src.1 <= b.src.1)
            && ((b.dst.0 <= cell.dst.0 && cell.dst.1 <= b.dst.1)
                && ((b.p.0 <= cell.p.0 && cell.p.1 <= b.p.1)
                    && (b.q.0 <= cell.q.0 && cell.q.1 <= b.q.1))))
}

fn any_holds(boxes: &[Box5], cell: &Box5, numbers: &[u32]) -> bool
    ensures { IsTrue result → Any (HoldsCell boxes.now cell.now) numbers.now }
{
    for i in numbers {
        if let Some(b) = numbered(boxes, *i) {
            if holds_sides(b, cell) {
                return true;
            }
        }
    }
    false
}

/// Where to cut a cell, and none where a box holds all of it: at the median of the cuts of the side that has
/// the most of them, so that a half has at most nine tenths of the cell's.
pub fn cut_of(
    alloc: Global,
    boxes: &[Box5],
    cell: &Box5,
    numbers: &[u32],
) -> Result<Option<Cut>, AllocError>
    requires meet { All (λ i. meets_at boxes.now cell.now i ≡ true) numbers.now }
    requires some { 0 < length numbers.now }
    ensures { IfOk result (λ c. MatchOption c (Any (HoldsCell boxes.now cell.now) numbers.now)
        (IsCutOf cell.now)) }
{
    if any_holds(boxes, cell, numbers) {
        return Ok(None);
    }
    let ends = fullest_side(alloc, boxes, cell, numbers)?;
    Ok(median(ends))
}
