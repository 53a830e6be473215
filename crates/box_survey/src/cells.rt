// What is found in a cell.
ghost use Rattle.std.specs.Prelude.{◌≡◌, true, [], IfOk, MatchOption, OnOk, filter};
ghost use Rattle.box_survey.specs.Cells.{AreCandidates, AreMeeting, meets_at};
ghost use Rattle.box_survey.specs.Cuts.{IsCutOf};
ghost use Rattle.std.specs.List.Sorted.{IsStrictlyIncreasing};
ghost use Rattle.header_boxes.specs.Boxes.{IsValid};
ghost use Rattle.box_survey.specs.Findings.{AreThere, IsCompared, IsSurveyed};

use crate::cuts::cut_of;
use crate::findings::Findings;
use crate::gaps::Gaps;
use crate::numbered::meets_at;
use crate::pairs::first_sharing;
use crate::sides::{Cut, halves};
use crate::slices::are_slices;
use header_boxes::Box5;
use std::alloc::{AllocError, Global};
use vpc_base::NoMemory;

// The candidates whose boxes share a header with the cell.
fn meeting(
    alloc: Global,
    boxes: &[Box5],
    cell: &Box5,
    candidates: &[u32],
) -> Result<Vec<u32>, AllocError>
    ensures { IfOk result (λ v. v.items ≡ filter (meets_at boxes.now cell.now) candidates.now) }
{
    candidates
        .iter()
        .copied()
        .filter(|i| meets_at(boxes, cell, *i))
        .collect(alloc)
}

// What is found of a cell in no box. Nothing is asked of one that begins after an uncovered header that was found.
fn find_gap<G: Gaps>(
    alloc: Global,
    gaps: &G,
    boxes: &[Box5],
    cell: &Box5,
    found: &mut Findings,
) -> Result<(), NoMemory>
    requires valid { IsValid cell.now }
    requires numbers { AreMeeting boxes.now cell.now [] }
    requires there { AreThere (G.matters gaps.now) boxes.now found.old }
    ensures { OnOk result (IsSurveyed (G.matters gaps.now) boxes.now cell.now found.old found.new) }
{
    if found.is_past(cell) {
        return Ok(());
    }
    if let Some(h) = gaps.first_in(alloc, cell)? {
        found.add_uncovered(h);
    }
    Ok(())
}

// So many boxes, or fewer, are compared with each other rather than cut, where no uncovered header matters: all pairs
// of them take less time than the cuts of boxes that are long in different directions.
const FEW: usize = 64;

// What is found of a cell with few boxes, of which no uncovered header matters.
fn compare(boxes: &[Box5], numbers: &[u32], found: &mut Findings)
    requires { IsStrictlyIncreasing numbers.now }
    ensures { IsCompared boxes.now numbers.now found.old found.new }
{
    if let Some(number) = first_sharing(boxes, numbers) {
        found.add_overlap(number);
    }
}

// What is found of a cell that needs no cut; of another one the cut.
fn settle<G: Gaps>(
    alloc: Global,
    gaps: &G,
    boxes: &[Box5],
    cell: &Box5,
    numbers: &[u32],
    found: &mut Findings,
) -> Result<Option<Cut>, NoMemory>
    requires valid { IsValid cell.now }
    requires numbers { AreMeeting boxes.now cell.now numbers.now }
    requires there { AreThere (G.matters gaps.now) boxes.now found.old }
    ensures { IfOk result (λ c. MatchOption c
        (IsSurveyed (G.matters gaps.now) boxes.now cell.now found.old found.new)
        (λ cut. IsCutOf cell.now cut × (found.new ≡ found.old))) }
{
    let Some(first) = numbers.first() else {
        find_gap(alloc, gaps, boxes, cell, found)?;
        return Ok(None);
    };
    if found.has_up_to(*first) {
        return Ok(None);
    }
    if numbers.len() <= FEW && found.is_past(cell) {
        compare(boxes, numbers, found);
        return Ok(None);
    }
    if are_slices(boxes, cell, numbers) {
        return Ok(None);
    }
    let cut = cut_of(alloc, boxes, cell, numbers)?;
    if cut.is_none() && numbers.len() > 1 {
        found.least = Some(*first);
    }
    Ok(cut)
}

/// Looks at all headers of a cell. A cell whose first box has a number that isn't below that of an overlap found
/// before is left at once, since the first uncovered header no longer matters then. Nor does it in a cell that begins
/// after one that was found.
pub fn survey_cell<G: Gaps>(
    alloc: Global,
    gaps: &G,
    boxes: &[Box5],
    cell: &Box5,
    candidates: &[u32],
    found: &mut Findings,
) -> Result<(), NoMemory>
    requires valid { IsValid cell.now }
    requires candidates { AreCandidates boxes.now cell.now candidates.now }
    requires there { AreThere (G.matters gaps.now) boxes.now found.old }
    ensures { OnOk result (IsSurveyed (G.matters gaps.now) boxes.now cell.now found.old found.new) }
{
    let numbers = meeting(alloc, boxes, cell, candidates)?;
    let Some(cut) = settle(alloc, gaps, boxes, cell, numbers.as_slice(), found)? else {
        return Ok(());
    };
    let (low, high) = halves(cell, cut);
    survey_cell(alloc, gaps, boxes, &low, numbers.as_slice(), found)?;
    survey_cell(alloc, gaps, boxes, &high, numbers.as_slice(), found)
}
