// What is found of boxes.
ghost use Rattle.std.specs.Prelude.{◌≡◌, ◌<◌, ◌^◌, All, IfOk, length};
ghost use Rattle.std.specs.List.{range_with_len};
ghost use Rattle.header_boxes.specs.Boxes.{IsValid};
ghost use Rattle.box_survey.specs.Findings.{AreFindings, IsNextSharing, OverlapsLater};
ghost use Rattle.box_survey.specs.Survey.{IsSurvey};

use crate::cells::survey_cell;
use crate::findings::Findings;
use crate::gaps::Gaps;
use crate::hulls::hull;
use crate::numbered::meets_at;
use header_boxes::Box5;
use std::alloc::{AllocError, Global};
use vpc_base::{Header, NoMemory};

/// What is found of boxes. They are numbered from 0.
#[derive(Clone, Copy, Debug, PartialEq, Eq)]
pub enum Survey {
    /// The first two boxes that share a header: by the number of the first, then by that of the second.
    Overlap(u32, u32),
    /// No two share a header. The first header that matters and is in none of them.
    Uncovered(Header),
    /// No two share a header, and together they hold every header that matters.
    Whole,
}

// The numbers below this one.
fn numbers_below(alloc: Global, count: u32) -> Result<Vec<u32>, AllocError>
    ensures { IfOk result (λ v. v.items ≡ range_with_len 0 count) }
{
    (0..count).collect(alloc)
}

// What is found in all cells of a box that holds all boxes and all headers that matter.
fn survey_all<G: Gaps>(alloc: Global, gaps: &G, boxes: &[Box5]) -> Result<Findings, NoMemory>
    requires boxes { All IsValid boxes.now }
    requires count { length boxes.now < 2 ^ 32 }
    ensures { IfOk result (AreFindings (G.matters gaps.now) boxes.now) }
{
    let numbers = numbers_below(alloc, boxes.len() as u32)?;
    let mut found = Findings {
        least: None,
        outside: None,
    };
    let all = hull(&gaps.hull(), boxes);
    survey_cell(alloc, gaps, boxes, &all, numbers.as_slice(), &mut found)?;
    Ok(found)
}

// The first number after this one whose box shares a header with that of this one.
fn next_sharing(boxes: &[Box5], number: u32) -> u32
    requires count { length boxes.now < 2 ^ 32 }
    requires some { OverlapsLater boxes.now number }
    ensures { IsNextSharing boxes.now number result }
{
    let count = boxes.len() as u32;
    let first = &boxes[number as usize];
    for later in number + 1..count {
        if meets_at(boxes, first, later) {
            return later;
        }
    }
    count
}

/// What is found of boxes, also where they overlap at headers that don't matter.
///
/// A box that holds all of them is cut in two again and again, until a box holds the whole cell, none has a header in it,
/// or few do and an uncovered header before it is found. What matters of a cell in no box is asked of the gaps, unless such a
/// header before it is found. A cell costs time and four bytes for each box that has a
/// header in it, and each half has at most nine tenths of its ends, so that the depth grows with the logarithm of the
/// count. Boxes side by side, in a grid, nested or in a chain take n log n steps: for 20,000 some 600,000 looks at a
/// box. Disjoint boxes that are long in different directions are cut more often: 20,000 sticks in three directions take
/// 14 million looks, 20,000 plates in ten 34 million.
pub fn surveyed<G: Gaps>(alloc: Global, gaps: &G, boxes: &[Box5]) -> Result<Survey, NoMemory>
    requires boxes { All IsValid boxes.now }
    requires count { length boxes.now < 2 ^ 32 }
    ensures { IfOk result (IsSurvey (G.matters gaps.now) boxes.now) }
{
    let found = survey_all(alloc, gaps, boxes)?;
    Ok(match (found.least, found.outside) {
        (Some(first), _) => Survey::Overlap(first, next_sharing(boxes, first)),
        (None, Some(h)) => Survey::Uncovered(h),
        (None, None) => Survey::Whole,
    })
}
