// Overlaps of few boxes, each compared with each.
ghost use Rattle.std.specs.Prelude.{◌≡◌, ◌↔◌, Any, IsTrue};
ghost use Rattle.std.specs.List.{list_any};
ghost use Rattle.std.specs.List.Sorted.{IsStrictlyIncreasing};
ghost use Rattle.box_survey.specs.Cells.{meets_at};
ghost use Rattle.box_survey.specs.Findings.{IsFirstSharing};
ghost use Rattle.box_survey.specs.Survey.{ShareAt};

use crate::numbered::{meets_at, numbered};
use header_boxes::Box5;

// Whether one of these boxes shares a header with the cell.
fn any_meets(boxes: &[Box5], cell: &Box5, numbers: &[u32]) -> bool
    ensures { result ≡ list_any (meets_at boxes.now cell.now) numbers.now }
{
    numbers.iter().any(|i| meets_at(boxes, cell, *i))
}

// Whether the box of a number shares a header with that of one of the others.
fn shares_any(boxes: &[Box5], number: u32, others: &[u32]) -> bool
    ensures { IsTrue result ↔ Any (ShareAt boxes.now number) others.now }
{
    match numbered(boxes, number) {
        None => false,
        Some(b) => any_meets(boxes, b, others),
    }
}

/// The first of these numbers whose box shares a header with that of a later one of them.
pub fn first_sharing(boxes: &[Box5], numbers: &[u32]) -> Option<u32>
    requires { IsStrictlyIncreasing numbers.now }
    ensures { IsFirstSharing boxes.now numbers.now result }
{
    let [first, rest @ ..] = numbers else {
        return None;
    };
    if shares_any(boxes, *first, rest) {
        return Some(*first);
    }
    first_sharing(boxes, rest)
}
