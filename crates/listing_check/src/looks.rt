// What a look at the rows of one start finds.
ghost use Rattle.std.specs.Prelude.{◌≡◌, ◌≤◌, All, IfOk, length, option_map};
ghost use Rattle.box_survey.specs.Survey.{IsSurvey};
ghost use Rattle.header_boxes.specs.Boxes.{IsValid};
ghost use Rattle.listing_check.specs.Asked.{Asked};
ghost use Rattle.listing_check.specs.Due.{IsDue};
ghost use Rattle.listing_check.specs.Found.{boxes_of};
ghost use Rattle.listing_check.specs.Looks.{IsApartLook, IsLook, IsOther, listed_by};
ghost use Rattle.report_reader.specs.Reports.{row_limit};
ghost use Rattle.vpc_base.specs.declared.headers.Header.{Header as Packet};

use crate::due::Due;
use crate::untrue::first_untrue;
use box_survey::{Survey, surveyed};
use header_boxes::{Box5, Row};
use std::alloc::Global;
use vpc_base::{Header, NoMemory, OwnList};

/// What a look at the rows of one start finds. Rows are numbered from 0.
#[derive(Clone, Copy)]
pub enum Look {
    /// The first two rows that share a header.
    Overlap(u32, u32),
    /// No two rows share a header.
    Apart {
        /// The first row that isn't true of all its headers, with the first of these.
        untrue: Option<(u32, Header)>,
        /// The first request that is told something and is in no row.
        unlisted: Option<Header>,
    },
}

/// What is told of the requests from one start.
pub trait Listing {
    ghost use Rattle.std.specs.Prelude.{List, Option, ℕ};
    ghost use Rattle.vpc_base.specs.declared.headers.Header.{Header};

    /// The text that is told of a request, if anything is.
    ghost told: { Self → Header → Option (List ℕ) };

    /// The first header of a box of which something else is told than what is wanted.
    fn first_other(
        &self,
        alloc: Global,
        part: &Box5,
        wanted: Option<&[u8]>,
    ) -> Result<Option<Header>, NoMemory>
        requires { IsValid part.now }
        ensures { IfOk result (IsOther (told self.now) (option_map (λ w. w.now) wanted.entry) part.now) };
}

fn boxes_of(alloc: Global, rows: &[Row<OwnList<u8>>]) -> Result<Vec<Box5>, NoMemory>
    ensures { IfOk result (λ v. v.items ≡ boxes_of rows.now) }
{
    let mut boxes = Vec::new(alloc);
    for row in rows {
        boxes.push(row.part)?;
    }
    Ok(boxes)
}

// What is found of the rows' boxes among the requests that have to be in one.
fn survey_of<L: Listing>(
    alloc: Global,
    listing: &L,
    asked: &[Box5],
    rows: &[Row<OwnList<u8>>],
) -> Result<Survey, NoMemory>
    requires asked { All IsValid asked.now }
    requires rows { All (λ r. IsValid r.part) rows.now }
    requires few { length rows.now ≤ row_limit }
    ensures { IfOk result (IsSurvey (IsDue (L.told listing.now) asked.now) (boxes_of rows.now)) }
{
    let boxes = boxes_of(alloc, rows)?;
    let due = Due::of(listing, asked);
    surveyed(alloc, &due, boxes.as_slice())
}

// What a look finds of rows that share no header, where this request is left out.
fn look_apart<L: Listing>(
    alloc: Global,
    listing: &L,
    rows: &[Row<OwnList<u8>>],
    unlisted: Option<Header>,
) -> Result<Look, NoMemory>
    requires rows { All (λ r. IsValid r.part) rows.now }
    requires few { length rows.now ≤ row_limit }
    ensures { IfOk result (IsApartLook (L.told listing.now) rows.now unlisted) }
{
    let untrue = first_untrue(alloc, listing, rows)?;
    Ok(Look::Apart { untrue, unlisted })
}

// What a look finds of the rows of a start of which no more is known than what is told.
fn look_of<L: Listing>(
    alloc: Global,
    listing: &L,
    asked: &[Box5],
    rows: &[Row<OwnList<u8>>],
) -> Result<Look, NoMemory>
    requires asked { All IsValid asked.now }
    requires rows { All (λ r. IsValid r.part) rows.now }
    requires few { length rows.now ≤ row_limit }
    ensures { IfOk result (IsLook (listed_by (L.told listing.now) asked.now rows.now)) }
{
    match survey_of(alloc, listing, asked, rows)? {
        Survey::Overlap(i, j) => Ok(Look::Overlap(i, j)),
        Survey::Uncovered(h) => look_apart(alloc, listing, rows, Some(h)),
        Survey::Whole => look_apart(alloc, listing, rows, None),
    }
}

/// Looks at the rows of a start.
pub fn look_at<L: Listing>(
    alloc: Global,
    listing: &L,
    asked: &[Box5],
    rows: &[Row<OwnList<u8>>],
) -> Result<Look, NoMemory>
    requires asked { All IsValid asked.now }
    requires rows { All (λ r. IsValid r.part) rows.now }
    requires few { length rows.now ≤ row_limit }
    ensures { (a : Asked) → a.boxes ≡ asked.now → ((h : Packet) → a.told h ≡ L.told listing.now h)
        → IfOk result (IsLook (record { asked = a; rows = rows.now })) }
{
    look_of(alloc, listing, asked, rows)
}
