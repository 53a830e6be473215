// The requests that have to be in a row.
ghost use Rattle.std.specs.Prelude.{◌≡◌, All, IfOk, true};
ghost use Rattle.box_gather.specs.Over.{is_in};
ghost use Rattle.box_survey.specs.Survey.{IsFirstMattering};
ghost use Rattle.header_boxes.specs.Boxes.{IsValid, holds};
ghost use Rattle.listing_check.specs.Due.{IsDue, IsFirstWith, IsToldIn};
ghost use Rattle.vpc_base.specs.declared.headers.Header.{Header as Packet};

use crate::looks::Listing;
use box_survey::{Gaps, earlier, hull};
use header_boxes::Box5;
use std::alloc::Global;
use vpc_base::{Header, NoMemory};

/// The requests that are asked for and of which something is told, each of which has to be in a row.
pub struct Due<'a, L> {
    listing: &'a L,
    asked: &'a [Box5],
    ghost valid: { All IsValid asked.now },
}

impl<'a, L> Drop for Due<'a, L> {
    fn drop(self) {
        let Due {
            listing: _,
            asked: _,
        } = self;
    }
}

impl<'a, L> Due<'a, L> {
    /// Those in these boxes.
    pub fn of(listing: &'a L, asked: &'a [Box5]) -> Due<'a, L>
        requires { All IsValid asked.now }
        ensures listing { result.listing.now ≡ listing.now }
        ensures asked { result.asked.now ≡ asked.now }
    {
        Due { listing, asked }
    }
}

// The least of all boxes, where nothing is asked for.
const NOWHERE: Box5 = Box5 {
    proto: (0, 0),
    src: (0, 0),
    dst: (0, 0),
    p: (0, 0),
    q: (0, 0),
};

// A box that holds all of these.
fn hull_of(boxes: &[Box5]) -> Box5
    requires { All IsValid boxes.now }
    ensures valid { IsValid result }
    ensures holds { (h : Packet) → is_in boxes.now h ≡ true → holds h result ≡ true }
{
    match boxes {
        [] => NOWHERE,
        [first, ..] => hull(first, boxes),
    }
}

// The first header of a gap that lies in a box and is told something.
fn first_told<L: Listing>(
    alloc: Global,
    listing: &L,
    part: &Box5,
    gap: &Box5,
) -> Result<Option<Header>, NoMemory>
    ensures { IfOk result (IsFirstMattering (IsToldIn (L.told listing.now) part.now) gap.now) }
{
    match part.meet(gap) {
        None => Ok(None),
        Some(common) => listing.first_other(alloc, &common, None),
    }
}

// The first header of a gap that lies in a box and is told something, or what was found before where that comes first.
fn first_with<L: Listing>(
    alloc: Global,
    listing: &L,
    part: &Box5,
    gap: &Box5,
    found: Option<Header>,
) -> Result<Option<Header>, NoMemory>
    ensures { IfOk result (IsFirstWith (L.told listing.now) part.now gap.now found) }
{
    match first_told(alloc, listing, part, gap)? {
        None => Ok(found),
        Some(h) => Ok(Some(earlier(found, h))),
    }
}

// The first header of a gap that is asked for and is told something.
fn first_due<L: Listing>(
    alloc: Global,
    listing: &L,
    asked: &[Box5],
    gap: &Box5,
) -> Result<Option<Header>, NoMemory>
    ensures { IfOk result (IsFirstMattering (IsDue (L.told listing.now) asked.now) gap.now) }
{
    let mut found = None;
    for part in asked {
        found = first_with(alloc, listing, part, gap, found)?;
    }
    Ok(found)
}

impl<'a, L: Listing> Gaps for Due<'a, L> {
    ghost use Rattle.listing_check.specs.Due.{IsDue};

    ghost matters = { λ d. IsDue (L.told d.listing.now) d.asked.now };

    fn hull(&self) -> Box5 {
        hull_of(self.asked)
    }

    fn first_in(&self, alloc: Global, gap: &Box5) -> Result<Option<Header>, NoMemory> {
        first_due(alloc, self.listing, self.asked, gap)
    }
}
