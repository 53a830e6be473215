//! The search for the first header that gets through. Boxes that are still open are asked in the order of
//! their low corners, so what is known always reaches from the least header of the sides up to the least
//! open low corner.
ghost use Rattle.std.specs.Prelude.{◌≡◌, ◌≤◌, List, [], Option, All, IfOk, IfNone, IfSome};
ghost use Rattle.header_boxes.specs.Boxes.{IsValid};
ghost use Rattle.header_boxes.specs.Rows.{IsFirst};
ghost use Rattle.ordered_cover.specs.Cover.{IsCover, IsSearched};
ghost use Rattle.ordered_cover.specs.Gathered.{IsGathered};
ghost use Rattle.ordered_cover.specs.Open.{IsAsked};

use crate::beside::beside;
use crate::joining::join_last;
use crate::open::OpenBoxes;
use crate::{Cover, Gathered, Probe, Searched};
use header_boxes::{Box5, Row};
use std::alloc::{AllocError, Global};
use vpc_base::{Header, NoMemory};

// Asks of a part of the open box that begins first. What is left of that box stays open.
pub(crate) fn ask<P: Probe>(
    p: &P,
    boxes: &mut OpenBoxes,
) -> Result<Option<(Box5, Option<P::Word>)>, AllocError>
    requires { All IsValid boxes.old }
    ensures none { IfOk result (λ a. IfNone a (boxes.old ≡ [])) }
    ensures asked { IfOk result (λ a. IfSome a
        (λ s. IsAsked (P.meaning p.now) (P.cuts p.now) boxes.old boxes.new s.0 s.1)) }
{
    let Some(whole) = boxes.take_first() else {
        return Ok(None);
    };
    let (part, word) = p.probe(&whole);
    boxes.extend(beside(&whole, &part).as_slice())?;
    Ok(Some((part, word)))
}

/// The first header of the sides that gets through, or none where there is none. It keeps no rows and may
/// ask of any number of boxes.
pub fn first<P: Probe>(alloc: Global, p: &P, sides: Box5) -> Result<Option<Header>, NoMemory>
    requires { IsValid sides }
    ensures { IfOk result (IsFirst (P.meaning p.now) sides) }
{
    let mut boxes = OpenBoxes::of(alloc, sides)?;
    'asked: while let Some((part, word)) = ask(p, &mut boxes)? {
        if word.is_none() {
            return Ok(Some(part.low()));
        }
    }
    Ok(None)
}

/// Looks for the first header of the sides that gets through, and asks of at most `most` parts: it is found, there is
/// none, or more parts are to be asked of.
pub fn first_within<P: Probe>(
    alloc: Global,
    p: &P,
    sides: Box5,
    most: u32,
) -> Result<Searched, NoMemory>
    requires { IsValid sides }
    ensures { IfOk result (IsSearched (P.meaning p.now) sides) }
{
    let mut boxes = OpenBoxes::of(alloc, sides)?;
    'asked: for _ in 0..most {
        let Some((part, word)) = ask(p, &mut boxes)? else {
            return Ok(Searched::Blocked);
        };
        if word.is_none() {
            return Ok(Searched::Found(part.low()));
        }
    }
    Ok(Searched::Unfinished)
}

/// What the probe says of all headers of the sides, in at most `max` rows: the first header that gets through,
/// or rows that hold all headers, or as many rows as are allowed and the first header outside them. Parts that
/// follow each other with one word, and differ in p or in q alone, are one row.
pub fn cover<P: Probe>(
    alloc: Global,
    p: &P,
    sides: Box5,
    max: u32,
) -> Result<Cover<P::Word>, NoMemory>
    requires valid { IsValid sides }
    requires some { 1 ≤ max }
    ensures { IfOk result (IsCover (P.meaning p.now) (P.cuts p.now) sides max) }
{
    let mut boxes = OpenBoxes::of(alloc, sides)?;
    let mut rows = Vec::new(alloc);
    'kept: while rows.len() < max as usize {
        let Some((part, word)) = ask(p, &mut boxes)? else {
            return Ok(Cover::Blocked(rows));
        };
        match word {
            None => return Ok(Cover::Found(part.low())),
            Some(word) => {
                let row = join_last::<P>(&mut rows, Row { part, word });
                rows.push(row)?;
            }
        }
    }
    match boxes.take_first() {
        None => Ok(Cover::Blocked(rows)),
        Some(next) => Ok(Cover::More(rows, next.low())),
    }
}

/// What the probe says of all headers of the sides that it tells something, in at most `room` rows: rows that hold all
/// of these headers, or as many rows as there is room for and the first of these headers outside them. Headers that get
/// through are passed over. Parts that follow each other with one word, and differ in p or in q alone, are one row.
pub fn gather<P: Probe>(
    alloc: Global,
    p: &P,
    sides: Box5,
    room: u32,
) -> Result<Gathered<P::Word>, NoMemory>
    requires valid { IsValid sides }
    ensures { IfOk result (IsGathered (P.meaning p.now) (P.cuts p.now) sides room) }
{
    let mut boxes = OpenBoxes::of(alloc, sides)?;
    let mut rows = Vec::new(alloc);
    'asked: while let Some((part, word)) = ask(p, &mut boxes)? {
        let Some(word) = word else {
            continue;
        };
        let joined = join_last::<P>(&mut rows, Row { part, word });
        if rows.len() == room as usize {
            return Ok(Gathered::More(rows, part.low()));
        }
        rows.push(joined)?;
    }
    Ok(Gathered::All(rows))
}
