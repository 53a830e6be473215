//! The search for the numbers of the side q with which some header gets through. It keeps no boxes: a part that is
//! answered tells how far q may go, and where the search goes on in the other sides.
ghost use Rattle.std.specs.Prelude.{◌≡◌, ◌≤◌, ◌+◌, ◌&&◌, ◌||◌, ℕ, IfOk, OnOk};
ghost use Rattle.header_boxes.specs.Boxes.{IsValid, IsWithin, in_range};
ghost use Rattle.ordered_cover.specs.Passed.{AreDecided, AreRangesBelow, IsAfter};
ghost use Rattle.ordered_cover.specs.Ports.{AreOpenPorts, is_in_ranges};

use crate::Probe;
use header_boxes::Box5;
use std::alloc::{AllocError, Global};
use vpc_base::NoMemory;

// Numbers of q from the first of some sides on: all of them are open, or none is.
#[derive(Clone, Copy)]
struct FirstPorts {
    last: u16,
    are_open: bool,
}

// Where a search goes on after a part, with the q of the part.
fn after(sides: &Box5, part: &Box5) -> Option<Box5>
    requires { IsWithin part.now sides.now }
    ensures { IsAfter sides.now part.now result }
{
    let mut next = *part;
    if part.p.1 < sides.p.1 {
        next.p = (part.p.1 + 1, sides.p.1);
        return Some(next);
    }
    next.p = sides.p;
    if part.dst.1 < sides.dst.1 {
        next.dst = (part.dst.1 + 1, sides.dst.1);
        return Some(next);
    }
    next.dst = sides.dst;
    if part.src.1 < sides.src.1 {
        next.src = (part.src.1 + 1, sides.src.1);
        return Some(next);
    }
    next.src = sides.src;
    if part.proto.1 < sides.proto.1 {
        next.proto = (part.proto.1 + 1, sides.proto.1);
        return Some(next);
    }
    None
}

// Whether the first q of the sides is open, and how far the others are as it is. Each part that is asked may lower
// the last of them, and what was asked before holds for fewer as well.
fn first_ports<P: Probe>(p: &P, sides: Box5) -> FirstPorts
    requires { IsValid sides }
    ensures { AreDecided (P.meaning p.now) sides result.last result.are_open }
{
    let mut asked = sides;
    'asked: loop {
        let (part, word) = p.probe(&asked);
        let last = part.q.1;
        if word.is_none() {
            return FirstPorts {
                last,
                are_open: true,
            };
        }
        match after(&sides, &part) {
            Some(next) => asked = next,
            None => return FirstPorts {
                last,
                are_open: false,
            },
        }
    }
}

// The range of the first ports where they are open, as a part of the last range where it touches that one.
fn add_open(ranges: &mut Vec<(u16, u16)>, first: u16, found: FirstPorts) -> Result<(), AllocError>
    requires some { first ≤ found.last }
    requires below { AreRangesBelow first ranges.old.items }
    ensures below { OnOk result (AreRangesBelow (found.last + 1) ranges.new.items) }
    ensures hold { OnOk result ((q : ℕ) → is_in_ranges ranges.new.items q
        ≡ (is_in_ranges ranges.old.items q || (found.are_open && in_range (first, found.last) q))) }
{
    if !found.are_open {
        return Ok(());
    }
    if let Some(range) = ranges.last_mut() {
        if u32::from(range.1) + 1 == u32::from(first) {
            range.1 = found.last;
            return Ok(());
        }
    }
    ranges.push((first, found.last))?;
    Ok(())
}

/// The numbers of q, among those of the sides, with which some header of the sides gets through: closed ranges in
/// ascending order, no two of which touch. For TCP and UDP they are destination ports that are open from some
/// source port. It takes no memory but for the ranges.
pub fn open_ports<P: Probe>(alloc: Global, p: &P, sides: Box5) -> Result<Vec<(u16, u16)>, NoMemory>
    requires { IsValid sides }
    ensures { IfOk result (λ v. AreOpenPorts (P.meaning p.now) sides v.items) }
{
    let mut ranges = Vec::new(alloc);
    let mut rest = sides;
    'decided: loop {
        let found = first_ports(p, rest);
        add_open(&mut ranges, rest.q.0, found)?;
        if found.last == sides.q.1 {
            return Ok(ranges);
        }
        rest.q.0 = found.last + 1;
    }
}
