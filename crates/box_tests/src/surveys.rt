// Lists of boxes in a whole.
ghost use Rattle.std.specs.Prelude.{◌↔◌, All, IsTrue};
ghost use Rattle.header_boxes.specs.Boxes.{IsValid};

use box_survey::{Survey, WholeBox, surveyed};
use header_boxes::Box5;
use std::alloc::Global;
use std::process::Abort;
use std::test::Fail;
use vpc_base::{Header, NoMemory};

// HTTP and HTTPS from any port of one host to another.
const WHOLE: Box5 = Box5 {
    proto: (6, 6),
    src: (0x0a00_0000, 0x0a00_0000),
    dst: (0x0a00_0100, 0x0a00_01ff),
    p: (0, 65535),
    q: (80, 443),
};

fn is_valid(b: &Box5) -> bool
    ensures { IsTrue result ↔ IsValid b.now }
{
    b.proto.0 <= b.proto.1
        && b.src.0 <= b.src.1
        && b.dst.0 <= b.dst.1
        && b.p.0 <= b.p.1
        && b.q.0 <= b.q.1
}

fn are_valid(boxes: &[Box5]) -> bool
    ensures { IsTrue result ↔ All IsValid boxes.now }
{
    boxes.iter().all(|b| is_valid(b))
}

// What is found of a few boxes in the whole, and nothing of a list that isn't one.
fn survey_of(alloc: Global, boxes: &[Box5]) -> Result<Option<Survey>, NoMemory> {
    if !are_valid(boxes) || boxes.len() > 9 {
        return Ok(None);
    }
    Ok(Some(surveyed(alloc, &WholeBox::of(WHOLE), boxes)?))
}

/// A box of the whole, or beside it, by its addresses and its last ports.
type Part = ((u32, u32), (u16, u16));

const ALL: (u32, u32) = (0x0a00_0100, 0x0a00_01ff);

const LOWER: (u32, u32) = (0x0a00_0100, 0x0a00_017f);

const UPPER: (u32, u32) = (0x0a00_0180, 0x0a00_01ff);

const EVERYTHING: Part = (ALL, (80, 443));

fn survey_of_parts(alloc: Global, parts: &[Part]) -> Result<Option<Survey>, NoMemory> {
    let mut boxes = Vec::new(alloc);
    for (dst, q) in parts {
        boxes.push(Box5 {
            dst: *dst,
            q: *q,
            ..WHOLE
        })?;
    }
    survey_of(alloc, boxes.as_slice())
}

// The least header of the whole.
const FIRST: Header = Header {
    proto: 6,
    src: 0x0a00_0000,
    dst: 0x0a00_0100,
    p: 0,
    q: 80,
};

const DISJOINT: [(&[Part], Survey); 8] = [
    (&[], Survey::Uncovered(FIRST)),
    (&[EVERYTHING], Survey::Whole),
    (&[(ALL, (80, 200)), (ALL, (201, 443))], Survey::Whole),
    (
        &[(ALL, (300, 443)), (ALL, (80, 120)), (ALL, (121, 299))],
        Survey::Whole,
    ),
    (
        &[(ALL, (80, 200)), (ALL, (202, 443))],
        Survey::Uncovered(Header { q: 201, ..FIRST }),
    ),
    (&[(ALL, (81, 443))], Survey::Uncovered(FIRST)),
    (
        &[(ALL, (80, 442))],
        Survey::Uncovered(Header { q: 443, ..FIRST }),
    ),
    // the hole of the lower addresses comes first, though its port is the greater
    (
        &[(UPPER, (100, 443)), (LOWER, (80, 400))],
        Survey::Uncovered(Header { q: 401, ..FIRST }),
    ),
];

const OVERLAPPING: [(&[Part], Survey); 7] = [
    (
        &[(ALL, (80, 200)), (ALL, (200, 443))],
        Survey::Overlap(0, 1),
    ),
    // behind a hole, and the least of two pairs there
    (
        &[
            (ALL, (85, 86)),
            (ALL, (410, 420)),
            (ALL, (300, 310)),
            (ALL, (310, 400)),
            (ALL, (420, 443)),
        ],
        Survey::Overlap(1, 4),
    ),
    (&[EVERYTHING, EVERYTHING, EVERYTHING], Survey::Overlap(0, 1)),
    (
        &[
            (ALL, (80, 80)),
            (ALL, (90, 95)),
            (ALL, (85, 89)),
            (ALL, (95, 99)),
        ],
        Survey::Overlap(1, 3),
    ),
    // the pair of the lesser first number, though its second one is the last
    (
        &[
            (ALL, (80, 90)),
            (ALL, (91, 95)),
            (ALL, (95, 99)),
            (ALL, (100, 120)),
            (ALL, (90, 90)),
        ],
        Survey::Overlap(0, 4),
    ),
    (
        &[(UPPER, (80, 443)), (LOWER, (80, 300)), (ALL, (443, 443))],
        Survey::Overlap(0, 2),
    ),
    // outside the whole too
    (
        &[EVERYTHING, (ALL, (1000, 2000)), (ALL, (2000, 3000))],
        Survey::Overlap(1, 2),
    ),
];

fn surveys(rt: &impl Abort, alloc: Global, cases: &[(&[Part], Survey)]) -> Result<(), NoMemory> {
    for (parts, survey) in cases {
        let found = survey_of_parts(alloc, parts)?;
        assert!(rt; found == Some(*survey), "{parts:?}");
    }
    Ok(())
}

#[test]
fn boxes_of_a_whole(rt: HostRuntime) -> Result<(), Fail> {
    surveys(&rt, rt.alloc(), &DISJOINT)?;
    surveys(&rt, rt.alloc(), &OVERLAPPING)?;
    Ok(())
}
