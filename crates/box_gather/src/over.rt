// All that is told of the headers of several boxes.
ghost use Rattle.std.specs.Prelude.{◌≡◌, All, AllPairs, IfOk};
ghost use Rattle.header_boxes.specs.Boxes.{AreDisjoint, IsValid};
ghost use Rattle.ordered_cover.specs.Gathered.{IsGathered};
ghost use Rattle.box_gather.specs.Over.{IsGatheredOver};
ghost use Rattle.box_gather.specs.Pile.{IsPiled};

use crate::pile::Pile;
use header_boxes::Box5;
use ordered_cover::search::gather;
use ordered_cover::{Gathered, Probe};
use std::alloc::Global;
use vpc_base::NoMemory;

fn pile_of<W: Copy>(gathered: Gathered<W>) -> Pile<W>
    ensures { IsPiled gathered result.rows.items result.next }
{
    match gathered {
        Gathered::All(rows) => Pile { rows, next: None },
        Gathered::More(rows, next) => Pile {
            rows,
            next: Some(next),
        },
    }
}

fn gathered<W: Copy>(pile: Pile<W>) -> Gathered<W>
    ensures { IsPiled result pile.rows.items pile.next }
{
    match pile.next {
        None => Gathered::All(pile.rows),
        Some(next) => Gathered::More(pile.rows, next),
    }
}

/// What the probe says of all headers of disjoint boxes that are told something, in at most `room` rows: rows that hold
/// all of them, or as many rows as there is room for and the first header outside them, whatever boxes they are in.
///
/// Each box is searched by itself, for at most `room` rows; those of all boxes are put in order afterwards, and at times in
/// between, so that no more than three times `room` are kept.
pub fn gather_over<P: Probe>(
    alloc: Global,
    p: &P,
    boxes: &[Box5],
    room: u32,
) -> Result<Gathered<P::Word>, NoMemory>
    requires valid { All IsValid boxes.now }
    requires disjoint { AllPairs AreDisjoint boxes.now }
    ensures { IfOk result (IsGatheredOver (P.meaning p.now) (P.cuts p.now) boxes.now room) }
{
    let most = room as usize;
    let mut pile = Pile {
        rows: Vec::new(alloc),
        next: None,
    };
    for part in boxes {
        let more = gather(alloc, p, *part, room)?;
        pile.join(pile_of(more))?;
        pile.shorten(most);
    }
    pile.trim(most);
    Ok(gathered(pile))
}
