// What pieces tell of the destination.
ghost use Rattle.std.specs.Prelude.{◌≡◌, ◌≤◌, ◌-◌, ◌*◌, ◌^◌, length};
ghost use Rattle.box_images.specs.Answers.{Answers};
ghost use Rattle.box_images.specs.Images.{IsImageOfWalk, IsValidImage, header_at};
ghost use Rattle.cut_laws.specs.Dividing.{DivideFirsts};
ghost use Rattle.piece_table.specs.Pieces.{told_at};

use box_images::{Image, Part, Side};
use piece_table::{Pieces, Steps};
use std::sync::ledger::Ledger;

/// What the piece that holds the destination tells, by a search that reads at most 2 + log2(n) of the
/// n pieces.
pub fn piece_on<L: Ledger>(i: &Image, pieces: &Pieces, steps: &mut Steps<L>) -> Part<Option<u32>>
    requires valid { IsValidImage i.now }
    requires walk { IsImageOfWalk i.now }
    ensures answer { Answers (DivideFirsts pieces.now.firsts)
        (λ h. told_at pieces.now (header_at i.now h).dst) i.now.part result }
    ensures later { steps.old ≤ steps.new }
    ensures few { 2 ^ (steps.new - steps.old) ≤ 4 * length pieces.now.firsts }
{
    let dst = i.value(&i.part.low()).dst;
    let (first, last, told) = pieces.find(dst, steps);
    Part {
        body: i.narrow(Side::Dst, first, last).body,
        told,
    }
}
