// Boxes of headers, one side after the other.
ghost use Rattle.box_images.specs.Answers.{Answers};
ghost use Rattle.box_images.specs.Images.{IsImageOfWalk, IsValidImage, header_at};
ghost use Rattle.cut_laws.specs.Dividing.{Divide};
ghost use Rattle.header_boxes.specs.Boxes.{holds};
ghost use Rattle.vpc_model.specs.Cuts.{cuts_of_box};
ghost use Rattle.image_tests.specs.Tests.{holds_ends, holds_from_dst, holds_ports, is_on};

use crate::rules::side_on;
use box_images::{Image, Part, Side, side_of};
use header_boxes::Box5;

// Whether the box has the number on a side.
fn side_in(i: &Image, b: &Box5, side: Side) -> Part<bool>
    requires valid { IsValidImage i.now }
    requires walk { IsImageOfWalk i.now }
    ensures { Answers (Divide (cuts_of_box b.now))
        (λ h. is_on side (header_at i.now h) b.now) i.now.part result }
{
    let (from, to) = side_of(b, side);
    side_on(i, side, from, to)
}

fn ports_in(i: &Image, b: &Box5) -> Part<bool>
    requires valid { IsValidImage i.now }
    requires walk { IsImageOfWalk i.now }
    ensures { Answers (Divide (cuts_of_box b.now))
        (λ h. holds_ports (header_at i.now h) b.now) i.now.part result }
{
    let first = side_in(i, b, Side::P);
    if !first.told {
        return first;
    }
    side_in(&i.within(&first.body), b, Side::Q)
}

fn from_dst_in(i: &Image, b: &Box5) -> Part<bool>
    requires valid { IsValidImage i.now }
    requires walk { IsImageOfWalk i.now }
    ensures { Answers (Divide (cuts_of_box b.now))
        (λ h. holds_from_dst (header_at i.now h) b.now) i.now.part result }
{
    let first = side_in(i, b, Side::Dst);
    if !first.told {
        return first;
    }
    ports_in(&i.within(&first.body), b)
}

fn ends_in(i: &Image, b: &Box5) -> Part<bool>
    requires valid { IsValidImage i.now }
    requires walk { IsImageOfWalk i.now }
    ensures { Answers (Divide (cuts_of_box b.now))
        (λ h. holds_ends (header_at i.now h) b.now) i.now.part result }
{
    let first = side_in(i, b, Side::Src);
    if !first.told {
        return first;
    }
    from_dst_in(&i.within(&first.body), b)
}

/// Whether a box has the header. Each side is asked where the box has the numbers on those before it.
pub fn box_on(i: &Image, b: &Box5) -> Part<bool>
    requires valid { IsValidImage i.now }
    requires walk { IsImageOfWalk i.now }
    ensures { Answers (Divide (cuts_of_box b.now))
        (λ h. holds (header_at i.now h) b.now) i.now.part result }
{
    let first = side_in(i, b, Side::Proto);
    if !first.told {
        return first;
    }
    ends_in(&i.within(&first.body), b)
}
