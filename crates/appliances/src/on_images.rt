// What boxes hold of all headers of an image.
ghost use Rattle.box_images.specs.Answers.{Answers};
ghost use Rattle.box_images.specs.Images.{IsImageOfWalk, IsValidImage, header_at};
ghost use Rattle.cut_laws.specs.Dividing.{Divide};
ghost use Rattle.vpc_model.specs.Appliances.{passes};
ghost use Rattle.vpc_model.specs.Cuts.{all_cuts, cuts_of_box};

use box_images::{Image, Part};
use header_boxes::Box5;
use image_tests::box_on;

/// Whether one of the boxes has the header. The first that has the low corner answers for all that it has.
pub fn passes_on(boxes: &[Box5], i: &Image) -> Part<bool>
    requires valid { IsValidImage i.now }
    requires walk { IsImageOfWalk i.now }
    ensures { Answers (Divide (all_cuts cuts_of_box boxes.now))
        (λ h. passes boxes.now (header_at i.now h)) i.now.part result }
{
    let mut rest = *i;
    for b in boxes {
        let held = box_on(&rest, b);
        if held.told {
            // Of the whole image: what the boxes before it have doesn't matter.
            return box_on(i, b);
        }
        rest = rest.within(&held.body);
    }
    Part {
        body: rest.part,
        told: false,
    }
}
