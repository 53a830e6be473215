// The images of requests.
ghost use Rattle.box_images.specs.Images.{IsImageOfWalk, IsValidImage};
ghost use Rattle.header_boxes.specs.Boxes.{IsValid};

use box_images::Image;
use header_boxes::Box5;

/// All requests of a box, as they begin their walks.
pub fn opens(part: &Box5) -> Image
    requires { IsValid part.now }
    ensures valid { IsValidImage result }
    ensures walk { IsImageOfWalk result }
{
    Image::of(part)
}
