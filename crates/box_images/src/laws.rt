// Laws of bodies and images, on which look-ups over images rest. The functions do nothing: their
// contracts say the laws.
ghost use Rattle.box_images.specs.Laws.{AlignedBodiesCompose, AnswersCompare, BodiesAreAligned, BodiesCompose, BodiesHoldLow, CutsAreInside, EndsCompose, ImagesFit, NarrowedAreAligned, OpensCompare};

/// A valid image has a header of its part as a header: each field fits its size.
pub fn images_fit()
    ensures { ImagesFit }
{}

/// Images of opens over one part read no two different sides in one field.
pub fn opens_compare()
    ensures { OpensCompare }
{}

/// Images of answers over one part read no two different sides in one field.
pub fn answers_compare()
    ensures { AnswersCompare }
{}

/// The bodies of a part are the boxes within it that hold its low corner.
pub fn bodies_hold_low()
    ensures { BodiesHoldLow }
{}

/// A body of a body is a body.
pub fn bodies_compose()
    ensures { BodiesCompose }
{}

/// A body of a body ends at the edges of both.
pub fn ends_compose()
    ensures { EndsCompose }
{}

/// A body that ends at edges is aligned to cuts where all edges inside the part are at cuts.
pub fn bodies_are_aligned()
    ensures { BodiesAreAligned }
{}

/// A value of a field that is, less what the field adds, a cut of the side that it reads, is a cut
/// inside the part or isn't had there.
pub fn cuts_are_inside()
    ensures { CutsAreInside }
{}

/// The body that `narrow` answers for lo to hi is aligned where lo and hi plus 1, less what the
/// field adds, are cuts.
pub fn narrowed_are_aligned()
    ensures { NarrowedAreAligned }
{}

/// An aligned body of an aligned body is an aligned body.
pub fn aligned_bodies_compose()
    ensures { AlignedBodiesCompose }
{}
