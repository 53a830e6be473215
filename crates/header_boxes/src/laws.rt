// Laws of boxes, on which a search over boxes rests. The functions do nothing: their contracts say the
// laws.
ghost use Rattle.header_boxes.specs.Laws.{AlignedByEnds, AlignedGrows, AlignedHoldsCells, AlignedIsTransitive, CellsAreNumbered, HoldsLow, LowIsLeast, MinusAligned, MinusLowAfter, VolumeIsPositive, WithinHolds};

/// No header of a box comes before its low corner.
pub fn low_is_least()
    ensures { LowIsLeast }
{}

/// A valid box holds its low corner.
pub fn box_holds_low()
    ensures { HoldsLow }
{}

/// A valid box holds at least one header.
pub fn volume_is_positive()
    ensures { VolumeIsPositive }
{}

/// The headers of a part are headers of its whole.
pub fn within_holds()
    ensures { WithinHolds }
{}

/// Where a part holds the low corner of its whole, what is left of the whole comes after the part.
pub fn minus_low_after()
    ensures { MinusLowAfter }
{}

/// What an aligned part leaves of the whole is aligned.
pub fn minus_aligned()
    ensures { MinusAligned }
{}

/// A part that is aligned to a box that is aligned to a whole is aligned to that whole.
pub fn aligned_transitive()
    ensures { AlignedIsTransitive }
{}

/// A part with the low corner of its whole is aligned where each of its sides ends before a cut or where
/// that of the whole ends.
pub fn aligned_by_ends()
    ensures { AlignedByEnds }
{}

/// A box that is aligned to some cuts is aligned to more cuts.
pub fn aligned_grows()
    ensures { AlignedGrows }
{}

/// An aligned part holds the whole cell of each of its headers.
pub fn aligned_cell()
    ensures { AlignedHoldsCells }
{}

/// Each header of a box is in one cell, whose number is below that of all cells.
pub fn cell_number()
    ensures { CellsAreNumbered }
{}
