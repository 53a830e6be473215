// Boxes by their numbers.
ghost use Rattle.std.specs.Prelude.{◌≡◌, slice_get};
ghost use Rattle.std.specs.Option.{option_copied};
ghost use Rattle.box_survey.specs.Cells.{do_meet, meets_at};

use header_boxes::Box5;

/// The box of this number.
pub fn numbered(boxes: &[Box5], number: u32) -> Option<&Box5>
    ensures { option_copied result ≡ slice_get boxes.now number }
{
    boxes.get(number as usize)
}

// Whether the two share a header.
fn do_meet(a: &Box5, b: &Box5) -> bool
    ensures { result ≡ do_meet a.now b.now }
{
    (a.proto.0.max(b.proto.0) <= a.proto.1.min(b.proto.1))
        && ((a.src.0.max(b.src.0) <= a.src.1.min(b.src.1))
            && ((a.dst.0.max(b.dst.0) <= a.dst.1.min(b.dst.1))
                && ((a.p.0.max(b.p.0) <= a.p.1.min(b.p.1))
                    && (a.q.0.max(b.q.0) <= a.q.1.min(b.q.1)))))
}

/// Whether the box of this number shares a header with the cell.
pub fn meets_at(boxes: &[Box5], cell: &Box5, number: u32) -> bool
    ensures { result ≡ meets_at boxes.now cell.now number }
{
    match numbered(boxes, number) {
        None => false,
        Some(b) => do_meet(b, cell),
    }
}
