// The least box that holds some boxes.
ghost use Rattle.std.specs.Prelude.{All};
ghost use Rattle.header_boxes.specs.Boxes.{IsValid, IsWithin};

use header_boxes::Box5;

// The least box that holds both.
fn joined(a: &Box5, b: &Box5) -> Box5
    requires first { IsValid a.now }
    requires second { IsValid b.now }
    ensures first { IsWithin a.now result }
    ensures second { IsWithin b.now result }
{
    Box5 {
        proto: (a.proto.0.min(b.proto.0), a.proto.1.max(b.proto.1)),
        src: (a.src.0.min(b.src.0), a.src.1.max(b.src.1)),
        dst: (a.dst.0.min(b.dst.0), a.dst.1.max(b.dst.1)),
        p: (a.p.0.min(b.p.0), a.p.1.max(b.p.1)),
        q: (a.q.0.min(b.q.0), a.q.1.max(b.q.1)),
    }
}

/// The least box that holds another one and all boxes.
pub fn hull(whole: &Box5, boxes: &[Box5]) -> Box5
    requires whole { IsValid whole.now }
    requires boxes { All IsValid boxes.now }
    ensures valid { IsValid result }
    ensures whole { IsWithin whole.now result }
    ensures boxes { All (λ b. IsWithin b result) boxes.now }
{
    let mut hull = *whole;
    for b in boxes {
        hull = joined(&hull, b);
    }
    hull
}
