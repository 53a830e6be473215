// The sides of a box by name, and lower upper ends.
ghost use Rattle.std.specs.Prelude.{ℕ, ◌≡◌, ◌≤◌, ◌<◌, ◌+◌, ◌⊎◌};
ghost use Rattle.box_images.specs.Fields.{greatest_on, side_of};
ghost use Rattle.box_images.specs.declared.fields.Side.{Side};
ghost use Rattle.box_images.specs.Parts.{ending_at};
ghost use Rattle.header_boxes.specs.Boxes.{in_range};

use crate::Side;
use header_boxes::Box5;

/// The closed range of the box on the side.
pub fn side_of(b: &Box5, side: Side) -> (u32, u32)
    ensures { result ≡ side_of b.now side }
{
    match side {
        Side::Proto => (u32::from(b.proto.0), u32::from(b.proto.1)),
        Side::Src => b.src,
        Side::Dst => b.dst,
        Side::P => (u32::from(b.p.0), u32::from(b.p.1)),
        Side::Q => (u32::from(b.q.0), u32::from(b.q.1)),
    }
}

// A side, with the bound that its type puts on it.
fn copy8(side: (u8, u8)) -> (u8, u8)
    ensures same { result ≡ side }
    ensures fits { result.1 ≤ 255 }
{
    side
}

fn copy16(side: (u16, u16)) -> (u16, u16)
    ensures same { result ≡ side }
    ensures fits { result.1 ≤ 65535 }
{
    side
}

fn copy32(side: (u32, u32)) -> (u32, u32)
    ensures same { result ≡ side }
    ensures fits { result.1 ≤ 4294967295 }
{
    side
}

/// The box, with the bounds that its type puts on its sides.
pub fn copy_of(b: &Box5) -> Box5
    ensures same { result ≡ b.now }
    ensures fits { (s : Side) → (side_of result s).1 ≤ greatest_on s }
{
    Box5 {
        proto: copy8(b.proto),
        src: copy32(b.src),
        dst: copy32(b.dst),
        p: copy16(b.p),
        q: copy16(b.q),
    }
}

fn ending8(side: (u8, u8), end: u32) -> (u8, u8)
    requires { end ≤ side.1 }
    ensures { result ≡ (side.0, end) }
{
    (side.0, end as u8)
}

fn ending16(side: (u16, u16), end: u32) -> (u16, u16)
    requires { end ≤ side.1 }
    ensures { result ≡ (side.0, end) }
{
    (side.0, end as u16)
}

/// The box with a lower upper end on a side.
pub fn ending_at(b: &Box5, side: Side, end: u32) -> Box5
    requires { end ≤ (side_of b.now side).1 }
    ensures { result ≡ ending_at b.now side end }
{
    let mut lowered = *b;
    match side {
        Side::Proto => lowered.proto = ending8(b.proto, end),
        Side::Src => lowered.src.1 = end,
        Side::Dst => lowered.dst.1 = end,
        Side::P => lowered.p = ending16(b.p, end),
        Side::Q => lowered.q = ending16(b.q, end),
    }
    lowered
}

/// The last number of a range up to which the numbers, with something added, are in lo to hi, or
/// aren't, as the first one.
pub fn last_alike(range: (u32, u32), add: u16, lo: u32, hi: u32) -> u32
    requires some { range.0 ≤ range.1 }
    requires ordered { lo ≤ hi }
    ensures begins { range.0 ≤ result }
    ensures ends { result ≤ range.1 }
    ensures edge { (result ≡ range.1) ⊎ (result + 1 + add ≡ lo) ⊎ (result + 1 + add ≡ hi + 1) }
    ensures alike { (x : ℕ) → range.0 ≤ x → x ≤ result
        → in_range (lo, hi) (x + add) ≡ in_range (lo, hi) (range.0 + add) }
{
    let add = u32::from(add);
    let last = match lo.checked_sub(add) {
        Some(lo) if range.0 < lo => lo - 1,
        _ => match hi.checked_sub(add) {
            Some(hi) if range.0 <= hi => hi,
            _ => range.1,
        },
    };
    range.1.min(last)
}
