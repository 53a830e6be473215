// The sides of a cell, and its halves.
ghost use Rattle.std.specs.Prelude.{◌≡◌, ◌-◌};
ghost use Rattle.box_survey.specs.Cells.{AreHalves};
ghost use Rattle.box_survey.specs.Cuts.{Divides, IsCutOf, range_on, with_range};

use header_boxes::Box5;

/// A side of a box.
#[derive(Clone, Copy)]
pub enum Side {
    Proto,
    Src,
    Dst,
    P,
    Q,
}

/// A cut of one side, between the number before it and itself.
#[derive(Clone, Copy)]
pub struct Cut {
    pub side: Side,
    pub at: u32,
}

/// The range of a box on one side.
pub fn range_on(b: &Box5, side: Side) -> (u32, u32)
    ensures { result ≡ range_on side b.now }
{
    match side {
        Side::Proto => (u32::from(b.proto.0), u32::from(b.proto.1)),
        Side::Src => b.src,
        Side::Dst => b.dst,
        Side::P => (u32::from(b.p.0), u32::from(b.p.1)),
        Side::Q => (u32::from(b.q.0), u32::from(b.q.1)),
    }
}

fn parts8(range: (u8, u8), at: u32) -> ((u8, u8), (u8, u8))
    requires { Divides range at }
    ensures { result ≡ ((range.0, at - 1), (at, range.1)) }
{
    let at = at as u8;
    ((range.0, at - 1), (at, range.1))
}

fn parts16(range: (u16, u16), at: u32) -> ((u16, u16), (u16, u16))
    requires { Divides range at }
    ensures { result ≡ ((range.0, at - 1), (at, range.1)) }
{
    let at = at as u16;
    ((range.0, at - 1), (at, range.1))
}

fn parts32(range: (u32, u32), at: u32) -> ((u32, u32), (u32, u32))
    requires { Divides range at }
    ensures { result ≡ ((range.0, at - 1), (at, range.1)) }
{
    ((range.0, at - 1), (at, range.1))
}

fn halves_by_side(cell: &Box5, cut: Cut) -> (Box5, Box5)
    requires { IsCutOf cell.now cut }
    ensures low { result.0 ≡ with_range cut.side cell.now ((range_on cut.side cell.now).0, cut.at - 1) }
    ensures high { result.1 ≡ with_range cut.side cell.now (cut.at, (range_on cut.side cell.now).1) }
{
    match cut.side {
        Side::Proto => {
            let (low, high) = parts8(cell.proto, cut.at);
            (
                Box5 {
                    proto: low,
                    ..*cell
                },
                Box5 {
                    proto: high,
                    ..*cell
                },
            )
        }
        Side::Src => {
            let (low, high) = parts32(cell.src, cut.at);
            (Box5 { src: low, ..*cell }, Box5 { src: high, ..*cell })
        }
        Side::Dst => {
            let (low, high) = parts32(cell.dst, cut.at);
            (Box5 { dst: low, ..*cell }, Box5 { dst: high, ..*cell })
        }
        Side::P => {
            let (low, high) = parts16(cell.p, cut.at);
            (Box5 { p: low, ..*cell }, Box5 { p: high, ..*cell })
        }
        Side::Q => {
            let (low, high) = parts16(cell.q, cut.at);
            (Box5 { q: low, ..*cell }, Box5 { q: high, ..*cell })
        }
    }
}

/// The two parts of a cell.
pub fn halves(cell: &Box5, cut: Cut) -> (Box5, Box5)
    requires { IsCutOf cell.now cut }
    ensures { AreHalves cell.now result.0 result.1 }
{
    halves_by_side(cell, cut)
}
