// The fields of an image.
ghost use Rattle.std.specs.Prelude.{◌≡◌, ◌≤◌, ◌<◌, ◌^◌};
ghost use Rattle.box_images.specs.Fields.{greatest_of, number_of, value_of};
ghost use Rattle.box_images.specs.Parts.{raised};
ghost use Rattle.vpc_base.specs.declared.headers.Header.{Header};

use crate::sides::side_of;
use header_boxes::Box5;
use vpc_base::Header;

/// One of the five fields of a header, and the side of a box on which it lies.
#[derive(Clone, Copy, Debug, PartialEq, Eq)]
pub enum Side {
    Proto,
    Src,
    Dst,
    P,
    Q,
}

/// What stands in a field of a translated header: a constant, or the request's number on a side
/// with 0 or 1,024 added, by which a NAT gateway shifts a port (a choice of this project's profile).
#[derive(Clone, Copy, Debug, PartialEq, Eq)]
pub enum Field {
    Fixed(u32),
    Of(Side, u16),
}

fn number_of(h: &Header, side: Side) -> u32
    ensures { result ≡ number_of h.now side }
{
    match side {
        Side::Proto => u32::from(h.proto),
        Side::Src => h.src,
        Side::Dst => h.dst,
        Side::P => u32::from(h.p),
        Side::Q => u32::from(h.q),
    }
}

impl Field {
    // The value at a header of the request.
    pub(crate) fn value(self, h: &Header) -> u32
        requires { value_of self h.now < 2 ^ 32 }
        ensures { result ≡ value_of self h.now }
    {
        match self {
            Field::Fixed(n) => n,
            Field::Of(side, add) => number_of(h, side) + u32::from(add),
        }
    }

    // The greatest value over a box.
    pub(crate) fn greatest(self, part: &Box5) -> u32
        requires { greatest_of self part.now < 2 ^ 32 }
        ensures { result ≡ greatest_of self part.now }
    {
        match self {
            Field::Fixed(n) => n,
            Field::Of(side, add) => side_of(part, side).1 + u32::from(add),
        }
    }

    // 1,024 more than a field that is below 1,024 at some header.
    pub(crate) fn raised(self) -> Field
        requires { (h : Header) × (value_of self h < 1024) }
        ensures { result ≡ raised self }
    {
        match self {
            Field::Fixed(n) => Field::Fixed(n + 1024),
            Field::Of(side, add) => Field::Of(side, add + 1024),
        }
    }
}
