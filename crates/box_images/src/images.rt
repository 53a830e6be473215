// Images of the headers of a box.
ghost use Rattle.std.specs.Prelude.{ℕ, ◌≡◌, List, Contains, true};
ghost use Rattle.header_boxes.specs.Boxes.{IsValid, IsWithin, holds};
ghost use Rattle.vpc_base.specs.Header.{IsHeader};
ghost use Rattle.vpc_base.specs.declared.headers.Header.{Header};
ghost use Rattle.box_images.specs.Images.{IsImageOfOpen, IsValidImage, KeepsKind, header_at};
ghost use Rattle.box_images.specs.declared.fields.Field.TheVariants.{Fixed};

use crate::sides::copy_of;
use crate::{Field, Side};
use header_boxes::Box5;
use vpc_base::Header;

/// What a walk makes of each header of a box of requests: five fields, each of them a constant or a
/// field of the request.
#[derive(Clone, Copy, PartialEq, Eq)]
pub struct Image {
    pub part: Box5,
    pub proto: Field,
    pub src: Field,
    pub dst: Field,
    pub p: Field,
    pub q: Field,
}

/// An answer, and the requests that it holds for: a part of those that were asked about, with their
/// low corner.
#[derive(Clone, Copy, PartialEq, Eq)]
pub struct Part<T> {
    pub body: Box5,
    pub told: T,
}

impl Image {
    /// Each header of the box as it is.
    pub fn of(b: &Box5) -> Image
        requires { IsValid b.now }
        ensures part { result.part ≡ b.now }
        ensures value { (h : Header) → header_at result h ≡ h }
        ensures valid { IsValidImage result }
        ensures kind { (addresses : List ℕ) → IsImageOfOpen addresses result }
    {
        Image {
            part: copy_of(b),
            proto: Field::Of(Side::Proto, 0),
            src: Field::Of(Side::Src, 0),
            dst: Field::Of(Side::Dst, 0),
            p: Field::Of(Side::P, 0),
            q: Field::Of(Side::Q, 0),
        }
    }

    /// The header at a header of the request.
    pub fn value(&self, h: &Header) -> Header
        requires valid { IsValidImage self.now }
        requires inside { holds h.now self.now.part ≡ true }
        ensures value { result ≡ header_at self.now h.now }
        ensures fits { IsHeader result }
    {
        Header {
            proto: self.proto.value(h) as u8,
            src: self.src.value(h),
            dst: self.dst.value(h),
            p: self.p.value(h) as u16,
            q: self.q.value(h) as u16,
        }
    }

    /// The image over a part of its requests.
    pub fn within(&self, body: &Box5) -> Image
        requires valid { IsValidImage self.now }
        requires within { IsWithin body.now self.now.part }
        ensures image { result ≡ record self.now { part = body.now } }
        ensures valid { IsValidImage result }
        ensures kind { (addresses : List ℕ) → KeepsKind addresses self.now result }
    {
        Image {
            part: *body,
            ..*self
        }
    }

    /// Leaves of the image what it is over a part of its requests.
    pub fn keep(&mut self, body: &Box5)
        requires valid { IsValidImage self.old }
        requires within { IsWithin body.now self.old.part }
        ensures image { self.new ≡ record self.old { part = body.now } }
        ensures valid { IsValidImage self.new }
        ensures kind { (addresses : List ℕ) → KeepsKind addresses self.old self.new }
    {
        self.part = *body;
    }

    /// The image with a source address that doesn't depend on the request.
    pub fn set_src(&self, a: u32) -> Image
        requires { IsValidImage self.now }
        ensures image { result ≡ record self.now { src = Fixed a } }
        ensures valid { IsValidImage result }
        ensures kind { (addresses : List ℕ) → Contains addresses a
            → KeepsKind addresses self.now result }
    {
        Image {
            src: Field::Fixed(a),
            ..*self
        }
    }

    /// The image with a destination address that doesn't depend on the request.
    pub fn set_dst(&self, a: u32) -> Image
        requires { IsValidImage self.now }
        ensures image { result ≡ record self.now { dst = Fixed a } }
        ensures valid { IsValidImage result }
        ensures kind { (addresses : List ℕ) → Contains addresses a
            → KeepsKind addresses self.now result }
    {
        Image {
            dst: Field::Fixed(a),
            ..*self
        }
    }
}
