// Questions about fields of an image.
ghost use Rattle.std.specs.Prelude.{◌≡◌, ◌≤◌, ◌↔◌, ℕ, IsTrue, true};
ghost use Rattle.header_boxes.specs.Boxes.{IsValid, holds, in_range, low_of};
ghost use Rattle.header_boxes.specs.declared.boxes.Box5.{Box5};
ghost use Rattle.vpc_base.specs.declared.headers.Header.{Header};
ghost use Rattle.box_images.specs.Fields.{AreComparable, greatest_of, number_of, value_of};
ghost use Rattle.box_images.specs.Images.{CanCompare, IsValidImage, field_of, header_at};
ghost use Rattle.box_images.specs.Bodies.{EndsAtEdges, IsBody, range_edges, same_edges};
ghost use Rattle.box_images.specs.Parts.{IsBoth, TellsRange, TellsSame};

use crate::sides::{ending_at, last_alike, side_of};
use crate::{Field, Image, Part, Side};
use header_boxes::Box5;

fn is_between(x: u64, lo: u32, hi: u32) -> bool
    ensures { result ≡ in_range (lo, hi) x }
{
    u64::from(lo) <= x && x <= u64::from(hi)
}

// Whether the field lies in lo to hi.
pub fn narrow_field(part: &Box5, field: Field, lo: u32, hi: u32) -> Part<bool>
    requires valid { IsValid part.now }
    requires ordered { lo ≤ hi }
    ensures { TellsRange field lo hi part.now result }
{
    match field {
        Field::Fixed(n) => Part {
            body: *part,
            told: is_between(u64::from(n), lo, hi),
        },
        Field::Of(side, add) => {
            let range = side_of(part, side);
            Part {
                body: ending_at(part, side, last_alike(range, add, lo, hi)),
                told: is_between(u64::from(range.0) + u64::from(add), lo, hi),
            }
        }
    }
}

// Whether two fields are the same.
fn compare(part: &Box5, a: Field, b: Field) -> Part<bool>
    requires valid { IsValid part.now }
    requires comparable { AreComparable a b }
    ensures { TellsSame a b part.now result }
{
    match (a, b) {
        (Field::Of(_, add), Field::Of(_, more)) => Part {
            body: *part,
            told: add == more,
        },
        (Field::Of(_, _), Field::Fixed(n)) => narrow_field(part, a, n, n),
        (Field::Fixed(n), Field::Of(_, _)) => narrow_field(part, b, n, n),
        (Field::Fixed(m), Field::Fixed(n)) => Part {
            body: *part,
            told: m == n,
        },
    }
}

// Whether both tests hold.
fn both(a: &Part<bool>, b: &Part<bool>) -> Part<bool>
    requires { (part : Box5) × (IsBody a.now.body part × IsBody b.now.body part) }
    ensures { IsBoth a.now b.now result }
{
    if !a.told {
        return *a;
    }
    if !b.told {
        return *b;
    }
    Part {
        body: a.body.meet(&b.body).unwrap(),
        told: true,
    }
}

impl Image {
    /// Whether the field on the side lies in lo to hi, numbers of that side. A rule whose range is
    /// reversed matches nothing, and isn't asked.
    pub fn narrow(&self, side: Side, lo: u32, hi: u32) -> Part<bool>
        requires valid { IsValidImage self.now }
        requires ordered { lo ≤ hi }
        ensures told { (h : Header) → holds h result.body ≡ true
            → result.told ≡ in_range (lo, hi) (number_of (header_at self.now h) side) }
        ensures body { IsBody result.body self.now.part }
        ensures ends { let edges = range_edges (field_of self.now side) lo hi in
            EndsAtEdges edges result.body self.now.part }
    {
        narrow_field(&self.part, self.field(side), lo, hi)
    }

    /// The least number on the side, which is that at the low corner.
    pub fn least(&self, side: Side) -> u32
        requires { IsValidImage self.now }
        ensures { result ≡ value_of (field_of self.now side) (low_of self.now.part) }
    {
        self.field(side).value(&self.part.low())
    }

    /// The greatest number on the side.
    pub fn greatest(&self, side: Side) -> u32
        requires { IsValidImage self.now }
        ensures { result ≡ greatest_of (field_of self.now side) self.now.part }
    {
        self.field(side).greatest(&self.part)
    }

    /// Whether the two images have the same header.
    pub fn same(&self, other: &Image) -> Part<bool>
        requires valid { IsValidImage self.now }
        requires comparable { CanCompare self.now other.now }
        ensures told { (h : Header) → holds h result.body ≡ true
            → IsTrue result.told ↔ (header_at self.now h ≡ header_at other.now h) }
        ensures body { IsBody result.body self.now.part }
        ensures ends { EndsAtEdges (same_edges self.now other.now) result.body self.now.part }
    {
        let part = &self.part;
        let proto = compare(part, self.proto, other.proto);
        let src = compare(part, self.src, other.src);
        let dst = compare(part, self.dst, other.dst);
        let p = compare(part, self.p, other.p);
        let q = compare(part, self.q, other.q);
        let addresses = both(&src, &dst);
        let ports = both(&p, &q);
        let ends = both(&addresses, &ports);
        both(&proto, &ends)
    }

    fn field(&self, side: Side) -> Field
        ensures { result ≡ field_of self.now side }
    {
        match side {
            Side::Proto => self.proto,
            Side::Src => self.src,
            Side::Dst => self.dst,
            Side::P => self.p,
            Side::Q => self.q,
        }
    }
}
