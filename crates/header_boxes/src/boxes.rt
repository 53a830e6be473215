// Boxes of headers.
ghost use Rattle.std.specs.Prelude.{◌≡◌, ◌≤◌, ◌+◌, ◌*◌, ◌^◌, ◌&&◌, ◌↔◌, [], ◌∷◌, not, true, All, AllPairs, IsTrue, IfSome, IfNone, sum_by};
ghost use Rattle.std.specs.List.{list_any};
ghost use Rattle.header_boxes.specs.Boxes.{AreDisjoint, IsValid, IsWithin, common_box, holds, low_of, volume_of, width};
ghost use Rattle.header_boxes.specs.Cells.{IsAligned};
ghost use Rattle.header_boxes.specs.Minus.{HasSidesOf};
ghost use Rattle.vpc_base.specs.Cuts.{CutLists};
ghost use Rattle.vpc_base.specs.Header.{IsBefore, IsHeader};
ghost use Rattle.vpc_base.specs.declared.headers.Header.{Header as Packet};

use crate::products::product;
use crate::rest::{Rest, rest_without};
use arrayvec::ArrayVec;
use vpc_base::Header;

/// All headers whose five fields lie in five closed ranges. A range whose first number is greater
/// than its last is empty.
#[derive(Clone, Copy, Debug, PartialEq, Eq, Default)]
pub struct Box5 {
    pub proto: (u8, u8),
    pub src: (u32, u32),
    pub dst: (u32, u32),
    pub p: (u16, u16),
    pub q: (u16, u16),
}

// The ranges that the sides share, of which some may be empty.
fn common(a: &Box5, b: &Box5) -> Box5
    ensures { result ≡ common_box a.now b.now }
{
    Box5 {
        proto: (a.proto.0.max(b.proto.0), a.proto.1.min(b.proto.1)),
        src: (a.src.0.max(b.src.0), a.src.1.min(b.src.1)),
        dst: (a.dst.0.max(b.dst.0), a.dst.1.min(b.dst.1)),
        p: (a.p.0.max(b.p.0), a.p.1.min(b.p.1)),
        q: (a.q.0.max(b.q.0), a.q.1.min(b.q.1)),
    }
}

fn is_valid(b: &Box5) -> bool
    ensures { IsTrue result ↔ IsValid b.now }
{
    b.proto.0 <= b.proto.1
        && b.src.0 <= b.src.1
        && b.dst.0 <= b.dst.1
        && b.p.0 <= b.p.1
        && b.q.0 <= b.q.1
}

fn width8(side: (u8, u8)) -> u64
    requires { side.0 ≤ side.1 }
    ensures value { result ≡ width side }
    ensures bound { result ≤ 2 ^ 8 }
{
    u64::from(side.1 - side.0) + 1
}

fn width16(side: (u16, u16)) -> u64
    requires { side.0 ≤ side.1 }
    ensures value { result ≡ width side }
    ensures bound { result ≤ 2 ^ 16 }
{
    u64::from(side.1 - side.0) + 1
}

fn width32(side: (u32, u32)) -> u64
    requires { side.0 ≤ side.1 }
    ensures value { result ≡ width side }
    ensures bound { result ≤ 2 ^ 32 }
{
    u64::from(side.1 - side.0) + 1
}

fn only(b: &Box5) -> Rest
    ensures { result.items ≡ b.now ∷ [] }
{
    let mut rest = ArrayVec::new();
    rest.push(*b);
    rest
}

fn header(proto: u8, src: u32, dst: u32, p: u16, q: u16) -> Header
    ensures value { result ≡ record { proto = proto; src = src; dst = dst; p = p; q = q } }
    ensures fits { IsHeader result }
{
    Header {
        proto,
        src,
        dst,
        p,
        q,
    }
}

impl Box5 {
    /// Whether each field of the header lies in its range.
    pub fn holds(&self, h: &Header) -> bool
        ensures { result ≡ holds h.now self.now }
    {
        (self.proto.0 <= h.proto && h.proto <= self.proto.1)
            && ((self.src.0 <= h.src && h.src <= self.src.1)
                && ((self.dst.0 <= h.dst && h.dst <= self.dst.1)
                    && ((self.p.0 <= h.p && h.p <= self.p.1)
                        && (self.q.0 <= h.q && h.q <= self.q.1))))
    }

    /// The least header of the box.
    pub fn low(&self) -> Header
        requires { IsValid self.now }
        ensures value { result ≡ low_of self.now }
        ensures fits { IsHeader result }
    {
        header(self.proto.0, self.src.0, self.dst.0, self.p.0, self.q.0)
    }

    /// How many headers the box holds.
    #[tactic(auto, using(crate::proofs::BoxLaws::volume_is_positive))]
    pub fn volume(&self) -> u128
        requires { IsValid self.now }
        ensures value { result ≡ volume_of self.now }
        ensures some { 1 ≤ result }
        ensures bound { result ≤ 2 ^ 104 }
    {
        product(
            width8(self.proto),
            width32(self.src),
            width32(self.dst),
            width16(self.p),
            width16(self.q),
        )
    }

    /// The box of the headers that both boxes hold, and none where they share no header.
    pub fn meet(&self, other: &Box5) -> Option<Box5>
        ensures ranges { IfSome result (λ m. m ≡ common_box self.now other.now) }
        ensures valid { IfSome result IsValid }
        ensures holds { IfSome result (λ m. (h : Packet)
            → holds h m ≡ (holds h self.now && holds h other.now)) }
        ensures within_first { IfSome result (λ m. IsWithin m self.now) }
        ensures within_second { IfSome result (λ m. IsWithin m other.now) }
        ensures none { IfNone result (AreDisjoint self.now other.now) }
    {
        let shared = common(self, other);
        if is_valid(&shared) {
            Some(shared)
        } else {
            None
        }
    }

    /// Disjoint boxes, at most two a side, that hold exactly the headers of this box outside the part. The
    /// part need not lie in this box: where the two share no header, the answer is this box alone.
    pub fn minus(&self, part: &Box5) -> ArrayVec<Box5, 10>
        requires { IsValid self.now }
        ensures valid { All IsValid result.items }
        ensures within { All (λ b. IsWithin b self.now) result.items }
        ensures disjoint { AllPairs AreDisjoint result.items }
        ensures holds { (h : Packet) → list_any (holds h) result.items
            ≡ (holds h self.now && not (holds h part.now)) }
        ensures sides { All (HasSidesOf self.now part.now) result.items }
        ensures alone { AreDisjoint self.now part.now → result.items ≡ self.now ∷ [] }
        // the volumes of a part within the box and of what is left make up that of the box
        ensures volume { IsWithin part.now self.now
            → sum_by volume_of result.items + volume_of part.now ≡ volume_of self.now }
        // what is left comes after a part that begins with the box
        ensures after { holds (low_of self.now) part.now ≡ true
            → All (λ b. IsBefore (low_of part.now) (low_of b)) result.items }
        // what an aligned part leaves is aligned
        ensures aligned { (cuts : CutLists) → IsAligned cuts part.now self.now
            → All (λ b. IsAligned cuts b self.now) result.items }
    {
        match self.meet(part) {
            Some(shared) => rest_without(self, &shared),
            None => only(self),
        }
    }
}
