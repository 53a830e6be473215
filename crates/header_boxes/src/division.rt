// Cuts of the sides of boxes.
ghost use Rattle.std.specs.Prelude.{◌≡◌, ◌≤◌, ◌+◌, ◌^◌, ◌&&◌, ◌↔◌, ◌⊎◌, IsTrue, Contains, count_by, nat_le};
ghost use Rattle.std.specs.List.Sorted.{IsStrictlyIncreasing};
ghost use Rattle.vpc_base.specs.Cuts.{IsSideAligned};
ghost use Rattle.header_boxes.specs.Boxes.{IsValid};
ghost use Rattle.header_boxes.specs.Cells.{AreAscending, IsAligned, cells_of, pieces_of};

use crate::Box5;
use crate::products::product;
use std::marker::Model;

/// Where the sides of boxes may be divided: a cut c divides between c minus 1 and c. The cuts of
/// addresses are those of sources and of destinations.
pub struct Cuts {
    pub proto: Vec<u32>,
    pub addr: Vec<u32>,
    pub p: Vec<u32>,
    pub q: Vec<u32>,
}

impl Drop for Cuts {
    fn drop(self) {
        let Cuts { proto, addr, p, q } = self;
        drop(proto);
        drop(addr);
        drop(p);
        drop(q);
    }
}

impl Model for Cuts {
    ghost use Rattle.vpc_base.specs.Cuts.{CutLists};

    ghost Value = { CutLists };

    ghost view = { λ c. record { proto = c.proto.items; addr = c.addr.items; p = c.p.items; q = c.q.items } };
}

impl Cuts {
    fn of_protocols(&self) -> &[u32]
        ensures { result.now ≡ self.now.proto }
    {
        self.proto.as_slice()
    }

    fn of_addresses(&self) -> &[u32]
        ensures { result.now ≡ self.now.addr }
    {
        self.addr.as_slice()
    }

    fn of_p(&self) -> &[u32]
        ensures { result.now ≡ self.now.p }
    {
        self.p.as_slice()
    }

    fn of_q(&self) -> &[u32]
        ensures { result.now ≡ self.now.q }
    {
        self.q.as_slice()
    }
}

// How many cuts are at most x.
fn count_up_to(cuts: &[u32], x: u32) -> usize
    requires { IsStrictlyIncreasing cuts.now }
    ensures { result ≡ count_by (λ c. nat_le c x) cuts.now }
{
    cuts.partition_point(|c| *c <= x)
}

// How many pieces the cuts make of a range, at most as many as it has numbers.
fn pieces(cuts: &[u32], first: u32, last: u32) -> u64
    requires ascending { IsStrictlyIncreasing cuts.now }
    requires valid { first ≤ last }
    ensures value { result ≡ pieces_of cuts.now (first, last) }
    ensures bound { result + first ≤ last + 1 }
{
    (count_up_to(cuts, last) - count_up_to(cuts, first)) as u64 + 1
}

fn pieces8(cuts: &[u32], side: (u8, u8)) -> u64
    requires ascending { IsStrictlyIncreasing cuts.now }
    requires valid { side.0 ≤ side.1 }
    ensures value { result ≡ pieces_of cuts.now side }
    ensures bound { result ≤ 2 ^ 8 }
{
    pieces(cuts, u32::from(side.0), u32::from(side.1))
}

fn pieces16(cuts: &[u32], side: (u16, u16)) -> u64
    requires ascending { IsStrictlyIncreasing cuts.now }
    requires valid { side.0 ≤ side.1 }
    ensures value { result ≡ pieces_of cuts.now side }
    ensures bound { result ≤ 2 ^ 16 }
{
    pieces(cuts, u32::from(side.0), u32::from(side.1))
}

fn pieces32(cuts: &[u32], side: (u32, u32)) -> u64
    requires ascending { IsStrictlyIncreasing cuts.now }
    requires valid { side.0 ≤ side.1 }
    ensures value { result ≡ pieces_of cuts.now side }
    ensures bound { result ≤ 2 ^ 32 }
{
    pieces(cuts, side.0, side.1)
}

/// How many cells the cuts make of the box: the product over the five sides of the number of pieces
/// into which the cuts divide the side. The lists of cuts are ascending and without repeats.
pub fn cells(cuts: &Cuts, b: &Box5) -> u128
    requires ascending { AreAscending cuts.now }
    requires valid { IsValid b.now }
    ensures value { result ≡ cells_of cuts.now b.now }
    ensures bound { result ≤ 2 ^ 104 }
{
    product(
        pieces8(cuts.of_protocols(), b.proto),
        pieces32(cuts.of_addresses(), b.src),
        pieces32(cuts.of_addresses(), b.dst),
        pieces16(cuts.of_p(), b.p),
        pieces16(cuts.of_q(), b.q),
    )
}

fn is_cut(cuts: &[u32], x: u32) -> bool
    requires { IsStrictlyIncreasing cuts.now }
    ensures { IsTrue result ↔ Contains cuts.now x }
{
    cuts.binary_search(&x).is_ok()
}

fn is_before_cut(cuts: &[u32], x: u32) -> bool
    requires { IsStrictlyIncreasing cuts.now }
    ensures { IsTrue result ↔ Contains cuts.now (x + 1) }
{
    match x.checked_add(1) {
        Some(next) => is_cut(cuts, next),
        None => false,
    }
}

fn begins_aligned(cuts: &[u32], part: u32, whole: u32) -> bool
    requires { IsStrictlyIncreasing cuts.now }
    ensures { IsTrue result ↔ ((part ≡ whole) ⊎ Contains cuts.now part) }
{
    part == whole || is_cut(cuts, part)
}

fn ends_aligned(cuts: &[u32], part: u32, whole: u32) -> bool
    requires { IsStrictlyIncreasing cuts.now }
    ensures { IsTrue result ↔ ((part ≡ whole) ⊎ Contains cuts.now (part + 1)) }
{
    part == whole || is_before_cut(cuts, part)
}

fn is_side_aligned32(cuts: &[u32], part: (u32, u32), whole: (u32, u32)) -> bool
    requires { IsStrictlyIncreasing cuts.now }
    ensures { IsTrue result ↔ IsSideAligned cuts.now part whole }
{
    begins_aligned(cuts, part.0, whole.0) && ends_aligned(cuts, part.1, whole.1)
}

fn is_side_aligned8(cuts: &[u32], part: (u8, u8), whole: (u8, u8)) -> bool
    requires { IsStrictlyIncreasing cuts.now }
    ensures { IsTrue result ↔ IsSideAligned cuts.now part whole }
{
    begins_aligned(cuts, u32::from(part.0), u32::from(whole.0))
        && ends_aligned(cuts, u32::from(part.1), u32::from(whole.1))
}

fn is_side_aligned16(cuts: &[u32], part: (u16, u16), whole: (u16, u16)) -> bool
    requires { IsStrictlyIncreasing cuts.now }
    ensures { IsTrue result ↔ IsSideAligned cuts.now part whole }
{
    begins_aligned(cuts, u32::from(part.0), u32::from(whole.0))
        && ends_aligned(cuts, u32::from(part.1), u32::from(whole.1))
}

fn are_addresses_aligned(cuts: &[u32], part: &Box5, whole: &Box5) -> bool
    requires { IsStrictlyIncreasing cuts.now }
    ensures { IsTrue result ↔ (IsSideAligned cuts.now part.now.src whole.now.src
        × IsSideAligned cuts.now part.now.dst whole.now.dst) }
{
    is_side_aligned32(cuts, part.src, whole.src) && is_side_aligned32(cuts, part.dst, whole.dst)
}

fn are_ports_aligned(cuts: &Cuts, part: &Box5, whole: &Box5) -> bool
    requires { AreAscending cuts.now }
    ensures { IsTrue result ↔ (IsSideAligned cuts.now.p part.now.p whole.now.p
        × IsSideAligned cuts.now.q part.now.q whole.now.q) }
{
    is_side_aligned16(cuts.of_p(), part.p, whole.p)
        && is_side_aligned16(cuts.of_q(), part.q, whole.q)
}

/// Whether each side of the part begins at a cut or where that side of the whole begins, and ends
/// before a cut or where that side of the whole ends. The lists of cuts are ascending and without
/// repeats.
pub fn aligned(cuts: &Cuts, part: &Box5, whole: &Box5) -> bool
    requires { AreAscending cuts.now }
    ensures { IsTrue result ↔ IsAligned cuts.now part.now whole.now }
{
    is_side_aligned8(cuts.of_protocols(), part.proto, whole.proto)
        && (are_addresses_aligned(cuts.of_addresses(), part, whole)
            && are_ports_aligned(cuts, part, whole))
}
