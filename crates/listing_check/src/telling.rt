// One request from a start, and the first of which something else is told than a text says.
ghost use Rattle.std.specs.Prelude.{◌≡◌, ◌↔◌, ◌≤◌, All, IfOk, IsTrue, length, option_map};
ghost use Rattle.header_boxes.specs.Boxes.{IsValid, low_of};
ghost use Rattle.listing_check.specs.Asked.{Asked as AskedOf};
ghost use Rattle.listing_check.specs.Looks.{IsLook, IsOther};
ghost use Rattle.report_reader.specs.Reports.{row_limit};
ghost use Rattle.vpc_base.specs.declared.headers.Header.{Header as Packet};

use crate::looks::{Listing, Look, look_at};
use header_boxes::{Box5, Row};
use ordered_cover::Probe;
use ordered_cover::search::first;
use std::alloc::Global;
use vpc_base::{Header, NoMemory, OwnList};

// ---- one request

/// The box of this header alone.
pub fn only(h: &Header) -> Box5
    ensures valid { IsValid result }
    ensures low { low_of result ≡ h.now }
{
    Box5 {
        proto: (h.proto, h.proto),
        src: (h.src, h.src),
        dst: (h.dst, h.dst),
        p: (h.p, h.p),
        q: (h.q, h.q),
    }
}

// ---- requests of a box

/// What is told of the requests from one start, as a text. It changes at cuts alone.
pub trait Telling {
    ghost use Rattle.std.specs.Prelude.{◌≡◌, List, Option, option_map, true, ℕ};
    ghost use Rattle.vpc_base.specs.Cuts.{CutLists, AreAmong};
    ghost use Rattle.vpc_base.specs.declared.headers.Header.{Header};
    ghost use Rattle.header_boxes.specs.Boxes.{holds, IsValid, IsWithin, low_of};
    ghost use Rattle.header_boxes.specs.Cells.{IsAligned};
    ghost use Rattle.listing_check.specs.Agreement.{agreement_of};

    /// The text that is told of a request, if anything is.
    ghost told: { Self → Header → Option (List ℕ) };

    /// All cuts.
    ghost cuts: { Self → CutLists };

    /// The cuts that what is told of a request depends on.
    ghost near: { Self → Header → CutLists };

    /// Whether of all requests of a part of the sides is told what is wanted.
    fn agrees_on(&self, sides: &Box5, wanted: Option<&[u8]>) -> (Box5, Option<()>)
        requires { IsValid sides.now }
        ensures within { IsWithin result.0 sides.now }
        ensures low { low_of result.0 ≡ low_of sides.now }
        ensures aligned { IsAligned (near self.now (low_of sides.now)) result.0 sides.now }
        ensures means { (h : Header) → holds h result.0 ≡ true
            → agreement_of (told self.now) (option_map (λ w. w.now) wanted.entry) h ≡ result.1 };

    /// The near cuts are among all cuts.
    ghost near_among: { (t : Self) → (h : Header) → AreAmong (near t h) (cuts t) };
}

// What gets through here is what something else is told of, or nothing, so that a search finds the first such request.
struct AgreementProbe<'a, T> {
    telling: &'a T,
    wanted: Option<&'a [u8]>,
}

impl<'a, T> Drop for AgreementProbe<'a, T> {
    fn drop(self) {
        let AgreementProbe {
            telling: _,
            wanted: _,
        } = self;
    }
}

impl<'a, T: Telling> Probe for AgreementProbe<'a, T> {
    ghost use Rattle.std.specs.Prelude.{option_map};
    ghost use Rattle.listing_check.specs.Agreement.{agreement_of};

    type Word = ();

    ghost meaning = { λ p. agreement_of (T.told p.telling.now) (option_map (λ w. w.now) p.wanted) };

    ghost cuts = { λ p. T.cuts p.telling.now };

    ghost near = { λ p. T.near p.telling.now };

    ghost near_among = { λ p. T.near_among p.telling.now };

    fn is_same(one: (), other: ()) -> bool
        ensures { IsTrue result ↔ (one ≡ other) }
    {
        true
    }

    fn probe(&self, sides: &Box5) -> (Box5, Option<()>) {
        self.telling.agrees_on(sides, self.wanted)
    }
}

// The first header of a box of which something else is told than what is wanted.
fn first_other<T: Telling>(
    alloc: Global,
    telling: &T,
    part: &Box5,
    wanted: Option<&[u8]>,
) -> Result<Option<Header>, NoMemory>
    requires { IsValid part.now }
    ensures { IfOk result (IsOther (T.told telling.now) (option_map (λ w. w.now) wanted.entry) part.now) }
{
    let probe = AgreementProbe { telling, wanted };
    first(alloc, &probe, *part)
}

// ---- the rows of a start

// The rows of a start, by what is told of its requests.
struct TellingRows<'a, T> {
    telling: &'a T,
}

impl<'a, T> Drop for TellingRows<'a, T> {
    fn drop(self) {
        let TellingRows { telling: _ } = self;
    }
}

impl<'a, T: Telling> Listing for TellingRows<'a, T> {
    ghost told = { λ l. T.told l.telling.now };

    fn first_other(
        &self,
        alloc: Global,
        part: &Box5,
        wanted: Option<&[u8]>,
    ) -> Result<Option<Header>, NoMemory> {
        first_other(alloc, self.telling, part, wanted)
    }
}

/// Looks at the rows of a start by what is told of it, which isn't needed any more.
pub fn look_once<T: Telling + Drop>(
    alloc: Global,
    telling: T,
    boxes: &[Box5],
    rows: &[Row<OwnList<u8>>],
) -> Result<Look, NoMemory>
    requires boxes { All IsValid boxes.now }
    requires rows { All (λ r. IsValid r.part) rows.now }
    requires few { length rows.now ≤ row_limit }
    ensures { (a : AskedOf) → a.boxes ≡ boxes.now → ((h : Packet) → a.told h ≡ T.told telling h)
        → IfOk result (IsLook (record { asked = a; rows = rows.now })) }
{
    let listing = TellingRows { telling: &telling };
    look_at(alloc, &listing, boxes, rows)
}
