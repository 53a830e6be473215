// What a cover asks.
ghost use Rattle.std.specs.Prelude.{◌≡◌, ◌↔◌, IsTrue, Option, true};

use header_boxes::Box5;

/// A question whose answer is a word for each header, or nothing for a header that gets through. The
/// answers change at cuts alone.
pub trait Probe {
    ghost use Rattle.vpc_base.specs.Cuts.{CutLists, AreAmong};
    ghost use Rattle.vpc_base.specs.declared.headers.Header.{Header};
    ghost use Rattle.header_boxes.specs.Boxes.{holds, IsValid, IsWithin, low_of};
    ghost use Rattle.header_boxes.specs.Cells.{IsAligned};

    /// What the probe says of a header that doesn't get through.
    type Word: Copy;

    /// The word of each header; none for a header that gets through.
    ghost meaning: { Self → Header → Option Self.Word };

    /// All cuts.
    ghost cuts: { Self → CutLists };

    /// The cuts that the answer at a header depends on.
    ghost near: { Self → Header → CutLists };

    /// Whether two words are one.
    fn is_same(one: Self::Word, other: Self::Word) -> bool
        ensures { IsTrue result ↔ (one ≡ other) };

    /// One answer for all headers of a part of the sides that holds their least header.
    fn probe(&self, sides: &Box5) -> (Box5, Option<Self::Word>)
        requires { IsValid sides.now }
        ensures within { IsWithin result.0 sides.now }
        ensures low { low_of result.0 ≡ low_of sides.now }
        ensures aligned { IsAligned (near self.now (low_of sides.now)) result.0 sides.now }
        ensures means { (h : Header) → holds h result.0 ≡ true → meaning self.now h ≡ result.1 };

    /// The near cuts are among all cuts.
    ghost near_among: { (p : Self) → (h : Header) → AreAmong (near p h) (cuts p) };
}
