// What was found in the cells that were looked at.
ghost use Rattle.std.specs.Prelude.{◌≡◌, ◌≤◌, ◌⊎◌, IsTrue, IfSome, Some, IsSomeAnd};
ghost use Rattle.std.specs.Prelude.{◌↔◌};
ghost use Rattle.vpc_base.specs.Header.{IsBefore};
ghost use Rattle.header_boxes.specs.Boxes.{IsValid};
ghost use Rattle.box_survey.specs.Findings.{IsPast};

use header_boxes::Box5;
use vpc_base::Header;

/// The least number of a box that shares a header with a later one, and, while none is found, the first
/// header that matters and is in no box.
#[derive(Clone, Copy)]
pub struct Findings {
    pub least: Option<u32>,
    pub outside: Option<Header>,
}

/// The first of a header and that which was found before, if one was.
pub fn earlier(found: Option<Header>, h: Header) -> Header
    ensures either { (result ≡ h) ⊎ (found ≡ Some result) }
    ensures upto_new { ¬ IsBefore h result }
    ensures upto_found { IfSome found (λ g. ¬ IsBefore g result) }
{
    match found {
        None => h,
        Some(g) => { if g.order(&h).is_lt() { g } else { h } }
    }
}

impl Findings {
    /// Whether an overlap is found of a box whose number is at most this one.
    pub fn has_up_to(&self, number: u32) -> bool
        ensures { IsTrue result ↔ IsSomeAnd self.now.least (λ k. k ≤ number) }
    {
        match self.least {
            None => false,
            Some(least) => least <= number,
        }
    }

    /// Whether an uncovered header is found that none of the cell comes before.
    pub fn is_past(&self, cell: &Box5) -> bool
        requires { IsValid cell.now }
        ensures { IsTrue result → IsPast self.now cell.now }
    {
        match self.outside {
            None => false,
            Some(h) => !cell.low().order(&h).is_lt(),
        }
    }

    /// One more number of a box that shares a header with a later one.
    pub fn add_overlap(&mut self, number: u32)
        ensures least { IsSomeAnd self.new.least
            (λ k. (k ≤ number) × ((k ≡ number) ⊎ (self.old.least ≡ Some k))) }
        ensures upto_found { IfSome self.old.least (λ i. IsSomeAnd self.new.least (λ k. k ≤ i)) }
        ensures outside { self.new.outside ≡ self.old.outside }
    {
        self.least = Some(match self.least {
            None => number,
            Some(least) => least.min(number),
        });
    }

    /// One more header that matters and is in no box.
    pub fn add_uncovered(&mut self, h: Header)
        ensures least { self.new.least ≡ self.old.least }
        ensures outside { IsSomeAnd self.new.outside
            (λ k. (¬ IsBefore h k) × ((k ≡ h) ⊎ (self.old.outside ≡ Some k))) }
        ensures upto_found { IfSome self.old.outside (λ g. IsSomeAnd self.new.outside (λ k. ¬ IsBefore g k)) }
    {
        self.outside = Some(earlier(self.outside, h));
    }
}
