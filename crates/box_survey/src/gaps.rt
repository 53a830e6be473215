// What is asked of headers that lie in no box.
ghost use Rattle.std.specs.Prelude.{◌≡◌, IfOk, true};
ghost use Rattle.box_survey.specs.Survey.{IsFirstMattering, IsHeldIn};
ghost use Rattle.header_boxes.specs.Boxes.{IsValid};

use header_boxes::Box5;
use std::alloc::Global;
use vpc_base::{Header, NoMemory};

/// What is asked of headers that lie in no box.
pub trait Gaps {
    ghost use Rattle.header_boxes.specs.Boxes.{holds};
    ghost use Rattle.vpc_base.specs.declared.headers.Header.{Header};

    /// That it matters where the header lies in no box.
    ghost matters: { Self → Header → Type 0 };

    /// A box that holds all headers that matter.
    fn hull(&self) -> Box5
        ensures valid { IsValid result }
        ensures holds { (h : Header) → matters self.now h → holds h result ≡ true };

    /// The first header of a box that matters, if one does. A survey asks this of boxes that share no header with those
    /// that are surveyed, each once.
    fn first_in(&self, alloc: Global, gap: &Box5) -> Result<Option<Header>, NoMemory>
        requires { IsValid gap.now }
        ensures { IfOk result (IsFirstMattering (matters self.now) gap.now) };
}

/// Gaps in a whole box, of which every header matters.
#[derive(Clone, Copy)]
pub struct WholeBox {
    sides: Box5,
    ghost valid: { IsValid sides },
}

impl WholeBox {
    /// The gaps in these sides.
    pub fn of(sides: Box5) -> WholeBox
        requires { IsValid sides }
        ensures { result.sides ≡ sides }
    {
        WholeBox { sides }
    }
}

// The first header of the sides in a gap.
fn first_common(sides: &Box5, gap: &Box5) -> Option<Header>
    ensures { IsFirstMattering (IsHeldIn sides.now) gap.now result }
{
    match sides.meet(gap) {
        None => None,
        Some(common) => Some(common.low()),
    }
}

impl Gaps for WholeBox {
    ghost use Rattle.box_survey.specs.Survey.{IsHeldIn};

    ghost matters = { λ w. IsHeldIn w.sides };

    fn hull(&self) -> Box5 {
        self.sides
    }

    fn first_in(&self, _alloc: Global, gap: &Box5) -> Result<Option<Header>, NoMemory> {
        Ok(first_common(&self.sides, gap))
    }
}
