// Boxes ordered by their low corners.
ghost use Rattle.std.specs.Prelude.{◌≡◌};
ghost use Rattle.std.specs.Prelude.{refl};
ghost use Rattle.std.specs.Cmp.{eq_by_cmp_equiv, partial_equiv_from_equiv, partial_order_from_total};
ghost use Rattle.std.specs.Ordering.{as_partial_cmp, eq_by_cmp};
ghost use Rattle.header_boxes.specs.Boxes.{low_of};
ghost use Rattle.ordered_cover.specs.Corner.{later_first, later_first_total};

use header_boxes::Box5;
use std::cmp::Ordering;
use vpc_base::Header;

/// A box that is the greater, the earlier its low corner comes, so that a heap gives the earliest first.
#[derive(Clone, Copy)]
pub struct ByCorner {
    pub part: Box5,
}

// A comparison has no conditions, so this reads the low corner of any box, also of one that isn't valid.
pub(crate) fn corner(b: &Box5) -> Header
    ensures { result ≡ low_of b.now }
{
    Header {
        proto: b.proto.0,
        src: b.src.0,
        dst: b.dst.0,
        p: b.p.0,
        q: b.q.0,
    }
}

impl Ord for ByCorner {
    ghost cmp = { later_first };

    ghost total = { later_first_total };

    ghost matches_partial_cmp = { λ a b. refl };

    ghost matches_eq = { λ a b. refl };

    fn cmp(&self, other: &ByCorner) -> Ordering {
        corner(&other.part).order(&corner(&self.part))
    }
}

impl PartialOrd for ByCorner {
    ghost partial_cmp = { as_partial_cmp later_first };

    ghost laws = { partial_order_from_total later_first_total };

    fn partial_cmp(&self, other: &ByCorner) -> Option<Ordering> {
        Some(self.cmp(other))
    }
}

impl PartialEq for ByCorner {
    ghost eq = { eq_by_cmp later_first };

    ghost laws = { partial_equiv_from_equiv (eq_by_cmp_equiv later_first_total) };

    fn eq(&self, other: &ByCorner) -> bool {
        matches!(self.cmp(other), Ordering::Equal)
    }
}

impl Eq for ByCorner {
    ghost laws = { eq_by_cmp_equiv later_first_total };
}
