// The sides of a query, and what is meant where pairs are left out.
ghost use Rattle.std.specs.Prelude.{◌≡◌, IfOk, IfSome, IsTrue};
ghost use Rattle.header_boxes.specs.Boxes.{IsValid};
ghost use Rattle.vpc_model.specs.Sound.{is_end};
ghost use Rattle.query_words.specs.Ends.{AreDescribed};
ghost use Rattle.query_words.specs.Pairs.{AreTaken, IsSide};
ghost use Rattle.query_words.specs.Refusal.{Answers};
ghost use Rattle.query_words.specs.Sides.{dst_of, own_goal, own_side, primary_side, sides_of, src_of};

use crate::QueryRefusal;
use crate::ends::Ends;
use crate::pairs::Pairs;
use header_boxes::Box5;
use reference_check::Network;
use std::alloc::Global;
use vpc_model::{End, Interface};

fn primary_side(alloc: Global, e: &Interface) -> Result<(u32, u32), QueryRefusal>
    ensures answer { Answers (primary_side e.now e.now.primary) result }
    ensures some { IfOk result IsSide }
{
    match e.primary {
        Some(address) => Ok((address, address)),
        None => Err(QueryRefusal::NoAddress(e.id.copied(alloc)?)),
    }
}

// The addresses that are meant at an end.
fn own_side(alloc: Global, n: &Network, end: End) -> Result<(u32, u32), QueryRefusal>
    requires { IsTrue (is_end n.now end) }
    ensures answer { Answers (own_side n.now end) result }
    ensures some { IfOk result IsSide }
{
    match end {
        End::Interface(eni) => primary_side(alloc, n.interface_at(eni)),
        End::Internet | End::Far(_) => Ok((0, u32::MAX)),
    }
}

pub(crate) fn src_of(
    alloc: Global,
    n: &Network,
    start: End,
    given: Option<(u32, u32)>,
) -> Result<(u32, u32), QueryRefusal>
    requires described { IsTrue (is_end n.now start) }
    requires given { IfSome given IsSide }
    ensures answer { Answers (src_of n.now start given) result }
    ensures some { IfOk result IsSide }
{
    match given {
        Some(side) => Ok(side),
        None => own_side(alloc, n, start),
    }
}

// A packet from the internet goes to a public address, of which an interface may have several, and one from
// another network to any of its addresses.
fn own_goal(alloc: Global, n: &Network, start: End, goal: End) -> Result<(u32, u32), QueryRefusal>
    requires { IsTrue (is_end n.now goal) }
    ensures answer { Answers (own_goal n.now start goal) result }
    ensures some { IfOk result IsSide }
{
    match start {
        End::Interface(_) => own_side(alloc, n, goal),
        End::Internet | End::Far(_) => Ok((0, u32::MAX)),
    }
}

fn dst_of(
    alloc: Global,
    n: &Network,
    ends: &Ends,
    given: Option<(u32, u32)>,
) -> Result<(u32, u32), QueryRefusal>
    requires described { IsTrue (is_end n.now ends.now.goal) }
    requires given { IfSome given IsSide }
    ensures answer { Answers (dst_of n.now ends.now given) result }
    ensures some { IfOk result IsSide }
{
    match given {
        Some(side) => Ok(side),
        None => own_goal(alloc, n, ends.start, ends.goal),
    }
}

/// The headers that a query asks for.
pub(crate) fn sides_of(
    alloc: Global,
    n: &Network,
    ends: &Ends,
    pairs: &Pairs,
) -> Result<Box5, QueryRefusal>
    requires described { AreDescribed n.now ends.now.start ends.now.goal }
    requires taken { AreTaken pairs.now }
    ensures answer { Answers (sides_of n.now ends.now pairs.now) result }
    ensures valid { IfOk result IsValid }
{
    let src = src_of(alloc, n, ends.start, pairs.src)?;
    let dst = dst_of(alloc, n, ends, pairs.dst)?;
    Ok(Box5 {
        proto: (pairs.proto, pairs.proto),
        src,
        dst,
        p: pairs.p,
        q: pairs.q,
    })
}
