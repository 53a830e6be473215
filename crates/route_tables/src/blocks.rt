// The blocks of routes.
ghost use Rattle.std.specs.Prelude.{◌≡◌, ◌<◌};
ghost use Rattle.prefix_text.specs.Block.{IsBlock};
ghost use Rattle.vpc_model.specs.Cuts.{blocks_of_reach};
ghost use Rattle.vpc_model.specs.Routes.{is_local, kind_of};

use prefix_text::Prefix;
use reference_check::Network;
use std::slice::from_ref;
use vpc_model::{Reach, Route, Target};

/// The block of a route, or the entries of its prefix list.
pub fn blocks_of<'a>(n: &'a Network, reach: &'a Reach) -> &'a [Prefix]
    ensures { result.now ≡ blocks_of_reach n.now reach.now }
{
    match reach {
        Reach::Block(block) => from_ref(block),
        Reach::List(id) => n.entries(id.bytes()),
    }
}

/// Whether it is the local route of a VPC.
pub fn is_local(target: &Target) -> bool
    ensures { result ≡ is_local target.now }
{
    matches!(target, Target::Local)
}

/// By what kind routes of equal length are told apart: a block comes before a prefix list, and propagated
/// routes come last.
pub fn kind_of(route: &Route) -> u8
    ensures kind { result ≡ kind_of route.now }
    ensures few { result < 3 }
{
    if route.propagated {
        return 2;
    }
    match &route.reach {
        Reach::Block(_) => 0,
        Reach::List(_) => 1,
    }
}

/// What is so of each prefix. It does nothing.
pub fn is_block(block: &Prefix)
    ensures { IsBlock block.now }
{
    let _first = block.first();
}
