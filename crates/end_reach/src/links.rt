// The networks that aren't described among the starts of a question.
ghost use Rattle.std.specs.Prelude.{◌≡◌, IfOk, filter};
ghost use Rattle.listing_text.specs.Outside.{sources_of};
ghost use Rattle.end_reach.specs.Asked.{is_far_start, links_of};

use crate::starts::is_far_start;
use listing_text::sources_of;
use query_words::ReachQuery;
use reference_check::Network;
use std::alloc::Global;
use vpc_base::NoMemory;
use vpc_model::{End, FarNo};

// Leaves out the goal.
fn keep_starts(links: &mut Vec<FarNo>, goal: Option<End>)
    ensures { links.new.items ≡ filter (is_far_start goal) links.old.items }
{
    links.retain(|far| is_far_start(goal, *far));
}

// Those that connections are opened from, without the goal.
fn all_links(alloc: Global, n: &Network, goal: Option<End>) -> Result<Vec<FarNo>, NoMemory>
    ensures { IfOk result (λ v. v.items ≡ filter (is_far_start goal) (sources_of n.now)) }
{
    let mut links = sources_of(alloc, n)?;
    keep_starts(&mut links, goal);
    Ok(links)
}

/// Behind which networks one is taken to lie that isn't described: those among the starts, where none is given. A reply to a
/// request that came in by one of them, as a VPN connection, may arrive by another.
pub fn links_of(alloc: Global, n: &Network, query: &ReachQuery) -> Result<Vec<FarNo>, NoMemory>
    ensures { IfOk result (λ v. v.items ≡ links_of n.now query.now) }
{
    match query.start {
        Some(_) => Ok(Vec::new(alloc)),
        None => all_links(alloc, n, query.goal),
    }
}
