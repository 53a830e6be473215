// Links that a question about two networks takes for links to one network.
ghost use Rattle.std.specs.Prelude.{◌≡◌, IfOk};
ghost use Rattle.changed_ends.specs.Asked.{comparison};
ghost use Rattle.changed_ends.specs.Links.{far_of, fars_after, fars_before, links_after, links_before, outside_starts};

use crate::outside::unordered;
use crate::starts::add_outside;
use query_words::{ChangeQuery, ChangedEnd};
use reference_check::Network;
use std::alloc::Global;
use vpc_base::NoMemory;
use vpc_model::{End, FarNo};

/// The networks that aren't described among the starts of a question about two networks, by their rows in each: what leads
/// to them is taken to lead to one network, so that replies may come back by each of them.
#[derive(Drop)]
pub struct Links {
    pub before: Vec<FarNo>,
    pub after: Vec<FarNo>,
}

fn far_of(end: Option<End>) -> Option<FarNo>
    ensures { result ≡ far_of end }
{
    match end {
        Some(End::Far(k)) => Some(k),
        _ => None,
    }
}

// What ends are in the first network.
fn fars_before(alloc: Global, starts: &[ChangedEnd]) -> Result<Vec<FarNo>, NoMemory>
    ensures { IfOk result (λ v. v.items ≡ fars_before starts.now) }
{
    let mut links = Vec::new(alloc);
    for start in starts {
        if let Some(k) = far_of(start.before) {
            links.push(k)?;
        }
    }
    Ok(links)
}

// What they are in the second one.
fn fars_after(alloc: Global, starts: &[ChangedEnd]) -> Result<Vec<FarNo>, NoMemory>
    ensures { IfOk result (λ v. v.items ≡ fars_after starts.now) }
{
    let mut links = Vec::new(alloc);
    for start in starts {
        if let Some(k) = far_of(start.after) {
            links.push(k)?;
        }
    }
    Ok(links)
}

// The networks of either description from which requests start, without the goal.
fn outside_starts(
    alloc: Global,
    before: &Network,
    after: &Network,
    goal: Option<ChangedEnd>,
) -> Result<Vec<ChangedEnd>, NoMemory>
    ensures { IfOk result (λ v. v.items ≡ outside_starts before.now after.now goal) }
{
    let outside = unordered(alloc, before, after)?;
    let mut starts = Vec::new(alloc);
    add_outside(&mut starts, goal, outside.as_slice())?;
    Ok(starts)
}

// What the starts are in each network.
fn links_among(alloc: Global, starts: &[ChangedEnd]) -> Result<Links, NoMemory>
    ensures before { IfOk result (λ l. l.before.items ≡ fars_before starts.now) }
    ensures after { IfOk result (λ l. l.after.items ≡ fars_after starts.now) }
{
    let before = fars_before(alloc, starts)?;
    let after = fars_after(alloc, starts)?;
    Ok(Links { before, after })
}

// Those of all starts.
fn all_links(
    alloc: Global,
    before: &Network,
    after: &Network,
    goal: Option<ChangedEnd>,
) -> Result<Links, NoMemory>
    ensures before { IfOk result (λ l.
        l.before.items ≡ fars_before (outside_starts before.now after.now goal)) }
    ensures after { IfOk result (λ l.
        l.after.items ≡ fars_after (outside_starts before.now after.now goal)) }
{
    let starts = outside_starts(alloc, before, after, goal)?;
    links_among(alloc, starts.as_slice())
}

/// The links of a query: none where it gives a start, as replies come back to where its requests came in. It takes time
/// n log n.
pub fn links_of(
    alloc: Global,
    before: &Network,
    after: &Network,
    query: &ChangeQuery,
) -> Result<Links, NoMemory>
    ensures before { IfOk result (λ l.
        l.before.items ≡ links_before (comparison before.now after.now query.now)) }
    ensures after { IfOk result (λ l.
        l.after.items ≡ links_after (comparison before.now after.now query.now)) }
{
    match query.start {
        None => all_links(alloc, before, after, query.goal),
        Some(_) => Ok(Links {
            before: Vec::new(alloc),
            after: Vec::new(alloc),
        }),
    }
}
