// The answer to a query.
ghost use Rattle.std.specs.Prelude.{◌≡◌, ◌≤◌, ◌<◌, IfOk};
ghost use Rattle.box_walk.specs.Asking.{asked, asked_by, homes_by, word_of};
ghost use Rattle.header_boxes.specs.Rows.{IsFirst, NoneThrough};
ghost use Rattle.ordered_cover.specs.Cover.{IsMore, IsSearched};
ghost use Rattle.vpc_model.specs.Appliances.{appliances_of};
ghost use Rattle.vpc_model.specs.Cuts.{cuts_of};
ghost use Rattle.network_reach.specs.Reached.{IsQueryIn, IsReached, goes_on_in, meaning_in, most_rows};

use appliances::Deciders;
use box_walk::{RoundProbe, ThroughProbe};
use cut_points::cells_in;
use fabric::Fabric;
use header_boxes::Row;
use ordered_cover::search::{cover, first, first_within};
use ordered_cover::{Cover, Grown, Node, Searched, grow};
use query_words::Query;
use std::alloc::Global;
use vpc_base::{Header, NoMemory};
use vpc_model::{Phase, Stop};

// A report of more boxes than so many is a tree.
const MOST_ROWS: u32 = 20_000;

// So many parts are asked of for a header that gets through before rows are made, where rows cost as little.
const FEW_PARTS: u32 = 256;

/// What is known of the requests of a query.
#[derive(Drop)]
pub enum Reached {
    /// The first header that gets through.
    Through(Header),
    /// None gets through: rows that hold all headers.
    Blocked(Vec<Row<(Phase, Stop)>>),
    /// None gets through: a cut tree whose leaves hold all headers, where a report may have more boxes than 20,000.
    Tree(Vec<Node<(Phase, Stop)>>),
    /// None gets through: as many rows as were allowed, the first header outside them, and the number of
    /// cells that the description's cuts make of the query.
    More(Vec<Row<(Phase, Stop)>>, Header, u128),
}

// The first request of a query that gets through, if one does, by the walks between its ends.
fn first_by(
    alloc: Global,
    f: &Fabric,
    round: &RoundProbe,
    query: &Query,
) -> Result<Option<Header>, NoMemory>
    requires query { IsQueryIn f.now query.now }
    requires round { asked_by round.now.fabric.now
        (homes_by round.now.links.now round.now.start) round.now.goal
        ≡ asked f.now query.now.start query.now.goal }
    ensures { IfOk result (IsFirst (meaning_in f.now query.now) query.now.sides) }
{
    first(alloc, &ThroughProbe::of(round), query.sides)
}

// How many parts are asked of for a header that gets through before rows are made. Requests that are sent to one address
// fall into the same parts in both. Of those to many addresses a search doesn't tell apart what misses the goal: it asks
// all of its parts.
fn parts_first(query: &Query) -> u32 {
    if query.sides.dst.0 == query.sides.dst.1 {
        FEW_PARTS
    } else {
        u32::MAX
    }
}

// What a search of these parts tells, without asking what stops the others.
fn glance(
    alloc: Global,
    f: &Fabric,
    round: &RoundProbe,
    query: &Query,
) -> Result<Searched, NoMemory>
    requires query { IsQueryIn f.now query.now }
    requires round { asked_by round.now.fabric.now
        (homes_by round.now.links.now round.now.start) round.now.goal
        ≡ asked f.now query.now.start query.now.goal }
    ensures { IfOk result (IsSearched (meaning_in f.now query.now) query.now.sides) }
{
    first_within(
        alloc,
        &ThroughProbe::of(round),
        query.sides,
        parts_first(query),
    )
}

// The answer where there are more rows than a report may have: what comes after them is searched for a header that
// gets through alone.
fn beyond(
    alloc: Global,
    f: &Fabric,
    round: &RoundProbe,
    query: &Query,
    rows: Vec<Row<(Phase, Stop)>>,
    next: Header,
) -> Result<Reached, NoMemory>
    requires query { IsQueryIn f.now query.now }
    requires round { asked_by round.now.fabric.now
        (homes_by round.now.links.now round.now.start) round.now.goal
        ≡ asked f.now query.now.start query.now.goal }
    requires more { IsMore (goes_on_in query.now)
        (word_of (asked f.now query.now.start query.now.goal)) (cuts_of f.now)
        query.now.sides query.now.max rows.items next }
    ensures { IfOk result (IsReached f.now query.now) }
{
    match first_by(alloc, f, round, query)? {
        Some(h) => Ok(Reached::Through(h)),
        None => {
            let cells = cells_in(alloc, f.network().description(), &query.sides)?;
            Ok(Reached::More(rows, next, cells))
        }
    }
}

// The report of a query of which no request gets through. As many rows are asked for as it may have, and what comes
// after them isn't.
fn blocked_by_rows(
    alloc: Global,
    f: &Fabric,
    round: &RoundProbe,
    query: &Query,
) -> Result<Reached, NoMemory>
    requires query { IsQueryIn f.now query.now }
    requires round { asked_by round.now.fabric.now
        (homes_by round.now.links.now round.now.start) round.now.goal
        ≡ asked f.now query.now.start query.now.goal }
    requires none { NoneThrough (meaning_in f.now query.now) query.now.sides }
    requires few { query.now.max ≤ most_rows }
    ensures { IfOk result (IsReached f.now query.now) }
{
    let d = f.network().description();
    match cover(alloc, round, query.sides, query.max)? {
        Cover::Found(_) => unreachable!(),
        Cover::Blocked(rows) => Ok(Reached::Blocked(rows)),
        Cover::More(rows, next) => {
            let cells = cells_in(alloc, d, &query.sides)?;
            Ok(Reached::More(rows, next, cells))
        }
    }
}

// The same report as a tree, where it may have more boxes than rows.
fn blocked_by_tree(
    alloc: Global,
    f: &Fabric,
    round: &RoundProbe,
    query: &Query,
) -> Result<Reached, NoMemory>
    requires query { IsQueryIn f.now query.now }
    requires round { asked_by round.now.fabric.now
        (homes_by round.now.links.now round.now.start) round.now.goal
        ≡ asked f.now query.now.start query.now.goal }
    requires none { NoneThrough (meaning_in f.now query.now) query.now.sides }
    requires many { most_rows < query.now.max }
    ensures { IfOk result (IsReached f.now query.now) }
{
    let d = f.network().description();
    match grow(alloc, round, query.sides, query.max)? {
        Grown::Found(_) => unreachable!(),
        Grown::Blocked(nodes) => Ok(Reached::Tree(nodes)),
        Grown::More(rows, next) => {
            let cells = cells_in(alloc, d, &query.sides)?;
            Ok(Reached::More(rows, next, cells))
        }
    }
}

// The report of a query of which no request gets through.
fn blocked(
    alloc: Global,
    f: &Fabric,
    round: &RoundProbe,
    query: &Query,
) -> Result<Reached, NoMemory>
    requires query { IsQueryIn f.now query.now }
    requires round { asked_by round.now.fabric.now
        (homes_by round.now.links.now round.now.start) round.now.goal
        ≡ asked f.now query.now.start query.now.goal }
    requires none { NoneThrough (meaning_in f.now query.now) query.now.sides }
    ensures { IfOk result (IsReached f.now query.now) }
{
    if query.max <= MOST_ROWS {
        blocked_by_rows(alloc, f, round, query)
    } else {
        blocked_by_tree(alloc, f, round, query)
    }
}

// The answer by rows, at most as many as a report of rows may have. They are made at once, since they tell whether a header gets through as a search does.
fn by_cover(
    alloc: Global,
    f: &Fabric,
    round: &RoundProbe,
    query: &Query,
) -> Result<Reached, NoMemory>
    requires query { IsQueryIn f.now query.now }
    requires round { asked_by round.now.fabric.now
        (homes_by round.now.links.now round.now.start) round.now.goal
        ≡ asked f.now query.now.start query.now.goal }
    requires few { query.now.max ≤ most_rows }
    ensures { IfOk result (IsReached f.now query.now) }
{
    // That the network is accepted is a clause of this call.
    let _ = f.network().description();
    match cover(alloc, round, query.sides, query.max)? {
        Cover::Found(h) => Ok(Reached::Through(h)),
        Cover::Blocked(rows) => Ok(Reached::Blocked(rows)),
        Cover::More(rows, next) => beyond(alloc, f, round, query, rows, next),
    }
}

// The answer by a tree, where a report may have more boxes than rows.
fn by_tree(
    alloc: Global,
    f: &Fabric,
    round: &RoundProbe,
    query: &Query,
) -> Result<Reached, NoMemory>
    requires query { IsQueryIn f.now query.now }
    requires round { asked_by round.now.fabric.now
        (homes_by round.now.links.now round.now.start) round.now.goal
        ≡ asked f.now query.now.start query.now.goal }
    requires many { most_rows < query.now.max }
    ensures { IfOk result (IsReached f.now query.now) }
{
    // That the network is accepted is a clause of this call.
    let _ = f.network().description();
    match grow(alloc, round, query.sides, query.max)? {
        Grown::Found(h) => Ok(Reached::Through(h)),
        Grown::Blocked(nodes) => Ok(Reached::Tree(nodes)),
        Grown::More(rows, next) => beyond(alloc, f, round, query, rows, next),
    }
}

// The answer where the parts that were asked of tell nothing: the rows of a report, or the leaves of its tree, tell whether a
// header gets through as a search does.
fn by_boxes(
    alloc: Global,
    f: &Fabric,
    round: &RoundProbe,
    query: &Query,
) -> Result<Reached, NoMemory>
    requires query { IsQueryIn f.now query.now }
    requires round { asked_by round.now.fabric.now
        (homes_by round.now.links.now round.now.start) round.now.goal
        ≡ asked f.now query.now.start query.now.goal }
    ensures { IfOk result (IsReached f.now query.now) }
{
    if query.max <= MOST_ROWS {
        by_cover(alloc, f, round, query)
    } else {
        by_tree(alloc, f, round, query)
    }
}

/// Which requests of a query get through, with their replies, or what stops each of them. The first header that gets
/// through is searched for first, by a probe that doesn't tell apart what stops the others: among a few parts where all requests
/// are sent to one address, which answers most questions, else among all. Then rows are made, or a tree where a report may have more than 20,000 boxes. Their number limits the
/// report alone: where there are more, and some parts weren't searched, the search goes over all requests.
///
/// Each part that is asked is as large as the rows on its two walks let it be. Only where rows are left out are
/// the cuts of the description gathered, and those that divide a side of the query sorted. Fails for want of
/// memory alone.
pub fn reach(
    alloc: Global,
    f: &Fabric,
    deciders: &Deciders,
    query: &Query,
) -> Result<Reached, NoMemory>
    requires appliances { deciders.now.appliances ≡ appliances_of f.now }
    requires query { IsQueryIn f.now query.now }
    ensures { IfOk result (IsReached f.now query.now) }
{
    let mut probe = RoundProbe::of(f, deciders, query.start, query.goal);
    probe.look_ahead(&query.sides);
    match glance(alloc, f, &probe, query)? {
        Searched::Found(h) => Ok(Reached::Through(h)),
        Searched::Blocked => blocked(alloc, f, &probe, query),
        Searched::Unfinished => by_boxes(alloc, f, &probe, query),
    }
}

/// The first request of a query that gets through, with its reply, if one does: the same search. Fails for want of
/// memory alone.
pub fn first_through(
    alloc: Global,
    f: &Fabric,
    deciders: &Deciders,
    query: &Query,
) -> Result<Option<Header>, NoMemory>
    requires appliances { deciders.now.appliances ≡ appliances_of f.now }
    requires query { IsQueryIn f.now query.now }
    ensures { IfOk result (IsFirst (meaning_in f.now query.now) query.now.sides) }
{
    let round = RoundProbe::of(f, deciders, query.start, query.goal);
    first_by(alloc, f, &round, query)
}
