// Which request of a query needs a rule.
ghost use Rattle.std.specs.Prelude.{◌≡◌, IfOk, IfSome, IsTrue};
ghost use Rattle.box_walk.specs.Asking.{asked, asked_by, homes_by};
ghost use Rattle.header_boxes.specs.Boxes.{IsValid};
ghost use Rattle.header_boxes.specs.Rows.{IsFirst, NoneThrough};
ghost use Rattle.vpc_model.specs.Appliances.{appliances_of};
ghost use Rattle.unused_rules.specs.Chunks.{ChunkDecidesNothing, IsIdle, without_chunk};
ghost use Rattle.unused_rules.specs.Concerned.{DecidesWithin, IsFirstIn, IsFirstOf};
ghost use Rattle.unused_rules.specs.Needed.{IsAskedIn, IsNeed};
ghost use Rattle.unused_rules.specs.Probe.{agreement_of};
ghost use Rattle.unused_rules.specs.Without.{without};

use crate::chunks::{Chunk, chunk_from, is_of};
use crate::concerned::{Concerned, answered_box, asked_box, first_of, kept_filter, part_before};
use crate::probe::AgreementProbe;
use crate::removal::{network_without, network_without_chunk};
use crate::rules::RuleName;
use appliances::Deciders;
use box_walk::RoundProbe;
use fabric::Fabric;
use header_boxes::Box5;
use ordered_cover::Searched;
use ordered_cover::search::{first, first_within};
use query_words::Query;
use reference_check::Network;
use std::alloc::Global;
use vpc_base::{Header, NoMemory};

// How many parts are asked of for a chunk: where there are more, its rules are asked about one by one, each for the parts that
// concern it.
const MOST_PARTS: u32 = 4096;

/// A network as it is, and a query of it: what becomes of the requests without a rule is compared with this.
#[derive(Drop)]
pub(crate) struct Baseline<'a> {
    pub fabric: &'a Fabric,
    deciders: &'a Deciders,
    query: &'a Query,
    /// The walks of the query's requests.
    before: RoundProbe<'a>,
    ghost described: { deciders.now.appliances ≡ appliances_of fabric.now },
    ghost known: { IsAskedIn fabric.now query.now },
    ghost same_way: { asked_by before.fabric.now
        (homes_by before.links.now before.start) before.goal
        ≡ asked fabric.now query.now.start query.now.goal },
}

impl<'a> Baseline<'a> {
    /// It serves all rules.
    pub fn of(f: &'a Fabric, deciders: &'a Deciders, query: &'a Query) -> Baseline<'a>
        requires appliances { deciders.now.appliances ≡ appliances_of f.now }
        requires query { IsAskedIn f.now query.now }
        ensures network { result.fabric.now ≡ f.now }
        ensures query { result.query.now ≡ query.now }
    {
        let mut before = RoundProbe::of(f, deciders, query.start, query.goal);
        before.look_ahead(&query.sides);
        Baseline {
            fabric: f,
            deciders,
            query,
            before,
        }
    }
}

fn fabric_without(alloc: Global, n: &Network, rule: &RuleName) -> Result<Fabric, NoMemory>
    ensures { IfOk result (λ f. f ≡ without n.now rule.now) }
{
    Fabric::of(alloc, network_without(alloc, n, rule)?)
}

fn fabric_without_chunk(alloc: Global, n: &Network, c: &Chunk) -> Result<Fabric, NoMemory>
    ensures { IfOk result (λ f. f ≡ without_chunk n.now c.now) }
{
    Fabric::of(alloc, network_without_chunk(alloc, n, c)?)
}

// The first request of which something else becomes in the second network.
fn first_apart(
    alloc: Global,
    before: &RoundProbe,
    after: &RoundProbe,
    sides: Box5,
) -> Result<Option<Header>, NoMemory>
    requires { IsValid sides }
    ensures { IfOk result (IsFirst (agreement_of
        (asked_by before.now.fabric.now
        (homes_by before.now.links.now before.now.start) before.now.goal)
        (asked_by after.now.fabric.now
        (homes_by after.now.links.now after.now.start) after.now.goal)) sides) }
{
    first(alloc, &AgreementProbe::of(before, after), sides)
}

// The parts of the query outside which a rule decides nothing.
fn concerned(base: &Baseline, rule: &RuleName) -> Concerned
    ensures { DecidesWithin base.now.fabric.now rule.now base.now.query.now result }
{
    let sides = base.query.sides;
    match kept_filter(base.fabric.network().description(), &sides, rule) {
        None => Concerned {
            asked: Some(sides),
            answered: None,
        },
        Some(f) => Concerned {
            asked: sides.meet(&asked_box(&sides, &f)),
            answered: sides.meet(&answered_box(&sides, &f)),
        },
    }
}

fn first_in(
    alloc: Global,
    before: &RoundProbe,
    after: &RoundProbe,
    part: Option<Box5>,
) -> Result<Option<Header>, NoMemory>
    requires { IfSome part IsValid }
    ensures { IfOk result (IsFirstIn (agreement_of
        (asked_by before.now.fabric.now
        (homes_by before.now.links.now before.now.start) before.now.goal)
        (asked_by after.now.fabric.now
        (homes_by after.now.links.now after.now.start) after.now.goal)) part) }
{
    match part {
        None => Ok(None),
        Some(sides) => first_apart(alloc, before, after, sides),
    }
}

fn first_of_parts(
    alloc: Global,
    before: &RoundProbe,
    after: &RoundProbe,
    parts: &Concerned,
) -> Result<Option<Header>, NoMemory>
    requires asked { IfSome parts.now.asked IsValid }
    requires answered { IfSome parts.now.answered IsValid }
    ensures { IfOk result (IsFirstOf (agreement_of
        (asked_by before.now.fabric.now
        (homes_by before.now.links.now before.now.start) before.now.goal)
        (asked_by after.now.fabric.now
        (homes_by after.now.links.now after.now.start) after.now.goal)) parts.now) }
{
    let one = first_in(alloc, before, after, parts.asked)?;
    let rest = part_before(parts.answered, one);
    let other = first_in(alloc, before, after, rest)?;
    Ok(first_of(one, other))
}

// What `needed` tells, by parts of the query outside which the rule decides nothing.
fn needed_in(
    alloc: Global,
    base: &Baseline,
    rule: &RuleName,
    parts: &Concerned,
) -> Result<Option<Header>, NoMemory>
    requires { DecidesWithin base.now.fabric.now rule.now base.now.query.now parts.now }
    ensures { IfOk result (IsNeed base.now.fabric.now rule.now base.now.query.now) }
{
    let fabric = fabric_without(alloc, base.fabric.network(), rule)?;
    let query = base.query;
    let mut after = RoundProbe::of(&fabric, base.deciders, query.start, query.goal);
    after.look_ahead(&query.sides);
    first_of_parts(alloc, &base.before, &after, parts)
}

/// What `needed` tells, by a baseline: the first request of its query that has another verdict without the rule.
pub(crate) fn needed_by(
    alloc: Global,
    base: &Baseline,
    rule: &RuleName,
) -> Result<Option<Header>, NoMemory>
    ensures { IfOk result (IsNeed base.now.fabric.now rule.now base.now.query.now) }
{
    let parts = concerned(base, rule);
    if parts.is_empty() {
        Ok(None)
    } else {
        needed_in(alloc, base, rule, &parts)
    }
}

// Whether the same becomes of all requests in both networks, as far as a search of some parts tells.
fn are_alike(
    alloc: Global,
    before: &RoundProbe,
    after: &RoundProbe,
    sides: Box5,
) -> Result<bool, NoMemory>
    requires { IsValid sides }
    ensures { IfOk result (λ alike. IsTrue alike → NoneThrough (agreement_of
        (asked_by before.now.fabric.now
        (homes_by before.now.links.now before.now.start) before.now.goal)
        (asked_by after.now.fabric.now
        (homes_by after.now.links.now after.now.start) after.now.goal)) sides) }
{
    match first_within(alloc, &AgreementProbe::of(before, after), sides, MOST_PARTS)? {
        Searched::Blocked => Ok(true),
        Searched::Found(_) => Ok(false),
        Searched::Unfinished => Ok(false),
    }
}

// Whether no request of the query has another verdict without the chunk, as far as a search of some parts tells.
fn decides_nothing(alloc: Global, base: &Baseline, c: &Chunk) -> Result<bool, NoMemory>
    ensures { IfOk result (λ idle.
        IsTrue idle → ChunkDecidesNothing base.now.fabric.now c.now base.now.query.now) }
{
    let fabric = fabric_without_chunk(alloc, base.fabric.network(), c)?;
    let query = base.query;
    let mut after = RoundProbe::of(&fabric, base.deciders, query.start, query.goal);
    after.look_ahead(&query.sides);
    are_alike(alloc, &base.before, &after, query.sides)
}

// The chunk, if there is one and it decides nothing.
fn idle_only(
    alloc: Global,
    base: &Baseline,
    chunk: Option<Chunk>,
) -> Result<Option<Chunk>, NoMemory>
    ensures { IfOk result (IsIdle base.now.fabric.now base.now.query.now) }
{
    match chunk {
        None => Ok(None),
        Some(c) => {
            if decides_nothing(alloc, base, &c)? {
                Ok(Some(c))
            } else {
                Ok(None)
            }
        }
    }
}

/// The chunk that decides nothing where a rule's turn comes, if there is one: that of the rules before it while it lasts, and
/// else the one that the rule begins.
pub(crate) fn idle_at(
    alloc: Global,
    base: &Baseline,
    rule: &RuleName,
    idle: Option<Chunk>,
) -> Result<Option<Chunk>, NoMemory>
    requires idle { IsIdle base.now.fabric.now base.now.query.now idle }
    ensures { IfOk result (IsIdle base.now.fabric.now base.now.query.now) }
{
    if is_of(&idle, rule) {
        Ok(idle)
    } else {
        let chunk = chunk_from(base.fabric.network().description(), rule);
        idle_only(alloc, base, chunk)
    }
}

/// What `needed_by` tells, where a chunk is known to decide nothing: no rule of it is asked about, since none of them decides
/// anything.
pub(crate) fn needed_at(
    alloc: Global,
    base: &Baseline,
    rule: &RuleName,
    idle: &Option<Chunk>,
) -> Result<Option<Header>, NoMemory>
    requires idle { IsIdle base.now.fabric.now base.now.query.now idle.now }
    ensures { IfOk result (IsNeed base.now.fabric.now rule.now base.now.query.now) }
{
    if is_of(idle, rule) {
        Ok(None)
    } else {
        needed_by(alloc, base, rule)
    }
}

/// The first request of the query whose verdict is another value without the rule, if there is one: something else stops
/// it or its reply, or it gets through in one case alone. It takes time for each part on which requests take one walk in
/// both networks, of those that the rule may match by protocol and q, or whose replies it may (of all requests, where the
/// network has a NAT gateway), beside that of a `Fabric`. Fails for want of memory alone.
pub fn needed(
    alloc: Global,
    f: &Fabric,
    deciders: &Deciders,
    query: &Query,
    rule: &RuleName,
) -> Result<Option<Header>, NoMemory>
    requires appliances { deciders.now.appliances ≡ appliances_of f.now }
    requires query { IsAskedIn f.now query.now }
    ensures { IfOk result (IsNeed f.now rule.now query.now) }
{
    needed_by(alloc, &Baseline::of(f, deciders, query), rule)
}
