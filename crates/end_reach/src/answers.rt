// What `reach` answers.
ghost use Rattle.std.specs.Prelude.{◌≡◌, ◌↔◌, ◌≤◌, IfOk, IfSome, IsTrue, length, map, string_bytes};
ghost use Rattle.vpc_model.specs.Sound.{is_end};
ghost use Rattle.end_reach.specs.Answered.{CanBeTold, IsPrinted, IsReachAnswered, IsToldUnlessTooMany, IsTooMany};

use crate::bodies::{Body, body_of};
use crate::links::links_of;
use crate::sides::{Asked, targets_of};
use crate::starts::starts_of;
use appliances::Deciders;
use block_report::end_id;
use command_job::{Answer, Job, Status, answer_job, answer_line, refuse_query};
use described_hosts::host_count;
use fabric::Fabric;
use listing_text::{Listing, answer_part, answer_whole, is_many, status_by};
use query_words::{ReachQuery, read_reach_query};
use reference_check::Network;
use std::alloc::Global;
use std::mem;
use vpc_base::NoMemory;

// ---- texts

// The answer with these lines.
fn answer_body(
    alloc: Global,
    n: &Network,
    words: &[String],
    body: &Body,
) -> Result<Answer, NoMemory>
    requires words { 2 ≤ length words.now }
    requires start { IfSome body.now.next (λ x. IsTrue (is_end n.now x.0)) }
    ensures { IfOk result (λ a. IsPrinted n.now (map string_bytes words.now)
        body.now.text.items body.now.count body.now.next a.status a.text.items) }
{
    let lines = body.text.as_slice();
    match body.next {
        None => {
            let status = status_by(Status::Yes, Status::No, body.count);
            let listing = Listing {
                first: b"vpc-reach 1",
                words,
                before: 2,
                lines,
            };
            answer_whole(alloc, &listing, body.count, status)
        }
        Some((start, next)) => {
            let id = end_id(n, &start);
            let listing = Listing {
                first: b"more reach",
                words,
                before: 2,
                lines,
            };
            answer_part(alloc, &listing, id, &next)
        }
    }
}

// The requests of a query, and the words that gave it.
#[derive(Drop)]
struct Reaching<'a> {
    query: &'a ReachQuery,
    words: &'a [String],
}

impl<'a> Job for Reaching<'a> {
    ghost use Rattle.std.specs.Prelude.{map, string_bytes};
    ghost use Rattle.end_reach.specs.Answered.{CanBeTold, IsAnswerTo};

    ghost fits = { λ j d. CanBeTold d j.query.now j.words.now };

    ghost answers = { λ j d. IsAnswerTo d j.query.now (map string_bytes j.words.now) };

    fn answer_with(
        &self,
        alloc: Global,
        f: &Fabric,
        deciders: &Deciders,
    ) -> Result<Answer, NoMemory> {
        let query = self.query;
        let n = f.network();
        let targets = targets_of(alloc, n, query.pairs.dst, query.goal)?;
        let starts = starts_of(alloc, n, query.pairs.src, query.start, query.goal)?;
        let links = links_of(alloc, n, query)?;
        let asked = Asked {
            query,
            targets: targets.as_slice(),
            links: links.as_slice(),
        };
        let body = body_of(alloc, f, deciders, &asked, starts.as_slice())?;
        answer_body(alloc, n, self.words, &body)
    }
}

// ---- the words

/// Whether no end is given and the network has more hosts than it is asked from then.
pub fn is_too_many(n: &Network, query: &ReachQuery) -> bool
    ensures { IsTrue result ↔ IsTooMany n.now query.now }
{
    match (query.start, query.goal) {
        (None, None) => is_many(host_count(n)),
        (Some(_), _) => false,
        (None, Some(_)) => false,
    }
}

// What is told of the query that the words give.
fn tell(
    alloc: Global,
    network: Network,
    query: &ReachQuery,
    words: &[String],
) -> Result<Answer, NoMemory>
    requires { CanBeTold network query.now words.now }
    ensures { IfOk result (λ a.
        IsToldUnlessTooMany network query.now (map string_bytes words.now) a.status a.text.items) }
{
    if is_too_many(&network, query) {
        mem::forget(network);
        answer_line(alloc, Status::Query, b"refused reach TooManyInterfaces")
    } else {
        answer_job(alloc, network, &Reaching { query, words })
    }
}

/// What gets through of the requests that the words ask for.
pub fn reach(alloc: Global, network: Network, words: &[String]) -> Result<Answer, NoMemory>
    requires { 2 ≤ length words.now }
    ensures { IfOk result (λ a.
        IsReachAnswered network (map string_bytes words.now) a.status a.text.items) }
{
    match read_reach_query(alloc, &network, words) {
        Ok(query) => tell(alloc, network, &query, words),
        Err(refusal) => {
            mem::forget(network);
            refuse_query(alloc, &refusal)
        }
    }
}
