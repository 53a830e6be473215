// What `diff` answers.
ghost use Rattle.std.specs.Prelude.{◌≡◌, ◌↔◌, ◌≤◌, IfOk, IsTrue, length, map, nat_lt, string_bytes};
ghost use Rattle.listing_text.specs.Answered.{host_limit};
ghost use Rattle.change_report.specs.Answered.{CanBeTold, IsAnswerTo, IsDiffAnswered, IsPrinted, IsToldUnlessTooMany, IsTooMany};
ghost use Rattle.changed_ends.specs.Asked.{comparison, hosts_of_either};

use crate::between::{Comparing, answer_between};
use crate::bodies::{Body, body_of};
use crate::gathered::Asked;
use changed_ends::{Compared, changed_id, hosts_of_either, starts_of, targets_of};
use command_job::{Answer, Status, answer_line, refuse_query};
use listing_text::{Listing, answer_part, answer_whole, is_many, status_by};
use query_words::{ChangeQuery, read_change_query};
use reference_check::Network;
use std::alloc::Global;
use std::mem;
use vpc_base::NoMemory;

// ---- texts

// The answer with these lines.
fn answer_body(
    alloc: Global,
    compared: &Compared,
    words: &[String],
    body: &Body,
) -> Result<Answer, NoMemory>
    requires { 3 ≤ length words.now }
    ensures { IfOk result (λ a. IsPrinted compared.now (map string_bytes words.now)
        body.now.text.items body.now.count body.now.next a.status a.text.items) }
{
    let lines = body.text.as_slice();
    match body.next {
        None => {
            let status = status_by(Status::No, Status::Yes, body.count);
            let listing = Listing {
                first: b"vpc-diff 1",
                words,
                before: 3,
                lines,
            };
            answer_whole(alloc, &listing, body.count, status)
        }
        Some((start, next)) => {
            let id = changed_id(compared.before(), compared.after(), &start);
            let listing = Listing {
                first: b"more changes",
                words,
                before: 3,
                lines,
            };
            answer_part(alloc, &listing, id, &next)
        }
    }
}

// ---- two networks

fn answer_asked(alloc: Global, asked: &Asked, words: &[String]) -> Result<Answer, NoMemory>
    requires { CanBeTold asked.now.compared words.now }
    ensures { IfOk result (λ a.
        IsAnswerTo asked.now.compared (map string_bytes words.now) a.status a.text.items) }
{
    let compared = &asked.compared;
    let query = compared.query();
    let before = compared.before();
    let after = compared.after();
    let targets = targets_of(alloc, before, after, query.pairs.dst, query.goal)?;
    let starts = starts_of(
        alloc,
        before,
        after,
        query.pairs.src,
        query.start,
        query.goal,
    )?;
    let body = body_of(alloc, asked, targets.as_slice(), starts.as_slice())?;
    answer_body(alloc, compared, words, &body)
}

// The words that gave a query.
#[derive(Drop)]
struct Printing<'a> {
    words: &'a [String],
}

impl<'a> Comparing for Printing<'a> {
    ghost use Rattle.std.specs.Prelude.{map, string_bytes};
    ghost use Rattle.change_report.specs.Answered.{CanBeTold, IsAnswerTo};

    ghost fits = { λ j c. CanBeTold c j.words.now };

    ghost answers = { λ j c. IsAnswerTo c (map string_bytes j.words.now) };

    fn answer_asked(&self, alloc: Global, asked: &Asked) -> Result<Answer, NoMemory> {
        answer_asked(alloc, asked, self.words)
    }
}

// ---- the words

// That the two networks have more hosts than it is asked from where no end is given.
fn have_many_hosts(alloc: Global, before: &Network, after: &Network) -> Result<bool, NoMemory>
    ensures { IfOk result (λ many.
        many ≡ nat_lt host_limit (length (hosts_of_either before.now after.now))) }
{
    let hosts = hosts_of_either(alloc, before, after)?;
    Ok(is_many(hosts.len()))
}

/// Whether no end is given and the two networks have more than 500 hosts.
pub fn is_too_many(
    alloc: Global,
    before: &Network,
    after: &Network,
    query: &ChangeQuery,
) -> Result<bool, NoMemory>
    ensures { IfOk result (λ many. IsTrue many ↔ IsTooMany (comparison before.now after.now query.now)) }
{
    match (query.start, query.goal) {
        (None, None) => have_many_hosts(alloc, before, after),
        (Some(_), _) => Ok(false),
        (None, Some(_)) => Ok(false),
    }
}

// What is told of the query that the words give.
fn tell(
    alloc: Global,
    before: Network,
    after: Network,
    query: &ChangeQuery,
    words: &[String],
) -> Result<Answer, NoMemory>
    requires { CanBeTold (comparison before after query.now) words.now }
    ensures { IfOk result (λ a. IsToldUnlessTooMany
        (comparison before after query.now) (map string_bytes words.now) a.status a.text.items) }
{
    match is_too_many(alloc, &before, &after, query) {
        Ok(false) => answer_between(alloc, before, after, query, &Printing { words }),
        Ok(true) => {
            mem::forget(before);
            mem::forget(after);
            answer_line(alloc, Status::Query, b"refused diff TooManyInterfaces")
        }
        Err(no_memory) => {
            mem::forget(before);
            mem::forget(after);
            Err(no_memory)
        }
    }
}

/// What a change opens and closes of the requests that the words ask for.
pub fn diff(
    alloc: Global,
    before: Network,
    after: Network,
    words: &[String],
) -> Result<Answer, NoMemory>
    requires { 3 ≤ length words.now }
    ensures { IfOk result (λ a.
        IsDiffAnswered before after (map string_bytes words.now) a.status a.text.items) }
{
    match read_change_query(alloc, &before, &after, words) {
        Ok(query) => tell(alloc, before, after, &query, words),
        Err(refusal) => {
            mem::forget(before);
            mem::forget(after);
            refuse_query(alloc, &refusal)
        }
    }
}
