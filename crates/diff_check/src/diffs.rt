// What `check` answers to what `diff` prints.
ghost use Rattle.std.specs.Prelude.{◌≡◌, ◌≤◌, ◌∷◌, [], Bool, IfOk, IfSome, codes, length, map};
ghost use Rattle.std.specs.Result.{result_ok};
ghost use Rattle.changed_ends.specs.Asked.{comparison};
ghost use Rattle.query_words.specs.ChangeQuery.{AreChangedEnds, change_query_of};
ghost use Rattle.query_words.specs.ReachQuery.{AreReachPairs};
ghost use Rattle.report_reader.specs.Reports.{is_ended, pieces_of};
ghost use Rattle.diff_check.specs.Diffs.{IsCheckedFor, IsDiffChecked, diff_question};
ghost use Rattle.diff_check.specs.Starts.{CanBeCompared, IsAskedChecked, IsQueryChecked};
ghost use Rattle.listing_check.specs.Lines.{all_lines};

use crate::questions::check_starts;
use change_report::{Asked, Comparing, answer_between, is_too_many};
use changed_ends::{starts_of, targets_of};
use command_job::Answer;
use listing_check::{begins_with, later_lines, question_words, refuse_line, unless_memory};
use listing_reader::{Lines, split_lines};
use query_words::{ChangeQuery, read_line_change_query};
use reference_check::Network;
use std::alloc::Global;
use std::mem;
use vpc_base::NoMemory;

// ---- two networks

fn check_asked(
    alloc: Global,
    asked: &Asked,
    ended: bool,
    lines: &[&[u8]],
) -> Result<Answer, NoMemory>
    requires { CanBeCompared asked.now.compared }
    ensures { IfOk result (λ a. IsCheckedFor asked.now.compared
        (map (λ l. l.now) lines.now) ended a.status a.text.items) }
{
    let query = asked.compared.query();
    let before = asked.compared.before();
    let after = asked.compared.after();
    // That the networks are accepted, so that they have few interfaces, is a clause of these calls.
    let _ = before.description();
    let _ = after.description();
    let targets = targets_of(alloc, before, after, query.pairs.dst, query.goal)?;
    let starts = starts_of(
        alloc,
        before,
        after,
        query.pairs.src,
        query.start,
        query.goal,
    )?;
    check_starts(
        alloc,
        asked,
        targets.as_slice(),
        starts.as_slice(),
        ended,
        later_lines(lines),
    )
}

// The lines of a listing.
#[derive(Drop)]
struct Checking<'a> {
    ended: bool,
    lines: &'a [&'a [u8]],
}

impl<'a> Comparing for Checking<'a> {
    ghost use Rattle.std.specs.Prelude.{map};
    ghost use Rattle.diff_check.specs.Starts.{CanBeCompared};
    ghost use Rattle.diff_check.specs.Diffs.{IsCheckedFor};

    ghost fits = { λ j c. CanBeCompared c };

    ghost answers = { λ j c. IsCheckedFor c (map (λ l. l.now) j.lines.now) j.ended };

    fn answer_asked(&self, alloc: Global, asked: &Asked) -> Result<Answer, NoMemory> {
        check_asked(alloc, asked, self.ended, self.lines)
    }
}

fn check_networks(
    alloc: Global,
    before: Network,
    after: Network,
    query: &ChangeQuery,
    lines: &Lines,
) -> Result<Answer, NoMemory>
    requires ends { AreChangedEnds before after query.now }
    requires pairs { AreReachPairs query.now.pairs }
    ensures { IfOk result (λ a. IsCheckedFor (comparison before after query.now)
        (map (λ l. l.now) lines.now.lines.items) lines.now.ended a.status a.text.items) }
{
    let job = Checking {
        ended: lines.ended,
        lines: lines.lines.as_slice(),
    };
    answer_between(alloc, before, after, query, &job)
}

// ---- the question

fn query_of(
    alloc: Global,
    before: &Network,
    after: &Network,
    words: &[&[u8]],
) -> Result<Option<ChangeQuery>, NoMemory>
    requires { 1 ≤ length words.now }
    ensures value { IfOk result (λ q. q ≡ result_ok (change_query_of before.now after.now
        (codes "diff" ∷ [] ∷ map (λ w. w.now) words.now))) }
    ensures ends { IfOk result (λ q. IfSome q (AreChangedEnds before.now after.now)) }
    ensures pairs { IfOk result (λ q. IfSome q (λ query. AreReachPairs query.pairs)) }
{
    match read_line_change_query(alloc, before, after, words) {
        Ok(query) => Ok(Some(query)),
        Err(refusal) => {
            unless_memory(&refusal)?;
            Ok(None)
        }
    }
}

// The question of the second line; none where it is no question.
fn diff_question(
    alloc: Global,
    before: &Network,
    after: &Network,
    lines: &[&[u8]],
) -> Result<Option<ChangeQuery>, NoMemory>
    ensures value { IfOk result (λ q.
        q ≡ diff_question before.now after.now (map (λ l. l.now) lines.now)) }
    ensures ends { IfOk result (λ q. IfSome q (AreChangedEnds before.now after.now)) }
    ensures pairs { IfOk result (λ q. IfSome q (λ query. AreReachPairs query.pairs)) }
{
    match question_words(alloc, lines)? {
        Some(words) => query_of(alloc, before, after, words.as_slice()),
        None => Ok(None),
    }
}

fn check_query(
    alloc: Global,
    before: Network,
    after: Network,
    query: &ChangeQuery,
    lines: &Lines,
) -> Result<Answer, NoMemory>
    requires ends { AreChangedEnds before after query.now }
    requires pairs { AreReachPairs query.now.pairs }
    ensures { IfOk result (λ a. IsQueryChecked (comparison before after query.now)
        (map (λ l. l.now) lines.now.lines.items) lines.now.ended a.status a.text.items) }
{
    match is_too_many(alloc, &before, &after, query) {
        Ok(false) => check_networks(alloc, before, after, query, lines),
        Ok(true) => {
            mem::forget(before);
            mem::forget(after);
            refuse_line(alloc, 2)
        }
        Err(no_memory) => {
            mem::forget(before);
            mem::forget(after);
            Err(no_memory)
        }
    }
}

fn check_lines(
    alloc: Global,
    before: Network,
    after: Network,
    lines: &Lines,
) -> Result<Answer, NoMemory>
    ensures { IfOk result (λ a. IsAskedChecked before after
        (map (λ l. l.now) lines.now.lines.items) lines.now.ended a.status a.text.items) }
{
    match diff_question(alloc, &before, &after, lines.lines.as_slice()) {
        Ok(Some(query)) => check_query(alloc, before, after, &query, lines),
        Ok(None) => {
            mem::forget(before);
            mem::forget(after);
            refuse_line(alloc, 2)
        }
        Err(no_memory) => {
            mem::forget(before);
            mem::forget(after);
            Err(no_memory)
        }
    }
}

// ---- the text

fn check_listing(
    alloc: Global,
    before: Network,
    after: Network,
    bytes: &[u8],
) -> Result<Answer, NoMemory>
    ensures { IfOk result (λ a. IsAskedChecked before after (all_lines bytes.now)
        (is_ended (pieces_of bytes.now)) a.status a.text.items) }
{
    match split_lines(alloc, bytes) {
        Ok(lines) => check_lines(alloc, before, after, &lines),
        Err(no_memory) => {
            mem::forget(before);
            mem::forget(after);
            Err(no_memory)
        }
    }
}

/// What is found of a text that is to be what `diff` prints of these two networks. Want of memory aside, it has an answer
/// whatever the bytes are.
pub fn check_diff(
    alloc: Global,
    before: Network,
    after: Network,
    bytes: &[u8],
) -> Result<Answer, NoMemory>
    ensures { IfOk result (λ a. IsDiffChecked before after bytes.now a.status a.text.items) }
{
    match begins_with(alloc, b"vpc-diff 1", bytes) {
        Ok(true) => check_listing(alloc, before, after, bytes),
        Ok(false) => {
            mem::forget(before);
            mem::forget(after);
            refuse_line(alloc, 1)
        }
        Err(no_memory) => {
            mem::forget(before);
            mem::forget(after);
            Err(no_memory)
        }
    }
}
