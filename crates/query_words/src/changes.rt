// The words of a question for what a change opens and closes.
ghost use Rattle.std.specs.Prelude.{◌≡◌, ◌≤◌, ◌∷◌, [], IfOk, IfSome, IsTrue, None, codes, length, map, string_bytes};
ghost use Rattle.vpc_model.specs.Sound.{is_end};
ghost use Rattle.query_words.specs.ChangeQuery.{AreChangedEnds, IsChangedEnd, before_of, change_query_of, change_sourced, changed_end_of, changed_start_of, given_changed_end, given_changed_start, has_source, in_either, internet_in_both, is_service_in, named_end, primary_in, without_address};
ghost use Rattle.query_words.specs.Pairs.{IsSide, pair_or};
ghost use Rattle.query_words.specs.ReachQuery.{AreReachPairs};
ghost use Rattle.query_words.specs.Refusal.{Answers};

use crate::QueryRefusal;
use crate::ends::{end_with, is_service};
use crate::pairs::{Taken, has_pair};
use crate::reaches::{ReachPairs, apart, read_reach_pairs};
use crate::words::{CommandWords, LineWords, NumberedWords};
use reference_check::Network;
use std::alloc::Global;
use vpc_model::End;

/// An end by its id, as it stands in each of two networks.
#[derive(Clone, Copy)]
pub struct ChangedEnd {
    /// None where the first network has no such end.
    pub before: Option<End>,
    /// None where the second one has none.
    pub after: Option<End>,
}

/// Of which packets the change is asked for, from one end or from all, to one end or to any.
#[derive(Clone, Copy)]
pub struct ChangeQuery {
    pub start: Option<ChangedEnd>,
    pub goal: Option<ChangedEnd>,
    pub pairs: ReachPairs,
}

// ---- ends

fn internet() -> ChangedEnd
    ensures { result ≡ internet_in_both }
{
    ChangedEnd {
        before: Some(End::Internet),
        after: Some(End::Internet),
    }
}

fn in_either(end: ChangedEnd, number: usize) -> Result<ChangedEnd, QueryRefusal>
    ensures { result ≡ in_either end number }
{
    match (end.before, end.after) {
        (None, None) => Err(QueryRefusal::UnknownId(number as u64)),
        _ => Ok(end),
    }
}

// The end that an id names, which isn't `internet`. The word has this number.
fn named_end(
    alloc: Global,
    before: &Network,
    after: &Network,
    id: &[u8],
    number: usize,
) -> Result<ChangedEnd, QueryRefusal>
    ensures answer { Answers (named_end before.now after.now id.now number) result }
    ensures described { IfOk result (IsChangedEnd before.now after.now) }
{
    let first = end_with(alloc, before, id)?;
    let second = end_with(alloc, after, id)?;
    let end = ChangedEnd {
        before: first,
        after: second,
    };
    in_either(end, number)
}

fn read_changed_end<W: NumberedWords>(
    alloc: Global,
    before: &Network,
    after: &Network,
    words: &W,
    number: usize,
) -> Result<ChangedEnd, QueryRefusal>
    requires first { 3 ≤ number }
    requires last { number ≤ length (W.words words.now) }
    ensures answer { Answers (changed_end_of before.now after.now (W.words words.now) number) result }
    ensures described { IfOk result (IsChangedEnd before.now after.now) }
{
    let id = words.word(number);
    if id == b"internet".as_slice() {
        Ok(internet())
    } else {
        named_end(alloc, before, after, id, number)
    }
}

fn is_service_in(n: &Network, end: Option<End>) -> bool
    requires { IfSome end (λ e. IsTrue (is_end n.now e)) }
    ensures { result ≡ is_service_in n.now end }
{
    match end {
        Some(end) => is_service(n, end),
        None => false,
    }
}

// A start of requests, which is a service in neither network.
fn read_changed_start<W: NumberedWords>(
    alloc: Global,
    before: &Network,
    after: &Network,
    words: &W,
    number: usize,
) -> Result<ChangedEnd, QueryRefusal>
    requires first { 3 ≤ number }
    requires last { number ≤ length (W.words words.now) }
    ensures answer { Answers (changed_start_of before.now after.now (W.words words.now) number) result }
    ensures described { IfOk result (IsChangedEnd before.now after.now) }
{
    let end = read_changed_end(alloc, before, after, words, number)?;
    if is_service_in(before, end.before) || is_service_in(after, end.after) {
        Err(QueryRefusal::NotAStart(number as u64))
    } else {
        Ok(end)
    }
}

fn read_changed_start_pair<W: NumberedWords>(
    alloc: Global,
    before: &Network,
    after: &Network,
    words: &W,
    next: usize,
) -> Result<Taken<Option<ChangedEnd>>, QueryRefusal>
    requires { 3 ≤ next }
    ensures pair { Answers (pair_or None (codes "from") (given_changed_start before.now after.now)
        (W.words words.now) next) result }
    ensures next { IfOk result (λ t. next ≤ t.next) }
    ensures described { IfOk result (λ t. IfSome t.value (IsChangedEnd before.now after.now)) }
{
    if !has_pair(words, b"from", next) {
        return Ok(Taken { value: None, next });
    }
    let value = Some(read_changed_start(alloc, before, after, words, next + 1)?);
    Ok(Taken {
        value,
        next: next + 2,
    })
}

fn read_changed_goal_pair<W: NumberedWords>(
    alloc: Global,
    before: &Network,
    after: &Network,
    words: &W,
    next: usize,
) -> Result<Taken<Option<ChangedEnd>>, QueryRefusal>
    requires { 3 ≤ next }
    ensures pair { Answers (pair_or None (codes "to") (given_changed_end before.now after.now)
        (W.words words.now) next) result }
    ensures next { IfOk result (λ t. next ≤ t.next) }
    ensures described { IfOk result (λ t. IfSome t.value (IsChangedEnd before.now after.now)) }
{
    if !has_pair(words, b"to", next) {
        return Ok(Taken { value: None, next });
    }
    let value = Some(read_changed_end(alloc, before, after, words, next + 1)?);
    Ok(Taken {
        value,
        next: next + 2,
    })
}

// As it stands in the first network.
fn before_of(end: Option<ChangedEnd>) -> Option<End>
    ensures { result ≡ before_of end }
{
    end?.before
}

// ---- sources

fn primary_in(n: &Network, end: Option<End>) -> Option<u32>
    requires { IfSome end (λ e. IsTrue (is_end n.now e)) }
    ensures { result ≡ primary_in n.now end }
{
    match end {
        Some(End::Interface(eni)) => n.interface_at(eni).primary,
        _ => None,
    }
}

fn has_source(before: &Network, after: &Network, start: ChangedEnd) -> bool
    requires { IsChangedEnd before.now after.now start }
    ensures { result ≡ has_source before.now after.now start }
{
    primary_in(before, start.before).is_some() || primary_in(after, start.after).is_some()
}

// Refuses a start that has no address.
fn without_address(
    alloc: Global,
    before: &Network,
    after: &Network,
    start: ChangedEnd,
) -> Result<(), QueryRefusal>
    requires { IsChangedEnd before.now after.now start }
    ensures { Answers (without_address before.now after.now start.before start.after) result }
{
    match (start.before, start.after) {
        (Some(End::Interface(eni)), _) => {
            let id = before.interface_at(eni).id.copied(alloc)?;
            Err(QueryRefusal::NoAddress(id))
        }
        (None, Some(End::Interface(eni))) => {
            let id = after.interface_at(eni).id.copied(alloc)?;
            Err(QueryRefusal::NoAddress(id))
        }
        _ => Ok(()),
    }
}

// Whether a start that is given has a source.
fn change_sourced(
    alloc: Global,
    before: &Network,
    after: &Network,
    start: Option<ChangedEnd>,
    src: Option<(u32, u32)>,
) -> Result<(), QueryRefusal>
    requires { IfSome start (IsChangedEnd before.now after.now) }
    ensures { Answers (change_sourced before.now after.now start src) result }
{
    match (start, src) {
        (Some(start), None) => {
            if has_source(before, after, start) {
                Ok(())
            } else {
                without_address(alloc, before, after, start)
            }
        }
        _ => Ok(()),
    }
}

// ---- the query

fn read_numbered<W: NumberedWords>(
    alloc: Global,
    before: &Network,
    after: &Network,
    words: &W,
) -> Result<ChangeQuery, QueryRefusal>
    requires { 3 ≤ length (W.words words.now) }
    ensures answer { Answers (change_query_of before.now after.now (W.words words.now)) result }
    ensures taken { IfOk result (λ query. AreReachPairs query.pairs) }
    ensures described { IfOk result (AreChangedEnds before.now after.now) }
{
    let start = read_changed_start_pair(alloc, before, after, words, 4)?;
    let goal = read_changed_goal_pair(alloc, before, after, words, start.next)?;
    apart(before_of(start.value), before_of(goal.value))?;
    let pairs = read_reach_pairs(words, goal.next)?;
    change_sourced(alloc, before, after, start.value, pairs.src)?;
    Ok(ChangeQuery {
        start: start.value,
        goal: goal.value,
        pairs,
    })
}

/// The question that the words of `diff BEFORE AFTER` give, with any of the pairs of `reach` behind them. An end is named by
/// its id, and may be described in one of the networks alone.
pub fn read_change_query(
    alloc: Global,
    before: &Network,
    after: &Network,
    words: &[String],
) -> Result<ChangeQuery, QueryRefusal>
    requires { 3 ≤ length words.now }
    ensures answer { Answers (change_query_of before.now after.now (map string_bytes words.now)) result }
    ensures taken { IfOk result (λ query. AreReachPairs query.pairs) }
    ensures described { IfOk result (AreChangedEnds before.now after.now) }
{
    read_numbered(alloc, before, after, &CommandWords(words))
}

/// The question that the words of a line give, which are those of `diff` after its files. The line's first word, whatever it
/// is, stands where the second file does: words are counted as if the name and a file came before it.
pub fn read_line_change_query(
    alloc: Global,
    before: &Network,
    after: &Network,
    words: &[&[u8]],
) -> Result<ChangeQuery, QueryRefusal>
    requires { 1 ≤ length words.now }
    ensures answer { Answers (change_query_of before.now after.now
        (codes "diff" ∷ [] ∷ map (λ w. w.now) words.now)) result }
    ensures taken { IfOk result (λ query. AreReachPairs query.pairs) }
    ensures described { IfOk result (AreChangedEnds before.now after.now) }
{
    read_numbered(
        alloc,
        before,
        after,
        &LineWords {
            name: b"diff",
            words,
        },
    )
}
