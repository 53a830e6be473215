// The words of a question for all that gets through.
ghost use Rattle.std.specs.Prelude.{◌≡◌, ◌≤◌, ◌∷◌, [], IfOk, IfSome, IsTrue, None, codes, length, map, string_bytes};
ghost use Rattle.vpc_model.specs.Sound.{is_end};
ghost use Rattle.query_words.specs.Pairs.{IsSide, pair_or};
ghost use Rattle.query_words.specs.ReachQuery.{AreGivenEnds, AreReachPairs, apart, given_end, given_ports, given_start, may_have_ports, ports_of, protos_of, reach_pairs_of, reach_query_of, read_given_ports, read_given_proto, sourced};
ghost use Rattle.query_words.specs.Refusal.{Answers};

use crate::QueryRefusal;
use crate::ends::{read_end, read_start};
use crate::pairs::{Taken, has_pair, no_more, read_max_pair, read_side_pair};
use crate::sides::src_of;
use crate::values::{MOST_ROWS, read_ports};
use crate::words::{CommandWords, LineWords, NumberedWords, has_ports, port_limit, read_proto};
use reference_check::Network;
use std::alloc::Global;
use vpc_model::End;

const TCP: u8 = 6;

/// What the pairs after the ends give. A side of addresses that is left out depends on the ends.
#[derive(Clone, Copy)]
pub struct ReachPairs {
    /// All protocols where none is given and no ports are; then a header may have numbers that no packet has.
    pub proto: (u8, u8),
    pub src: Option<(u32, u32)>,
    pub dst: Option<(u32, u32)>,
    pub p: (u16, u16),
    pub q: (u16, u16),
    /// How many rows an answer may have.
    pub max: u32,
}

/// Which packets are asked for, from one end or from all, to one end or to any.
#[derive(Clone, Copy)]
pub struct ReachQuery {
    pub start: Option<End>,
    pub goal: Option<End>,
    pub pairs: ReachPairs,
}

// ---- ends

fn read_start_pair<W: NumberedWords>(
    alloc: Global,
    n: &Network,
    words: &W,
    next: usize,
) -> Result<Taken<Option<End>>, QueryRefusal>
    requires { 3 ≤ next }
    ensures pair { Answers (pair_or None (codes "from") (given_start n.now) (W.words words.now) next) result }
    ensures next { IfOk result (λ t. next ≤ t.next) }
    ensures described { IfOk result (λ t. IfSome t.value (λ e. IsTrue (is_end n.now e))) }
{
    if !has_pair(words, b"from", next) {
        return Ok(Taken { value: None, next });
    }
    let value = Some(read_start(alloc, n, words, next + 1)?);
    Ok(Taken {
        value,
        next: next + 2,
    })
}

fn read_goal_pair<W: NumberedWords>(
    alloc: Global,
    n: &Network,
    words: &W,
    next: usize,
) -> Result<Taken<Option<End>>, QueryRefusal>
    requires { 3 ≤ next }
    ensures pair { Answers (pair_or None (codes "to") (given_end n.now) (W.words words.now) next) result }
    ensures next { IfOk result (λ t. next ≤ t.next) }
    ensures described { IfOk result (λ t. IfSome t.value (λ e. IsTrue (is_end n.now e))) }
{
    if !has_pair(words, b"to", next) {
        return Ok(Taken { value: None, next });
    }
    let value = Some(read_end(alloc, n, words, next + 1)?);
    Ok(Taken {
        value,
        next: next + 2,
    })
}

// Between hosts of the internet no described network stands.
pub(crate) fn apart(start: Option<End>, goal: Option<End>) -> Result<(), QueryRefusal>
    ensures { result ≡ apart start goal }
{
    match (start, goal) {
        (Some(End::Internet), Some(End::Internet)) => Err(QueryRefusal::BothInternet),
        _ => Ok(()),
    }
}

// ---- protocols and ports

fn read_given_proto<W: NumberedWords>(words: &W, number: usize) -> Result<Option<u8>, QueryRefusal>
    requires first { 3 ≤ number }
    requires last { number ≤ length (W.words words.now) }
    ensures { result ≡ read_given_proto (W.words words.now) number }
{
    Ok(Some(read_proto(words, number)?))
}

fn read_proto_pair<W: NumberedWords>(
    words: &W,
    next: usize,
) -> Result<Taken<Option<u8>>, QueryRefusal>
    requires { 3 ≤ next }
    ensures pair { result ≡ pair_or None (codes "proto") read_given_proto (W.words words.now) next }
    ensures next { IfOk result (λ t. next ≤ t.next) }
{
    if !has_pair(words, b"proto", next) {
        return Ok(Taken { value: None, next });
    }
    let value = read_given_proto(words, next + 1)?;
    Ok(Taken {
        value,
        next: next + 2,
    })
}

fn read_given_ports<W: NumberedWords>(
    words: &W,
    number: usize,
) -> Result<Option<(u16, u16)>, QueryRefusal>
    requires first { 3 ≤ number }
    requires last { number ≤ length (W.words words.now) }
    ensures value { result ≡ read_given_ports (W.words words.now) number }
    ensures some { IfOk result (λ r. IfSome r IsSide) }
{
    Ok(Some(read_ports(words, number)?))
}

fn may_have_ports(proto: Option<u8>) -> bool
    ensures { result ≡ may_have_ports proto }
{
    match proto {
        Some(proto) => has_ports(proto),
        None => true,
    }
}

// A protocol without ports has no words for them.
fn read_ports_pair<W: NumberedWords>(
    words: &W,
    proto: Option<u8>,
    name: &[u8],
    next: usize,
) -> Result<Taken<Option<(u16, u16)>>, QueryRefusal>
    requires { 3 ≤ next }
    ensures pair { result ≡ given_ports proto name.now (W.words words.now) next }
    ensures next { IfOk result (λ t. next ≤ t.next) }
    ensures some { IfOk result (λ t. IfSome t.value IsSide) }
{
    if !may_have_ports(proto) || !has_pair(words, name, next) {
        return Ok(Taken { value: None, next });
    }
    let value = read_given_ports(words, next + 1)?;
    Ok(Taken {
        value,
        next: next + 2,
    })
}

fn protos_of(proto: Option<u8>, ports: bool) -> (u8, u8)
    ensures value { result ≡ protos_of proto ports }
    ensures some { IsSide result }
{
    match proto {
        Some(proto) => (proto, proto),
        None => { if ports { (TCP, TCP) } else { (0, u8::MAX) } }
    }
}

fn ports_of(proto: Option<u8>, ports: Option<(u16, u16)>) -> (u16, u16)
    requires { IfSome ports IsSide }
    ensures value { result ≡ ports_of proto ports }
    ensures some { IsSide result }
{
    match (proto, ports) {
        (_, Some(ports)) => ports,
        (Some(proto), None) => (0, port_limit(proto) as u16),
        (None, None) => (0, u16::MAX),
    }
}

// ---- the query

/// The pairs after the ends, from the word with this number on.
pub(crate) fn read_reach_pairs<W: NumberedWords>(
    words: &W,
    next: usize,
) -> Result<ReachPairs, QueryRefusal>
    requires { 3 ≤ next }
    ensures value { result ≡ reach_pairs_of (W.words words.now) next }
    ensures taken { IfOk result AreReachPairs }
{
    let proto = read_proto_pair(words, next)?;
    let src = read_side_pair(words, b"src", proto.next)?;
    let dst = read_side_pair(words, b"dst", src.next)?;
    let sport = read_ports_pair(words, proto.value, b"sport", dst.next)?;
    let port = read_ports_pair(words, proto.value, b"port", sport.next)?;
    let max = read_max_pair(words, MOST_ROWS, port.next)?;
    no_more(words, max.next)?;
    let ports = sport.value.is_some() || port.value.is_some();
    Ok(ReachPairs {
        proto: protos_of(proto.value, ports),
        src: src.value,
        dst: dst.value,
        p: ports_of(proto.value, sport.value),
        q: ports_of(proto.value, port.value),
        max: max.value,
    })
}

// Whether a start that is given has a source.
fn sourced(
    alloc: Global,
    n: &Network,
    start: Option<End>,
    src: Option<(u32, u32)>,
) -> Result<(), QueryRefusal>
    requires described { IfSome start (λ e. IsTrue (is_end n.now e)) }
    requires given { IfSome src IsSide }
    ensures { Answers (sourced n.now start src) result }
{
    match start {
        None => Ok(()),
        Some(start) => {
            src_of(alloc, n, start, src)?;
            Ok(())
        }
    }
}

fn read_numbered<W: NumberedWords>(
    alloc: Global,
    n: &Network,
    words: &W,
) -> Result<ReachQuery, QueryRefusal>
    requires { 2 ≤ length (W.words words.now) }
    ensures answer { Answers (reach_query_of n.now (W.words words.now)) result }
    ensures taken { IfOk result (λ query. AreReachPairs query.pairs) }
    ensures described { IfOk result (AreGivenEnds n.now) }
{
    let start = read_start_pair(alloc, n, words, 3)?;
    let goal = read_goal_pair(alloc, n, words, start.next)?;
    apart(start.value, goal.value)?;
    let pairs = read_reach_pairs(words, goal.next)?;
    sourced(alloc, n, start.value, pairs.src)?;
    Ok(ReachQuery {
        start: start.value,
        goal: goal.value,
        pairs,
    })
}

/// The question that the words of `reach FILE` give, with any of the pairs `from END`, `to END`, `proto PROTO`, `src PREFIX`,
/// `dst PREFIX`, `sport A-B`, `port A-B` and `max N` behind them, in this order. A word that is left alone at the end is
/// refused, as any other that isn't a pair's name.
pub fn read_reach_query(
    alloc: Global,
    n: &Network,
    words: &[String],
) -> Result<ReachQuery, QueryRefusal>
    requires { 2 ≤ length words.now }
    ensures answer { Answers (reach_query_of n.now (map string_bytes words.now)) result }
    ensures taken { IfOk result (λ query. AreReachPairs query.pairs) }
    ensures described { IfOk result (AreGivenEnds n.now) }
{
    read_numbered(alloc, n, &CommandWords(words))
}

/// The question that the words of a line give, which are those of `reach` after its file: the same grammar, with words
/// counted as if the name and a file came before them.
pub fn read_line_reach_query(
    alloc: Global,
    n: &Network,
    words: &[&[u8]],
) -> Result<ReachQuery, QueryRefusal>
    ensures answer { Answers
        (reach_query_of n.now (codes "reach" ∷ [] ∷ map (λ w. w.now) words.now)) result }
    ensures taken { IfOk result (λ query. AreReachPairs query.pairs) }
    ensures described { IfOk result (AreGivenEnds n.now) }
{
    read_numbered(
        alloc,
        n,
        &LineWords {
            name: b"reach",
            words,
        },
    )
}
