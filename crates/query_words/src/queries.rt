// The words of a query.
ghost use Rattle.std.specs.Prelude.{◌≤◌, ◌∷◌, [], IfOk, codes, length, map, string_bytes};
ghost use Rattle.header_boxes.specs.Boxes.{IsValid};
ghost use Rattle.query_words.specs.Ends.{AreDescribed};
ghost use Rattle.query_words.specs.Query.{query_of};
ghost use Rattle.query_words.specs.Refusal.{Answers};

use crate::QueryRefusal;
use crate::ends::read_ends;
use crate::pairs::read_pairs;
use crate::sides::sides_of;
use crate::words::{CommandWords, LineWords, NumberedWords};
use header_boxes::Box5;
use reference_check::Network;
use std::alloc::Global;
use vpc_model::End;

/// Which packets are asked for, from one end to another.
#[derive(Clone, Copy, Debug, PartialEq, Eq)]
pub struct Query {
    pub start: End,
    pub goal: End,
    /// The headers, as they leave the start.
    pub sides: Box5,
    /// How many boxes a report may have.
    pub max: u32,
}

fn read_numbered<W: NumberedWords>(
    alloc: Global,
    n: &Network,
    words: &W,
) -> Result<Query, QueryRefusal>
    requires { 6 ≤ length (W.words words.now) }
    ensures answer { Answers (query_of n.now (W.words words.now)) result }
    ensures valid { IfOk result (λ q. IsValid q.sides) }
    ensures described { IfOk result (λ q. AreDescribed n.now q.start q.goal) }
    ensures max { IfOk result (λ q. (1 ≤ q.max) × (q.max ≤ 100000)) }
{
    let ends = read_ends(alloc, n, words)?;
    let pairs = read_pairs(words)?;
    let sides = sides_of(alloc, n, &ends, &pairs)?;
    Ok(Query {
        start: ends.start,
        goal: ends.goal,
        sides,
        max: pairs.max,
    })
}

/// The query that the words of `ask FILE from END to END` give, with any of the pairs `proto PROTO`,
/// `src PREFIX`, `dst PREFIX`, `sport A-B`, `port A-B` and `max N` behind them, in this order.
///
/// Where pairs are left out, TCP is asked for with all ports, from the start's primary private address to
/// the goal's, and 20,000 boxes; the internet stands for every address, and so does a goal that is asked
/// for from it. A word that is left alone at the end is refused, as any other that isn't a pair's name.
pub fn read_query(alloc: Global, n: &Network, words: &[String]) -> Result<Query, QueryRefusal>
    requires { 6 ≤ length words.now }
    ensures answer { Answers (query_of n.now (map string_bytes words.now)) result }
    ensures valid { IfOk result (λ q. IsValid q.sides) }
    ensures described { IfOk result (λ q. AreDescribed n.now q.start q.goal) }
    ensures max { IfOk result (λ q. (1 ≤ q.max) × (q.max ≤ 100000)) }
{
    read_numbered(alloc, n, &CommandWords(words))
}

/// The query that the words of a line give, which are those of `ask` from `from` on: the same grammar, with words
/// counted as if the name and a file came before them.
pub fn read_line_query(alloc: Global, n: &Network, words: &[&[u8]]) -> Result<Query, QueryRefusal>
    requires { 4 ≤ length words.now }
    ensures answer { Answers
        (query_of n.now (codes "ask" ∷ [] ∷ map (λ w. w.now) words.now)) result }
    ensures valid { IfOk result (λ q. IsValid q.sides) }
    ensures described { IfOk result (λ q. AreDescribed n.now q.start q.goal) }
    ensures max { IfOk result (λ q. (1 ≤ q.max) × (q.max ≤ 100000)) }
{
    read_numbered(
        alloc,
        n,
        &LineWords {
            name: b"ask",
            words,
        },
    )
}
