// The words of a query about which no report is made.
ghost use Rattle.std.specs.Prelude.{◌≡◌, ◌≤◌, IfOk, length, map, string_bytes};
ghost use Rattle.header_boxes.specs.Boxes.{IsValid};
ghost use Rattle.query_words.specs.Ends.{AreDescribed};
ghost use Rattle.query_words.specs.Pairs.{AreTaken};
ghost use Rattle.query_words.specs.Refusal.{Answers};
ghost use Rattle.query_words.specs.Unbounded.{unbounded_pairs_of, unbounded_query_of};

use crate::QueryRefusal;
use crate::ends::read_ends;
use crate::pairs::{Pairs, no_more, read_ports_pair, read_proto_pair, read_side_pair};
use crate::queries::Query;
use crate::sides::sides_of;
use crate::values::MOST_ROWS;
use crate::words::{CommandWords, NumberedWords};
use reference_check::Network;
use std::alloc::Global;

// The pairs from the seventh word on.
fn read_unbounded_pairs<W: NumberedWords>(words: &W) -> Result<Pairs, QueryRefusal>
    ensures value { result ≡ unbounded_pairs_of (W.words words.now) }
    ensures taken { IfOk result AreTaken }
{
    let proto = read_proto_pair(words, 7)?;
    let src = read_side_pair(words, b"src", proto.next)?;
    let dst = read_side_pair(words, b"dst", src.next)?;
    let p = read_ports_pair(words, proto.value, b"sport", dst.next)?;
    let q = read_ports_pair(words, proto.value, b"port", p.next)?;
    no_more(words, q.next)?;
    Ok(Pairs {
        proto: proto.value,
        src: src.value,
        dst: dst.value,
        p: p.value,
        q: q.value,
        max: MOST_ROWS,
    })
}

/// The query that the words `NAME FILE from END to END` give, with any of the pairs of `ask` but `max N` behind them: no
/// report is made about it, so that its number of boxes means nothing. `max` is refused like any other word that isn't a
/// pair's name.
pub fn read_unbounded_query(
    alloc: Global,
    n: &Network,
    words: &[String],
) -> Result<Query, QueryRefusal>
    requires { 6 ≤ length words.now }
    ensures answer { Answers (unbounded_query_of n.now (map string_bytes words.now)) result }
    ensures valid { IfOk result (λ q. IsValid q.sides) }
    ensures described { IfOk result (λ q. AreDescribed n.now q.start q.goal) }
{
    let words = &CommandWords(words);
    let ends = read_ends(alloc, n, words)?;
    let pairs = read_unbounded_pairs(words)?;
    let sides = sides_of(alloc, n, &ends, &pairs)?;
    Ok(Query {
        start: ends.start,
        goal: ends.goal,
        sides,
        max: pairs.max,
    })
}
