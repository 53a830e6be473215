// The pairs of a query: a name and a value each, in one order and each at most once.
ghost use Rattle.std.specs.Prelude.{◌≡◌, ◌+◌, ◌≤◌, ◌<◌, IfOk, IfSome, IsTrue, None, codes, length};
ghost use Rattle.query_words.specs.Pairs.{AreTaken, IsSide, has_pair, no_more, pair_or, pairs_of, ports_pair};
ghost use Rattle.query_words.specs.Pairs.{read_max_to, read_ports, read_side};
ghost use Rattle.query_words.specs.Words.{proto_of, read_as};

use crate::QueryRefusal;
use crate::values::{MOST_BOXES, MOST_ROWS, read_max, read_ports, read_side};
use crate::words::{NumberedWords, has_ports, read_proto};

const TCP: u8 = 6;

/// What was read from the words before `next`, the number of the word that comes next.
#[derive(Clone, Copy)]
pub(crate) struct Taken<T> {
    pub value: T,
    pub next: usize,
}

/// What the pairs of a query give. A side of addresses that is left out depends on the ends.
#[derive(Clone, Copy)]
pub(crate) struct Pairs {
    pub proto: u8,
    pub src: Option<(u32, u32)>,
    pub dst: Option<(u32, u32)>,
    pub p: (u16, u16),
    pub q: (u16, u16),
    pub max: u32,
}

pub(crate) fn has_pair<W: NumberedWords>(words: &W, name: &[u8], next: usize) -> bool
    requires { 3 ≤ next }
    ensures pair { result ≡ has_pair name.now (W.words words.now) next }
    ensures within { IsTrue result → next < length (W.words words.now) }
    ensures room { IsTrue result → next + 1 < usize.MAX }
{
    next < words.count() && words.word(next) == name
}

pub(crate) fn read_proto_pair<W: NumberedWords>(
    words: &W,
    next: usize,
) -> Result<Taken<u8>, QueryRefusal>
    requires { 3 ≤ next }
    ensures pair { result
        ≡ pair_or 6 (codes "proto") (read_as proto_of) (W.words words.now) next }
    ensures next { IfOk result (λ t. next ≤ t.next) }
{
    if !has_pair(words, b"proto", next) {
        return Ok(Taken { value: TCP, next });
    }
    let value = read_proto(words, next + 1)?;
    Ok(Taken {
        value,
        next: next + 2,
    })
}

pub(crate) fn read_side_pair<W: NumberedWords>(
    words: &W,
    name: &[u8],
    next: usize,
) -> Result<Taken<Option<(u32, u32)>>, QueryRefusal>
    requires { 3 ≤ next }
    ensures pair { result ≡ pair_or None name.now read_side (W.words words.now) next }
    ensures next { IfOk result (λ t. next ≤ t.next) }
    ensures some { IfOk result (λ t. IfSome t.value IsSide) }
{
    if !has_pair(words, name, next) {
        return Ok(Taken { value: None, next });
    }
    let value = read_side(words, next + 1)?;
    Ok(Taken {
        value,
        next: next + 2,
    })
}

// A protocol without ports has 0 in their places, and no words for them.
pub(crate) fn read_ports_pair<W: NumberedWords>(
    words: &W,
    proto: u8,
    name: &[u8],
    next: usize,
) -> Result<Taken<(u16, u16)>, QueryRefusal>
    requires { 3 ≤ next }
    ensures pair { result ≡ ports_pair proto name.now (W.words words.now) next }
    ensures next { IfOk result (λ t. next ≤ t.next) }
    ensures some { IfOk result (λ t. IsSide t.value) }
{
    if !has_ports(proto) {
        return Ok(Taken {
            value: (0, 0),
            next,
        });
    }
    if !has_pair(words, name, next) {
        return Ok(Taken {
            value: (0, u16::MAX),
            next,
        });
    }
    let value = read_ports(words, next + 1)?;
    Ok(Taken {
        value,
        next: next + 2,
    })
}

// At most so many, and 20,000 where the pair isn't there.
pub(crate) fn read_max_pair<W: NumberedWords>(
    words: &W,
    most: u32,
    next: usize,
) -> Result<Taken<u32>, QueryRefusal>
    requires next { 3 ≤ next }
    requires most { 20000 ≤ most }
    ensures pair { result
        ≡ pair_or 20000 (codes "max") (read_max_to most) (W.words words.now) next }
    ensures next { IfOk result (λ t. next ≤ t.next) }
    ensures some { IfOk result (λ t. (1 ≤ t.value) × (t.value ≤ most)) }
{
    if !has_pair(words, b"max", next) {
        return Ok(Taken {
            value: MOST_ROWS,
            next,
        });
    }
    let value = read_max(words, most, next + 1)?;
    Ok(Taken {
        value,
        next: next + 2,
    })
}

pub(crate) fn no_more<W: NumberedWords>(words: &W, next: usize) -> Result<(), QueryRefusal>
    ensures { result ≡ no_more (W.words words.now) next }
{
    if next <= words.count() {
        Err(QueryRefusal::BadWord(next as u64))
    } else {
        Ok(())
    }
}

/// The pairs from the seventh word on.
pub(crate) fn read_pairs<W: NumberedWords>(words: &W) -> Result<Pairs, QueryRefusal>
    ensures value { result ≡ pairs_of (W.words words.now) }
    ensures taken { IfOk result AreTaken }
{
    let proto = read_proto_pair(words, 7)?;
    let src = read_side_pair(words, b"src", proto.next)?;
    let dst = read_side_pair(words, b"dst", src.next)?;
    let p = read_ports_pair(words, proto.value, b"sport", dst.next)?;
    let q = read_ports_pair(words, proto.value, b"port", p.next)?;
    let max = read_max_pair(words, MOST_BOXES, q.next)?;
    no_more(words, max.next)?;
    Ok(Pairs {
        proto: proto.value,
        src: src.value,
        dst: dst.value,
        p: p.value,
        q: q.value,
        max: max.value,
    })
}
