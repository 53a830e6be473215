// The values of a query's pairs.
ghost use Rattle.std.specs.Prelude.{◌≡◌, ◌≤◌, IfOk, IfSome, length};
ghost use Rattle.query_words.specs.Pairs.{IsSide, read_max_to, read_ports, read_side, some_max, some_ports};

use crate::QueryRefusal;
use crate::words::NumberedWords;
use prefix_text::{read_number, read_prefix, read_range};

/// How many rows may be printed, where nothing is said: those of a report, of `reach` and of `diff`.
pub(crate) const MOST_ROWS: u32 = 20_000;

/// How many boxes a report may have at most. More than 20,000 are the leaves of a tree.
pub(crate) const MOST_BOXES: u32 = 100_000;

const MOST_DECIMAL: u64 = 9_999_999_999;

/// The addresses of the block that the word gives.
pub(crate) fn read_side<W: NumberedWords>(
    words: &W,
    number: usize,
) -> Result<Option<(u32, u32)>, QueryRefusal>
    requires first { 3 ≤ number }
    requires last { number ≤ length (W.words words.now) }
    ensures value { result ≡ read_side (W.words words.now) number }
    ensures some { IfOk result (λ r. IfSome r IsSide) }
{
    match read_prefix(words.word(number)) {
        Some(block) => Ok(Some((block.first(), block.last()))),
        None => Err(QueryRefusal::BadWord(number as u64)),
    }
}

fn some_ports(number: usize, ports: (u16, u16)) -> Result<(u16, u16), QueryRefusal>
    ensures value { result ≡ some_ports number ports }
    ensures some { IfOk result IsSide }
{
    if ports.0 <= ports.1 {
        Ok(ports)
    } else {
        Err(QueryRefusal::EmptyRange(number as u64))
    }
}

/// A range of ports that isn't empty.
pub(crate) fn read_ports<W: NumberedWords>(
    words: &W,
    number: usize,
) -> Result<(u16, u16), QueryRefusal>
    requires first { 3 ≤ number }
    requires last { number ≤ length (W.words words.now) }
    ensures value { result ≡ read_ports (W.words words.now) number }
    ensures some { IfOk result IsSide }
{
    match read_range(words.word(number)) {
        Some(ports) => some_ports(number, ports),
        None => Err(QueryRefusal::BadWord(number as u64)),
    }
}

fn some_max(most: u32, max: u64) -> Result<u32, QueryRefusal>
    ensures value { result ≡ some_max most max }
    ensures some { IfOk result (λ m. (1 ≤ m) × (m ≤ most)) }
{
    if 1 <= max && max <= u64::from(most) {
        Ok(max as u32)
    } else {
        Err(QueryRefusal::MaxOutOfRange)
    }
}

/// How many boxes may be printed, at most so many.
pub(crate) fn read_max<W: NumberedWords>(
    words: &W,
    most: u32,
    number: usize,
) -> Result<u32, QueryRefusal>
    requires first { 3 ≤ number }
    requires last { number ≤ length (W.words words.now) }
    ensures value { result ≡ read_max_to most (W.words words.now) number }
    ensures some { IfOk result (λ m. (1 ≤ m) × (m ≤ most)) }
{
    match read_number(words.word(number), MOST_DECIMAL) {
        Some(max) => some_max(most, max),
        None => Err(QueryRefusal::BadWord(number as u64)),
    }
}
