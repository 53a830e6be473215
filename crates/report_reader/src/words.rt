// The words of a line.
ghost use Rattle.std.specs.Prelude.{◌≡◌, ◌<◌, ◌^◌, ◌==◌, ◌&&◌, IfNone, IfSome, bytes_eq, decimal, length, map};
ghost use Rattle.query_words.specs.Events.{words_of};
ghost use Rattle.report_reader.specs.Boxes.{word_at};

use arrayvec::ArrayVec;
use prefix_text::{decimal_digits, read_number};

/// The words of a line, with one blank between each two; none where they are more than eleven, which no
/// line of a report has. It takes no memory.
pub fn few_words(line: &[u8]) -> Option<ArrayVec<&[u8], 11>>
    ensures all { IfSome result (λ v. map (λ w. w.now) v.items ≡ words_of line.now) }
    ensures many { IfNone result (11 < length (words_of line.now)) }
{
    let mut words = ArrayVec::new();
    match words.extend(line.split(|c| *c == b' ')) {
        Ok(()) => Some(words),
        Err(_) => None,
    }
}

/// The word with this number, from 0.
pub fn word<'a>(words: &[&'a [u8]], number: usize) -> &'a [u8]
    requires { number < length words.now }
    ensures { result.now ≡ word_at (map (λ w. w.now) words.now) number }
{
    words[number]
}

// Whether a text is a number of at most ten digits in decimal.
#[tactic(auto, using(crate::proofs::NumberLemmas::is_read, crate::proofs::NumberLemmas::is_unread))]
fn is_short_number(text: &[u8], number: u64) -> bool
    requires { number < 10 ^ 10 }
    ensures { result ≡ bytes_eq text.now (decimal number) }
{
    match read_number(text, number) {
        Some(read) => read == number,
        None => false,
    }
}

/// Whether a text is a number in decimal. It takes no memory.
pub fn is_number(text: &[u8], number: u64) -> bool
    ensures { result ≡ bytes_eq text.now (decimal number) }
{
    // More than ten digits are not read.
    if number < 10_000_000_000 {
        is_short_number(text, number)
    } else {
        text == decimal_digits(u128::from(number)).as_slice()
    }
}

/// Whether there are two words, and what they are.
pub fn are_two(words: &[&[u8]], first: &[u8], second: &[u8]) -> bool
    ensures { let all = map (λ w. w.now) words.now in
        result ≡ ((length all == 2)
        && (bytes_eq (word_at all 0) first.now && bytes_eq (word_at all 1) second.now)) }
{
    words.len() == 2 && (word(words, 0) == first && word(words, 1) == second)
}
