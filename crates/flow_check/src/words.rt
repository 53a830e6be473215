// The words of a line.
ghost use Rattle.std.specs.Prelude.{◌≡◌, ◌≤◌, IfNone, IfSome, IsTrue, false, length, map};
ghost use Rattle.arrayvec.specs.ArrayVec.{array_vec_len};
ghost use Rattle.query_words.specs.Events.{words_of};
ghost use Rattle.query_words.specs.Words.{word_at};
ghost use Rattle.flow_check.specs.Records.{has_fields};

use crate::lines::cut;
use arrayvec::ArrayVec;

/// How many words a line has.
pub const FIELDS: usize = 14;

/// The words of a line, where it has as many as it must and none of them is empty.
pub fn fields_of(line: &[u8]) -> Option<ArrayVec<&[u8], 14>>
    ensures words { IfSome result (λ v. map (λ w. w.now) v.items ≡ words_of line.now) }
    ensures fit { IfSome result (λ v. IsTrue (has_fields (words_of line.now))) }
    ensures unfit { IfNone result (has_fields (words_of line.now) ≡ false) }
{
    let mut words = ArrayVec::new();
    let mut rest = line;
    while let Some((word, after)) = cut(rest, b' ') {
        if word.len() == 0 {
            return None;
        }
        if words.len() == FIELDS - 1 {
            return None;
        }
        words.push(word);
        rest = after;
    }
    if rest.len() == 0 {
        return None;
    }
    if words.len() != FIELDS - 1 {
        return None;
    }
    words.push(rest);
    Some(words)
}

/// The word with this number, from 1.
pub fn word<'a>(words: &[&'a [u8]], number: usize) -> &'a [u8]
    requires first { 1 ≤ number }
    requires last { number ≤ length words.now }
    ensures { result.now ≡ word_at (map (λ w. w.now) words.now) number }
{
    words[number - 1]
}
