// The line of a row cut at its blanks. A line may have any number of words, so no list of them is made.
ghost use Rattle.std.specs.Prelude.{◌≡◌, ◌≤◌, ◌==◌, ◌++◌, ◌∷◌, [], MatchOption, codes, decimal, false, length, not};
ghost use Rattle.std.specs.List.{list_all};
ghost use Rattle.query_words.specs.Events.{words_of};
ghost use Rattle.listing_reader.specs.Cuts.{begins_with};
ghost use Rattle.listing_reader.specs.Listings.{is_row};

use prefix_text::decimal_digits;

// ---- from its head

fn has_no_blank(word: &[u8]) -> bool
    ensures { result ≡ list_all (λ c. not (c == 32)) word.now }
{
    word.iter().all(|c| *c != b' ')
}

// What follows a word and a blank at the head of a text, of which no more is looked at.
fn after_word<'a>(text: &'a [u8], word: &[u8]) -> Option<&'a [u8]>
    ensures { MatchOption result (begins_with word.now (words_of text.now) ≡ false)
        (λ rest. words_of text.now ≡ word.now ∷ words_of rest.now) }
{
    let after = text.strip_prefix(word)?;
    let rest = after.strip_prefix(b" ".as_slice())?;
    if has_no_blank(word) { Some(rest) } else { None }
}

// What follows `row`, the row's number and the id of its start.
fn after_start<'a>(line: &'a [u8], number: u64, id: &[u8]) -> Option<&'a [u8]>
    ensures { MatchOption result (is_row number id.now (words_of line.now) ≡ false)
        (λ rest. words_of line.now ≡ codes "row" ∷ decimal number ∷ id.now ∷ words_of rest.now) }
{
    let rest = after_word(line, b"row".as_slice())?;
    let rest = after_word(rest, decimal_digits(u128::from(number)).as_slice())?;
    after_word(rest, id)
}

// ---- from its end

/// A text of two words or more before its last one, and that word.
#[derive(Clone, Copy)]
struct Cut<'a> {
    before: &'a [u8],
    last: &'a [u8],
}

/// A text of three words or more before its last two, and those.
#[derive(Clone, Copy)]
struct CutTwo<'a> {
    before: &'a [u8],
    first: &'a [u8],
    second: &'a [u8],
}

fn cut_last(text: &[u8]) -> Option<Cut<'_>>
    ensures { MatchOption result (length (words_of text.now) ≡ 1)
        (λ c. words_of text.now ≡ words_of c.before.now ++ c.last.now ∷ []) }
{
    match text.iter().rposition(|c| *c == b' ') {
        Some(at) => Some(Cut {
            before: &text[..at],
            last: &text[at + 1..],
        }),
        None => None,
    }
}

fn cut_two(text: &[u8]) -> Option<CutTwo<'_>>
    ensures { MatchOption result (length (words_of text.now) ≤ 2)
        (λ c. words_of text.now ≡ words_of c.before.now ++ c.first.now ∷ c.second.now ∷ []) }
{
    let second = cut_last(text)?;
    let first = cut_last(second.before)?;
    Some(CutTwo {
        before: first.before,
        first: first.last,
        second: second.last,
    })
}

/// What follows the start on the line of a row: what is told, and the words of its box.
#[derive(Clone, Copy)]
pub struct RowTail<'a> {
    pub told: &'a [u8],
    pub proto: &'a [u8],
    pub src: &'a [u8],
    pub dst: &'a [u8],
    pub p: &'a [u8],
    pub q: &'a [u8],
}

fn cut_tail(text: &[u8]) -> Option<RowTail<'_>>
    ensures { MatchOption result (length (words_of text.now) ≤ 5)
        (λ t. words_of text.now
        ≡ words_of t.told.now ++ t.proto.now ∷ t.src.now ∷ t.dst.now ∷ t.p.now ∷ t.q.now ∷ []) }
{
    let ports = cut_two(text)?;
    let addresses = cut_two(ports.before)?;
    let proto = cut_last(addresses.before)?;
    Some(RowTail {
        told: proto.before,
        proto: proto.last,
        src: addresses.first,
        dst: addresses.second,
        p: ports.first,
        q: ports.second,
    })
}

// ---- the whole

/// What follows the start on a line of at least nine words that begins with `row`, this number and this id.
pub fn cut_row<'a>(line: &'a [u8], number: u64, id: &[u8]) -> Option<RowTail<'a>>
    ensures { MatchOption result (is_row number id.now (words_of line.now) ≡ false)
        (λ t. words_of line.now ≡ codes "row" ∷ decimal number ∷ id.now
        ∷ (words_of t.told.now ++ t.proto.now ∷ t.src.now ∷ t.dst.now ∷ t.p.now ∷ t.q.now ∷ [])) }
{
    let rest = after_start(line, number, id)?;
    cut_tail(rest)
}
