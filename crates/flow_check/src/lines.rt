// The lines of a text, one after another, without a list of them.
ghost use Rattle.std.specs.Prelude.{◌≡◌, ◌+◌, ◌<◌, ◌≤◌, ◌==◌, ◌++◌, ◌∷◌, [], All, IfNone, IfSome, false, length, position};
ghost use Rattle.std.specs.List.{enumerate_from, slice_split};
ghost use Rattle.query_words.specs.Events.{lines_of};
ghost use Rattle.flow_check.specs.Lines.{names_fields, numbered_lines};

fn place_of(text: &[u8], byte: u8) -> Option<usize>
    ensures value { result ≡ position (λ c. c == byte) text.now }
    ensures within { IfSome result (λ at. at < length text.now) }
{
    text.iter().position(|c| *c == byte)
}

/// What stands before the first such byte, and what after it; none where there is no such byte.
pub fn cut(text: &[u8], byte: u8) -> Option<(&[u8], &[u8])>
    ensures whole { IfSome result (λ r. text.now ≡ r.0.now ++ byte ∷ r.1.now) }
    ensures clear { IfSome result (λ r. All (λ c. (c == byte) ≡ false) r.0.now) }
    ensures first { IfSome result (λ r. slice_split (λ c. c == byte) text.now
        ≡ r.0.now ∷ slice_split (λ c. c == byte) r.1.now) }
    ensures fewer { IfSome result (λ r. length r.1.now < length text.now) }
    ensures all_clear { IfNone result (All (λ c. (c == byte) ≡ false) text.now) }
    ensures last { IfNone result (slice_split (λ c. c == byte) text.now ≡ text.now ∷ []) }
{
    match place_of(text, byte) {
        Some(at) => Some((&text[..at], &text[at + 1..])),
        None => None,
    }
}

/// The first line of a text that isn't empty, and the text after it.
pub fn first_line(text: &[u8]) -> (&[u8], &[u8])
    requires { 0 < length text.now }
    ensures lines { lines_of text.now ≡ result.0.now ∷ lines_of result.1.now }
    ensures fewer { length result.1.now < length text.now }
{
    match cut(text, b'\n') {
        Some(parts) => parts,
        None => (text, &[]),
    }
}

// Whether a line names the fields: its first word is `version`.
fn names_fields(line: &[u8]) -> bool
    ensures { result ≡ names_fields line.now }
{
    match cut(line, b' ') {
        Some((word, _)) => word == b"version".as_slice(),
        None => line == b"version".as_slice(),
    }
}

/// A text without a first line that names the fields, and the number of the line with which it begins.
pub fn after_names(text: &[u8]) -> (&[u8], u64)
    ensures lines { enumerate_from result.1 (lines_of result.0.now) ≡ numbered_lines text.now }
    ensures first { 1 ≤ result.1 }
    ensures short { result.1 + length result.0.now ≤ 1 + length text.now }
{
    if text.is_empty() {
        return (text, 1);
    }
    let (line, rest) = first_line(text);
    if names_fields(line) {
        (rest, 2)
    } else {
        (text, 1)
    }
}
