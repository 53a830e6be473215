// The two parts of a text round a separator.
ghost use Rattle.std.specs.Prelude.{◌≡◌, ◌==◌, ◌<◌, length, position, IfSome};
ghost use Rattle.std.specs.List.{before_first, after_first};

fn place_of(text: &[u8], byte: u8) -> Option<usize>
    ensures value { result ≡ position (λ c. c == byte) text.now }
    ensures within { IfSome result (λ at. at < length text.now) }
{
    text.iter().position(|c| *c == byte)
}

/// What stands before the first such byte and what after it: all and nothing where there is none.
pub fn parted(text: &[u8], separator: u8) -> (&[u8], &[u8])
    ensures before { result.0.now ≡ before_first (λ c. c == separator) text.now }
    ensures after { result.1.now ≡ after_first (λ c. c == separator) text.now }
{
    match place_of(text, separator) {
        Some(at) => (&text[..at], &text[at + 1..]),
        None => (text, &[]),
    }
}
