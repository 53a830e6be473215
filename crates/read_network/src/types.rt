// Types of interfaces, as the calls of AWS spell them.
ghost use Rattle.std.specs.Prelude.{◌≡◌, bytes_eq, option_map};
ghost use Rattle.read_network.specs.Interfaces.{is_gateway_type, is_joint, kind_of, letters_of, small_letter};

use vpc_model::InterfaceKind;

fn is_joint(c: u8) -> bool
    ensures { result ≡ is_joint c }
{
    c == b'_' || c == b'-'
}

fn small_letter(c: u8) -> u8
    ensures { result ≡ small_letter c }
{
    if b'A' <= c && c <= b'Z' { c + 32 } else { c }
}

/// Whether the text spells the word, which is in small letters.
fn spells(text: &[u8], word: &[u8]) -> bool
    ensures { result ≡ bytes_eq (letters_of text.now) word.now }
{
    let mut rest = word;
    for c in text {
        if is_joint(*c) {
            continue;
        }
        match rest.split_first() {
            Some((first, others)) if small_letter(*c) == *first => rest = others,
            _ => return false,
        }
    }
    rest.len() == 0
}

fn is_gateway_type(text: &[u8]) -> bool
    ensures { result ≡ is_gateway_type text.now }
{
    spells(text, b"natgateway") || spells(text, b"transitgateway")
}

/// The kind of an interface of this type.
pub fn kind_of(text: Option<&str>) -> InterfaceKind
    ensures { result ≡ kind_of (option_map (λ s. s.now) text.entry) }
{
    match text {
        Some(text) if is_gateway_type(text.as_bytes()) => InterfaceKind::Gateway,
        _ => InterfaceKind::Host,
    }
}
