// The words that are read by a grammar alone.
ghost use Rattle.std.specs.Prelude.{◌≡◌, ◌<◌, ◌≤◌, ◌∷◌, [], List, length, map, string_bytes, ℕ};
ghost use Rattle.prefix_text.specs.Addr.{addr_of};
ghost use Rattle.query_words.specs.Words.{expect_word, read_as, word_at};
ghost use Rattle.query_words.specs.Words.{has_ports, label_of, port_limit, port_of, proto_of};

use crate::QueryRefusal;
use prefix_text::{read_addr, read_number};
use vpc_base::Label;

/// The word with this number, from 1.
pub fn word(words: &[String], number: usize) -> &str
    requires first { 1 ≤ number }
    requires last { number ≤ length words.now }
    ensures { result.now ≡ word_at (map string_bytes words.now) number }
{
    words[number - 1].as_str()
}

/// The words of a command, counted from 1: its name and its file are the first two.
pub(crate) trait NumberedWords {
    ghost words: { Self → List (List ℕ) };

    /// How many there are, the name and the file included. There is room for a number past the last word's.
    fn count(&self) -> usize
        ensures count { result ≡ length (words self.now) }
        ensures room { result < usize.MAX };

    /// A word after the file.
    fn word(&self, number: usize) -> &[u8]
        requires first { 3 ≤ number }
        requires last { number ≤ length (words self.now) }
        ensures { result.now ≡ word_at (words self.now) number };
}

/// The words of the command line.
#[derive(Clone, Copy)]
pub(crate) struct CommandWords<'a>(pub &'a [String]);

impl NumberedWords for CommandWords<'_> {
    ghost words = { λ s. map string_bytes s.0.now };

    fn count(&self) -> usize {
        self.0.len()
    }

    fn word(&self, number: usize) -> &[u8] {
        word(self.0, number).as_bytes()
    }
}

/// The words of a line, which has no name and no file: it is read as those of a command after its name and an empty
/// file.
#[derive(Clone, Copy)]
pub(crate) struct LineWords<'a> {
    pub name: &'a [u8],
    pub words: &'a [&'a [u8]],
}

impl NumberedWords for LineWords<'_> {
    ghost words = { λ s. s.name.now ∷ [] ∷ map (λ w. w.now) s.words.now };

    fn count(&self) -> usize {
        self.words.len() + 2
    }

    fn word(&self, number: usize) -> &[u8] {
        self.words[number - 3]
    }
}

/// A packet's label: `open` for the first packet of its connection, `answer` for a reply.
pub fn label_of(word: &[u8]) -> Option<Label>
    ensures { result ≡ label_of word.now }
{
    if word == b"open".as_slice() {
        Some(Label::Opening)
    } else if word == b"answer".as_slice() {
        Some(Label::Answer)
    } else {
        None
    }
}

/// A protocol by its name or its number (IANA, "Protocol Numbers").
pub fn proto_of(word: &[u8]) -> Option<u8>
    ensures { result ≡ proto_of word.now }
{
    if word == b"tcp".as_slice() {
        Some(6)
    } else if word == b"udp".as_slice() {
        Some(17)
    } else if word == b"icmp".as_slice() {
        Some(1)
    } else {
        Some(read_number(word, 255)? as u8)
    }
}

/// Whether the protocol has ports, or numbers in their places: ICMP, TCP and UDP alone.
pub(crate) fn has_ports(proto: u8) -> bool
    ensures { result ≡ has_ports proto }
{
    proto == 1 || (proto == 6 || proto == 17)
}

// The greatest number that a protocol has in the place of a port.
pub(crate) fn port_limit(proto: u8) -> u64
    ensures { result ≡ port_limit proto }
{
    if has_ports(proto) { 65535 } else { 0 }
}

/// A port of TCP or UDP, or a number of an ICMP message; other protocols have 0 alone.
pub fn port_of(proto: u8, word: &[u8]) -> Option<u16>
    ensures { result ≡ port_of proto word.now }
{
    Some(read_number(word, port_limit(proto))? as u16)
}

/// Whether the word that belongs in this place stands there.
pub fn expect_word<W: NumberedWords>(
    words: &W,
    number: usize,
    wanted: &[u8],
) -> Result<(), QueryRefusal>
    requires first { 3 ≤ number }
    requires last { number ≤ length (W.words words.now) }
    ensures { result ≡ expect_word wanted.now (W.words words.now) number }
{
    if words.word(number) == wanted {
        Ok(())
    } else {
        Err(QueryRefusal::BadWord(number as u64))
    }
}

pub fn read_label<W: NumberedWords>(words: &W, number: usize) -> Result<Label, QueryRefusal>
    requires first { 3 ≤ number }
    requires last { number ≤ length (W.words words.now) }
    ensures { result ≡ read_as label_of (W.words words.now) number }
{
    label_of(words.word(number)).ok_or(QueryRefusal::BadWord(number as u64))
}

pub fn read_proto<W: NumberedWords>(words: &W, number: usize) -> Result<u8, QueryRefusal>
    requires first { 3 ≤ number }
    requires last { number ≤ length (W.words words.now) }
    ensures { result ≡ read_as proto_of (W.words words.now) number }
{
    proto_of(words.word(number)).ok_or(QueryRefusal::BadWord(number as u64))
}

pub fn read_address<W: NumberedWords>(words: &W, number: usize) -> Result<u32, QueryRefusal>
    requires first { 3 ≤ number }
    requires last { number ≤ length (W.words words.now) }
    ensures { result ≡ read_as addr_of (W.words words.now) number }
{
    read_addr(words.word(number)).ok_or(QueryRefusal::BadWord(number as u64))
}

pub fn read_port<W: NumberedWords>(words: &W, number: usize, proto: u8) -> Result<u16, QueryRefusal>
    requires first { 3 ≤ number }
    requires last { number ≤ length (W.words words.now) }
    ensures { result ≡ read_as (port_of proto) (W.words words.now) number }
{
    port_of(proto, words.word(number)).ok_or(QueryRefusal::BadWord(number as u64))
}
