// The lines before the rows of a report, from their words.
ghost use Rattle.std.specs.Prelude.{◌≡◌, ◌+◌, ◌≤◌, IfSome, IsTrue, is_some, length, map};
ghost use Rattle.vpc_model.specs.Lookup.{interface_at};
ghost use Rattle.vpc_model.specs.Sound.{is_end, is_eni};
ghost use Rattle.vpc_model.specs.Step.Crossing.{is_gateway};
ghost use Rattle.header_boxes.specs.Boxes.{IsValid};
ghost use Rattle.report_reader.specs.Boxes.{box_at};
ghost use Rattle.report_reader.specs.Lines.{end_named, ends_named, is_internet, is_query, is_sides, query_of, row_named, sides_of, start_named, version_of};

use crate::boxes::read_box;
use crate::words::{are_two, word};
use header_boxes::Box5;
use query_words::is_service;
use reference_check::Network;
use vpc_model::{End, EniNo, InterfaceKind};

/// How the boxes of a report are written.
#[derive(Clone, Copy)]
pub enum Version {
    /// One a line, in numbered rows.
    First,
    /// As the leaves of a cut tree, a node a line.
    Second,
}

/// The first line.
pub fn read_version(words: &[&[u8]]) -> Option<Version>
    ensures { result ≡ version_of (map (λ w. w.now) words.now) }
{
    if are_two(words, b"vpc-report", b"1") {
        Some(Version::First)
    } else if are_two(words, b"vpc-report", b"2") {
        Some(Version::Second)
    } else {
        None
    }
}

// ---- the query

fn is_gateway(n: &Network, eni: EniNo) -> bool
    requires { IsTrue (is_eni n.now eni) }
    ensures { let e = interface_at n.now eni in result ≡ is_gateway e.kind }
{
    match n.interface_at(eni).kind {
        InterfaceKind::Host => false,
        InterfaceKind::Gateway => true,
    }
}

// An interface that belongs to no gateway; else what leads to a network that isn't described.
fn row_named(n: &Network, word: &[u8]) -> Option<End>
    ensures value { result ≡ row_named n.now word.now }
    ensures described { IfSome result (λ e. IsTrue (is_end n.now e)) }
{
    match n.eni(word) {
        Some(eni) => {
            if is_gateway(n, eni) {
                None
            } else {
                Some(End::Interface(eni))
            }
        }
        None => match n.far_end(word) {
            Some(k) => Some(End::Far(k)),
            None => None,
        },
    }
}

fn end_named(n: &Network, word: &[u8]) -> Option<End>
    ensures value { result ≡ end_named n.now word.now }
    ensures described { IfSome result (λ e. IsTrue (is_end n.now e)) }
{
    if word == b"internet".as_slice() {
        Some(End::Internet)
    } else {
        row_named(n, word)
    }
}

// An end from which requests are sent.
fn start_named(n: &Network, word: &[u8]) -> Option<End>
    ensures value { result ≡ start_named n.now word.now }
    ensures described { IfSome result (λ e. IsTrue (is_end n.now e)) }
{
    let end = end_named(n, word)?;
    if is_service(n, end) { None } else { Some(end) }
}

fn is_internet(end: End) -> bool
    ensures { result ≡ is_internet end }
{
    match end {
        End::Interface(_) | End::Far(_) => false,
        End::Internet => true,
    }
}

fn ends_named(n: &Network, from: &[u8], to: &[u8]) -> Option<(End, End)>
    ensures value { result ≡ ends_named n.now from.now to.now }
    ensures start { IfSome result (λ e. IsTrue (is_end n.now e.0)) }
    ensures goal { IfSome result (λ e. IsTrue (is_end n.now e.1)) }
{
    let start = start_named(n, from)?;
    let goal = end_named(n, to)?;
    if is_internet(start) && is_internet(goal) {
        None
    } else {
        Some((start, goal))
    }
}

fn is_query(words: &[&[u8]]) -> bool
    ensures { result ≡ is_query (map (λ w. w.now) words.now) }
{
    words.len() == 5
        && (word(words, 0) == b"query".as_slice()
            && (word(words, 1) == b"from".as_slice() && word(words, 3) == b"to".as_slice()))
}

/// The ends of `query from END to END`, not both of them the internet.
pub fn read_query(n: &Network, words: &[&[u8]]) -> Option<(End, End)>
    ensures value { result ≡ query_of n.now (map (λ w. w.now) words.now) }
    ensures start { IfSome result (λ e. IsTrue (is_end n.now e.0)) }
    ensures goal { IfSome result (λ e. IsTrue (is_end n.now e.1)) }
{
    if is_query(words) {
        ends_named(n, word(words, 2), word(words, 4))
    } else {
        None
    }
}

// ---- its box

/// The box of five words, the first of which has this number.
pub fn read_box_at(words: &[&[u8]], first: usize) -> Option<Box5>
    requires { first + 5 ≤ length words.now }
    ensures value { result ≡ box_at (map (λ w. w.now) words.now) first }
    ensures valid { IfSome result IsValid }
{
    read_box(
        word(words, first),
        word(words, first + 1),
        word(words, first + 2),
        word(words, first + 3),
        word(words, first + 4),
    )
}

fn is_sides(words: &[&[u8]]) -> bool
    ensures { result ≡ is_sides (map (λ w. w.now) words.now) }
{
    words.len() == 6 && word(words, 0) == b"box".as_slice()
}

/// The box of `box BOX`.
pub fn read_sides(words: &[&[u8]]) -> Option<Box5>
    ensures value { result ≡ sides_of (map (λ w. w.now) words.now) }
    ensures valid { IfSome result IsValid }
{
    if is_sides(words) {
        read_box_at(words, 1)
    } else {
        None
    }
}
