// The lines of the nodes of a tree, from their words.
ghost use Rattle.std.specs.Prelude.{◌≡◌, ◌<◌, ◌^◌, IfOk, IfSome, IsTrue, Some, length, map};
ghost use Rattle.prefix_text.specs.Number.{number_of};
ghost use Rattle.query_words.specs.Events.{words_of};
ghost use Rattle.report_reader.specs.Nodes.{cut_in, end_of_tree, fits_box, is_cut, is_leaf, leaf_in, node_for, node_of, node_or_end, node_or_fault, node_within, number_on, side_named};
ghost use Rattle.report_reader.specs.Reports.{IsRead};

use crate::ReportFault;
use crate::told::read_told;
use crate::words::{are_two, few_words, word};
use box_images::{Side, side_of};
use header_boxes::Box5;
use ordered_cover::Node;
use prefix_text::{decimal_digits, read_addr, read_number};
use std::alloc::Global;
use vpc_base::NoMemory;
use vpc_model::StopText;

/// How many leaves of a report are read.
const LEAF_LIMIT: u32 = 100_000;

fn side_named(word: &[u8]) -> Option<Side>
    ensures { result ≡ side_named word.now }
{
    if word == b"proto".as_slice() {
        Some(Side::Proto)
    } else if word == b"src".as_slice() {
        Some(Side::Src)
    } else if word == b"dst".as_slice() {
        Some(Side::Dst)
    } else if word == b"p".as_slice() {
        Some(Side::P)
    } else if word == b"q".as_slice() {
        Some(Side::Q)
    } else {
        None
    }
}

// A number that a text writes, at most this one.
fn read_up_to(text: &[u8], most: u32) -> Option<u32>
    ensures { result ≡ number_of text.now most }
{
    match read_number(text, u64::from(most)) {
        Some(number) => Some(number as u32),
        None => None,
    }
}

// A number of a side.
fn number_on(side: Side, text: &[u8]) -> Option<u32>
    ensures { result ≡ number_on side text.now }
{
    match side {
        Side::Proto => read_up_to(text, 255),
        Side::Src => read_addr(text),
        Side::Dst => read_addr(text),
        Side::P => read_up_to(text, 65_535),
        Side::Q => read_up_to(text, 65_535),
    }
}

fn is_cut(words: &[&[u8]]) -> bool
    ensures { result ≡ is_cut (map (λ w. w.now) words.now) }
{
    words.len() == 3 && word(words, 0) == b"cut".as_slice()
}

fn cut_in(words: &[&[u8]]) -> Option<Node<StopText>>
    requires { length words.now ≡ 3 }
    ensures { result ≡ cut_in (map (λ w. w.now) words.now) }
{
    let side = side_named(word(words, 1))?;
    let number = number_on(side, word(words, 2))?;
    Some(Node::Cut(side, number))
}

fn is_leaf(words: &[&[u8]]) -> bool
    ensures { result ≡ is_leaf (map (λ w. w.now) words.now) }
{
    words.len() == 5 && word(words, 0) == b"leaf".as_slice()
}

fn leaf_in(alloc: Global, words: &[&[u8]]) -> Result<Option<Node<StopText>>, NoMemory>
    requires { length words.now ≡ 5 }
    ensures { IfOk result (λ node. node ≡ leaf_in (map (λ w. w.now) words.now)) }
{
    match read_told(
        alloc,
        word(words, 1),
        word(words, 2),
        word(words, 3),
        word(words, 4),
    )? {
        Some(told) => Ok(Some(Node::Leaf(told))),
        None => Ok(None),
    }
}

fn node_of(alloc: Global, words: &[&[u8]]) -> Result<Option<Node<StopText>>, NoMemory>
    ensures { IfOk result (λ node. node ≡ node_of (map (λ w. w.now) words.now)) }
{
    if is_cut(words) {
        Ok(cut_in(words))
    } else if is_leaf(words) {
        leaf_in(alloc, words)
    } else {
        Ok(None)
    }
}

// Whether a cut divides its side of the box.
fn fits_box(b: &Box5, node: &Node<StopText>) -> bool
    ensures { result ≡ fits_box b.now node.now }
{
    match node {
        Node::Cut(side, number) => {
            let range = side_of(b, *side);
            range.0 < *number && *number <= range.1
        }
        Node::Leaf(_) => true,
    }
}

// A node that stands for the box.
fn node_for(alloc: Global, b: &Box5, words: &[&[u8]]) -> Result<Option<Node<StopText>>, NoMemory>
    ensures value { IfOk result (λ node. node ≡ node_for b.now (map (λ w. w.now) words.now)) }
    ensures fits { IfOk result (λ o. IfSome o (λ node. IsTrue (fits_box b.now node))) }
{
    let Some(node) = node_of(alloc, words)? else {
        return Ok(None);
    };
    if fits_box(b, &node) {
        Ok(Some(node))
    } else {
        Ok(None)
    }
}

// A node on this line after so many leaves, where it is read.
fn node_within(
    leaves: u32,
    number: u64,
    node: Node<StopText>,
) -> Result<Option<Node<StopText>>, ReportFault>
    ensures value { result ≡ node_within leaves number node }
    ensures same { IfOk result (λ o. o ≡ Some node) }
{
    match node {
        Node::Cut(side, at) => Ok(Some(Node::Cut(side, at))),
        Node::Leaf(told) => {
            if leaves < LEAF_LIMIT {
                Ok(Some(Node::Leaf(told)))
            } else {
                Err(ReportFault::TooManyBoxes(number))
            }
        }
    }
}

fn read_node(
    alloc: Global,
    b: &Box5,
    leaves: u32,
    number: u64,
    words: &[&[u8]],
) -> Result<Option<Node<StopText>>, ReportFault>
    ensures { IsRead (node_or_fault leaves number (node_for b.now (map (λ w. w.now) words.now))) result }
{
    match node_for(alloc, b, words)? {
        Some(node) => node_within(leaves, number, node),
        None => Err(ReportFault::BadLine(number)),
    }
}

// The end of the report on this line after so many leaves.
fn read_end(
    leaves: u32,
    number: u64,
    last: bool,
    words: &[&[u8]],
) -> Result<Option<Node<StopText>>, ReportFault>
    requires { number < 2 ^ 63 }
    ensures { result ≡ end_of_tree leaves number last (map (λ w. w.now) words.now) }
{
    if !are_two(words, b"end", decimal_digits(u128::from(leaves)).as_slice()) {
        Err(ReportFault::BadLine(number))
    } else if last {
        Ok(None)
    } else {
        Err(ReportFault::BadLine(number + 1))
    }
}

fn read_words(
    alloc: Global,
    first: Option<Box5>,
    leaves: u32,
    number: u64,
    last: bool,
    words: &[&[u8]],
) -> Result<Option<Node<StopText>>, ReportFault>
    requires { number < 2 ^ 63 }
    ensures { IsRead (node_or_end first leaves number last (map (λ w. w.now) words.now)) result }
{
    match first {
        Some(b) => read_node(alloc, &b, leaves, number, words),
        None => read_end(leaves, number, last, words),
    }
}

/// The node on this line, which stands for the first of the boxes that are left, after so many leaves; none where no box is left
/// and the report ends with this line. `last` says whether the text does.
pub fn read_next_node(
    alloc: Global,
    first: Option<Box5>,
    leaves: u32,
    number: u64,
    last: bool,
    line: &[u8],
) -> Result<Option<Node<StopText>>, ReportFault>
    requires { number < 2 ^ 63 }
    ensures { IsRead (node_or_end first leaves number last (words_of line.now)) result }
{
    match few_words(line) {
        Some(words) => read_words(alloc, first, leaves, number, last, words.as_slice()),
        None => Err(ReportFault::BadLine(number)),
    }
}
