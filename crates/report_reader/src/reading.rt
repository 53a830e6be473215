// Whole reports.
ghost use Rattle.std.specs.Prelude.{◌≡◌, ◌<◌, ◌∷◌, [], IfNone, IfOk, IfSome, IsTrue, drop, length, map};
ghost use Rattle.header_boxes.specs.Boxes.{IsValid};
ghost use Rattle.vpc_model.specs.Sound.{is_end};
ghost use Rattle.query_words.specs.Events.{words_of};
ghost use Rattle.report_reader.specs.Lines.{query_of, sides_of, version_of};
ghost use Rattle.report_reader.specs.Reports.{IsRead, IsSoundReport, IsSoundShape, line_as, pieces_of, report_in, report_of_pieces, report_of_text, shape_from};

use crate::lines::{Version, read_query, read_sides, read_version};
use crate::node_lists::read_nodes;
use crate::row_lists::read_rows;
use crate::words::few_words;
use crate::{Report, ReportFault, Shape};
use header_boxes::Box5;
use memchr::memchr;
use reference_check::Network;
use std::alloc::{AllocError, Global};
use vpc_model::End;

// ---- the lines before the rows

fn version_in(line: &[u8]) -> Option<Version>
    ensures { result ≡ version_of (words_of line.now) }
{
    match few_words(line) {
        Some(words) => read_version(words.as_slice()),
        None => None,
    }
}

fn ends_in(n: &Network, line: &[u8]) -> Option<(End, End)>
    ensures value { result ≡ query_of n.now (words_of line.now) }
    ensures start { IfSome result (λ e. IsTrue (is_end n.now e.0)) }
    ensures goal { IfSome result (λ e. IsTrue (is_end n.now e.1)) }
{
    match few_words(line) {
        Some(words) => read_query(n, words.as_slice()),
        None => None,
    }
}

fn sides_in(line: &[u8]) -> Option<Box5>
    ensures value { result ≡ sides_of (words_of line.now) }
    ensures valid { IfSome result IsValid }
{
    match few_words(line) {
        Some(words) => read_sides(words.as_slice()),
        None => None,
    }
}

fn version_on(lines: &[&[u8]]) -> Result<Version, ReportFault>
    ensures { IsRead (line_as version_of (map (λ l. l.now) lines.now) 1) result }
{
    match lines.get(0) {
        Some(line) => version_in(line).ok_or(ReportFault::BadLine(1)),
        None => Err(ReportFault::BadLine(1)),
    }
}

fn read_ends(n: &Network, lines: &[&[u8]]) -> Result<(End, End), ReportFault>
    ensures value { IsRead (line_as (query_of n.now) (map (λ l. l.now) lines.now) 2) result }
    ensures start { IfOk result (λ e. IsTrue (is_end n.now e.0)) }
    ensures goal { IfOk result (λ e. IsTrue (is_end n.now e.1)) }
{
    match lines.get(1) {
        Some(line) => ends_in(n, line).ok_or(ReportFault::BadLine(2)),
        None => Err(ReportFault::BadLine(2)),
    }
}

fn read_whole(lines: &[&[u8]]) -> Result<Box5, ReportFault>
    ensures value { IsRead (line_as sides_of (map (λ l. l.now) lines.now) 3) result }
    ensures valid { IfOk result IsValid }
{
    match lines.get(2) {
        Some(line) => sides_in(line).ok_or(ReportFault::BadLine(3)),
        None => Err(ReportFault::BadLine(3)),
    }
}

// ---- all lines

// The lines after the first three.
fn row_lines<'a, 'b>(lines: &'a [&'b [u8]]) -> &'a [&'b [u8]]
    ensures { result.now ≡ drop 3 lines.now }
{
    if lines.len() < 3 { &[] } else { &lines[3..] }
}

fn list_in(alloc: Global, sides: &Box5, lines: &[&[u8]], ended: bool) -> Result<Shape, ReportFault>
    ensures value { IsRead (shape_from Version.First sides.now ended (drop 3 (map (λ l. l.now) lines.now))) result }
    ensures sound { IfOk result (IsSoundShape sides.now) }
{
    let rows = read_rows(alloc, sides, ended, row_lines(lines))?;
    Ok(Shape::List(rows))
}

fn tree_in(alloc: Global, sides: &Box5, lines: &[&[u8]], ended: bool) -> Result<Shape, ReportFault>
    ensures value { IsRead (shape_from Version.Second sides.now ended (drop 3 (map (λ l. l.now) lines.now))) result }
    ensures sound { IfOk result (IsSoundShape sides.now) }
{
    let nodes = read_nodes(alloc, sides, ended, row_lines(lines))?;
    Ok(Shape::Tree(nodes))
}

fn shape_in(
    alloc: Global,
    version: Version,
    sides: &Box5,
    lines: &[&[u8]],
    ended: bool,
) -> Result<Shape, ReportFault>
    ensures value { IsRead (shape_from version sides.now ended (drop 3 (map (λ l. l.now) lines.now))) result }
    ensures sound { IfOk result (IsSoundShape sides.now) }
{
    match version {
        Version::First => list_in(alloc, sides, lines, ended),
        Version::Second => tree_in(alloc, sides, lines, ended),
    }
}

fn report_in(
    alloc: Global,
    n: &Network,
    lines: &[&[u8]],
    ended: bool,
) -> Result<Report, ReportFault>
    ensures value { IsRead (report_in n.now (map (λ l. l.now) lines.now) ended) result }
    ensures sound { IfOk result (IsSoundReport n.now) }
{
    let version = version_on(lines)?;
    let (start, goal) = read_ends(n, lines)?;
    let sides = read_whole(lines)?;
    let shape = shape_in(alloc, version, &sides, lines, ended)?;
    Ok(Report {
        start,
        goal,
        sides,
        shape,
    })
}

// ---- the text

// What stands before the first newline of a text, and what after it.
#[tactic(auto, using(crate::proofs::PieceLemmas::piece_last))]
fn cut(text: &[u8]) -> Option<(&[u8], &[u8])>
    ensures first { IfSome result (λ c. pieces_of text.now ≡ c.0.now ∷ pieces_of c.1.now) }
    ensures shorter { IfSome result (λ c. length c.1.now < length text.now) }
    ensures whole { IfNone result (pieces_of text.now ≡ text.now ∷ []) }
{
    match memchr(b'\n', text) {
        Some(at) => Some((&text[..at], &text[at + 1..])),
        None => None,
    }
}

/// What stands between newlines, before the first and after the last.
pub fn pieces_of(alloc: Global, text: &[u8]) -> Result<Vec<&[u8]>, AllocError>
    ensures { IfOk result (λ v. map (λ l. l.now) v.items ≡ pieces_of text.now) }
{
    let mut pieces = Vec::new(alloc);
    let mut rest = text;
    while let Some((piece, after)) = cut(rest) {
        pieces.push(piece)?;
        rest = after;
    }
    pieces.push(rest)?;
    Ok(pieces)
}

fn report_of_pieces(alloc: Global, n: &Network, pieces: &[&[u8]]) -> Result<Report, ReportFault>
    ensures value { IsRead (report_of_pieces n.now (map (λ l. l.now) pieces.now)) result }
    ensures sound { IfOk result (IsSoundReport n.now) }
{
    match pieces.split_last() {
        Some((tail, lines)) => report_in(alloc, n, lines, tail.is_empty()),
        None => Err(ReportFault::BadLine(1)),
    }
}

/// The report that a text says: `vpc-report 1`, `query from END to END`, `box BOX`, any number of
/// `row NUMBER PHASE STOP BOX`, and `end NUMBER`; or `vpc-report 2`, the same lines up to the box, a cut tree of it with a
/// line for each node, `cut SIDE AT` or `leaf PHASE STOP`, and `end NUMBER` with the number of leaves. Words have one blank
/// between each two, and each line ends with one newline. Its boxes are not compared with one another, nor its rows with the
/// network.
pub fn read_report(alloc: Global, n: &Network, text: &[u8]) -> Result<Report, ReportFault>
    ensures value { IsRead (report_of_text n.now text.now) result }
    ensures sound { IfOk result (IsSoundReport n.now) }
{
    let pieces = pieces_of(alloc, text)?;
    report_of_pieces(alloc, n, pieces.as_slice())
}
