// The lines of a listing.
ghost use Rattle.std.specs.Prelude.{◌≡◌, ◌≤◌, ◌+◌, ◌==◌, ◌&&◌, All, IfOk, drop, length, map};
ghost use Rattle.header_boxes.specs.Boxes.{IsValid};
ghost use Rattle.query_words.specs.Events.{words_of};
ghost use Rattle.report_reader.specs.Lines.{is_end_line};
ghost use Rattle.report_reader.specs.Reports.{IsRead, is_ended, lines_of, pieces_of, row_limit};
ghost use Rattle.listing_reader.specs.Listings.{end_after, lists_before, lists_in, row_count};
ghost use Rattle.listing_reader.specs.Reading.{end_line_after};

use crate::Origin;
use crate::rows::read_rows;
use header_boxes::Row;
use prefix_text::decimal_digits;
use report_reader::{ReportFault, are_two, few_words, pieces_of};
use std::alloc::Global;
use vpc_base::{NoMemory, OwnList};

/// The lines of a text, each of which ends with a newline.
#[derive(Drop)]
pub struct Lines<'a> {
    pub lines: Vec<&'a [u8]>,
    /// Whether nothing stands after the last newline.
    pub ended: bool,
}

/// The lines of a text.
pub fn split_lines(alloc: Global, text: &[u8]) -> Result<Lines<'_>, NoMemory>
    ensures lines { IfOk result (λ r. map (λ l. l.now) r.lines.items ≡ lines_of (pieces_of text.now)) }
    ensures ended { IfOk result (λ r. r.ended ≡ is_ended (pieces_of text.now)) }
{
    let mut lines = pieces_of(alloc, text)?;
    match lines.pop() {
        Some(tail) => Ok(Lines {
            lines,
            ended: tail.is_empty(),
        }),
        None => Ok(Lines { lines, ended: true }),
    }
}

// ---- the end

fn is_end_line(count: u64, line: &[u8]) -> bool
    ensures { result ≡ is_end_line count (words_of line.now) }
{
    match few_words(line) {
        Some(words) => are_two(
            words.as_slice(),
            b"end".as_slice(),
            decimal_digits(u128::from(count)).as_slice(),
        ),
        None => false,
    }
}

fn read_end_line(count: u64, last: bool, line: &[u8]) -> Result<(), ReportFault>
    requires { count ≤ row_limit }
    ensures { IsRead (end_line_after count last (words_of line.now)) result }
{
    if !is_end_line(count, line) {
        Err(ReportFault::BadLine(count + 3))
    } else if last {
        Ok(())
    } else {
        Err(ReportFault::BadLine(count + 4))
    }
}

// Whether the text ends before these lines.
fn is_past(others: &[&[u8]], ended: bool) -> bool
    ensures { result ≡ ((length others.now == 0) && ended) }
{
    others.len() == 0 && ended
}

fn read_end(count: usize, ended: bool, lines: &[&[u8]]) -> Result<(), ReportFault>
    requires { count ≤ row_limit }
    ensures { IsRead (end_after count ended (map (λ l. l.now) lines.now)) result }
{
    match lines.split_first() {
        Some((line, others)) => {
            let last = is_past(others, ended);
            read_end_line(count as u64, last, line)
        }
        None => Err(ReportFault::BadLine(count as u64 + 3)),
    }
}

// Lists of rows, where these lines are the end.
fn before_end(
    lists: OwnList<OwnList<Row<OwnList<u8>>>>,
    count: usize,
    ended: bool,
    lines: &[&[u8]],
) -> Result<OwnList<OwnList<Row<OwnList<u8>>>>, ReportFault>
    requires { count ≤ row_limit }
    ensures value { IsRead (lists_before lists (end_after count ended (map (λ l. l.now) lines.now))) result }
    ensures same { IfOk result (λ all. all ≡ lists) }
{
    read_end(count, ended, lines)?;
    Ok(lists)
}

// ---- all rows

fn lines_from<'a, 'b>(lines: &'a [&'b [u8]], count: usize) -> &'a [&'b [u8]]
    requires { count ≤ length lines.now }
    ensures { result.now ≡ drop count lines.now }
{
    &lines[count..]
}

// How many rows there are with those of one start more.
fn count_with(count: usize, rows: &OwnList<Row<OwnList<u8>>>) -> usize
    requires { count + length rows.now ≤ row_limit }
    ensures { result ≡ count + length rows.now }
{
    count + rows.as_slice().len()
}

/// The rows of each start on the lines of a listing after the first two: any number of `row NUMBER START TOLD BOX`, those of a start
/// together and in the order of the starts, and `end NUMBER`. TOLD is one word or more, which are not read here.
pub fn read_lists(
    alloc: Global,
    origins: &[Origin],
    ended: bool,
    lines: &[&[u8]],
) -> Result<OwnList<OwnList<Row<OwnList<u8>>>>, ReportFault>
    ensures value { IsRead (lists_in origins.now ended (map (λ l. l.now) lines.now)) result }
    ensures valid { IfOk result (λ lists. All (λ rows. All (λ r. IsValid r.part) rows) lists) }
    ensures few { IfOk result (λ lists. row_count lists ≤ row_limit) }
    ensures count { IfOk result (λ lists. length lists ≡ length origins.now) }
{
    let mut lists = Vec::new(alloc);
    let mut count = 0;
    for origin in origins {
        let others = lines_from(lines, count);
        let rows = read_rows(alloc, origin, count, others)?;
        count = count_with(count, &rows);
        lists.push(rows)?;
    }
    let end = lines_from(lines, count);
    before_end(OwnList::of(lists), count, ended, end)
}
