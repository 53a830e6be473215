// The lines of rows and the last line, from their words.
ghost use Rattle.std.specs.Prelude.{◌≡◌, ◌+◌, ◌<◌, ◌^◌, IfOk, IfSome, None, Some, length, map};
ghost use Rattle.header_boxes.specs.Boxes.{IsWithin};
ghost use Rattle.report_reader.specs.Lines.{is_row, part_of, row_in, row_of, told_in};
ghost use Rattle.report_reader.specs.Reports.{IsRead, end_after, next_row, row_limit, row_or_end, within_limit};

use crate::ReportFault;
use crate::boxes::is_inside;
use crate::lines::read_box_at;
use crate::told::read_told;
use crate::words::{are_two, few_words, is_number, word};
use header_boxes::{Box5, Row};
use prefix_text::decimal_digits;
use std::alloc::Global;
use vpc_base::NoMemory;
use vpc_model::StopText;

/// How many rows of a report are read.
const ROW_LIMIT: u64 = 20_000;

fn is_row(words: &[&[u8]], number: u64) -> bool
    ensures { result ≡ is_row number (map (λ w. w.now) words.now) }
{
    words.len() == 11 && (word(words, 0) == b"row".as_slice() && is_number(word(words, 1), number))
}

// A box inside that of the query.
#[tactic(auto, using(crate::proofs::Within::within_if_inside))]
fn read_part(whole: &Box5, words: &[&[u8]]) -> Option<Box5>
    requires { length words.now ≡ 11 }
    ensures value { result ≡ part_of whole.now (map (λ w. w.now) words.now) }
    ensures within { IfSome result (λ part. IsWithin part whole.now) }
{
    let part = read_box_at(words, 6)?;
    if is_inside(&part, whole) {
        Some(part)
    } else {
        None
    }
}

fn told_in(alloc: Global, words: &[&[u8]]) -> Result<Option<StopText>, NoMemory>
    requires { length words.now ≡ 11 }
    ensures { IfOk result (λ told. told ≡ told_in (map (λ w. w.now) words.now)) }
{
    read_told(
        alloc,
        word(words, 2),
        word(words, 3),
        word(words, 4),
        word(words, 5),
    )
}

fn row_in(alloc: Global, whole: &Box5, words: &[&[u8]]) -> Result<Option<Row<StopText>>, NoMemory>
    requires { length words.now ≡ 11 }
    ensures value { IfOk result (λ row. row ≡ row_in whole.now (map (λ w. w.now) words.now)) }
    ensures within { IfOk result (λ row. IfSome row (λ r. IsWithin r.part whole.now)) }
{
    let Some(part) = read_part(whole, words) else {
        return Ok(None);
    };
    match told_in(alloc, words)? {
        Some(word) => Ok(Some(Row { part, word })),
        None => Ok(None),
    }
}

fn read_row(
    alloc: Global,
    whole: &Box5,
    number: u64,
    words: &[&[u8]],
) -> Result<Option<Row<StopText>>, NoMemory>
    ensures value { IfOk result (λ row. row ≡ row_of whole.now number (map (λ w. w.now) words.now)) }
    ensures within { IfOk result (λ row. IfSome row (λ r. IsWithin r.part whole.now)) }
{
    if is_row(words, number) {
        row_in(alloc, whole, words)
    } else {
        Ok(None)
    }
}

// The end of the report on the line after so many rows.
fn read_end(count: u64, last: bool, words: &[&[u8]]) -> Result<Option<Row<StopText>>, ReportFault>
    requires { count < 2 ^ 63 }
    ensures value { result ≡ end_after count last (map (λ w. w.now) words.now) }
    ensures none { IfOk result (λ o. o ≡ None) }
{
    if !are_two(words, b"end", decimal_digits(u128::from(count)).as_slice()) {
        Err(ReportFault::BadLine(count + 4))
    } else if last {
        Ok(None)
    } else {
        Err(ReportFault::BadLine(count + 5))
    }
}

// A row after so many others, where it is read.
fn within_limit(count: u64, row: Row<StopText>) -> Result<Option<Row<StopText>>, ReportFault>
    requires { count < 2 ^ 63 }
    ensures value { result ≡ within_limit count row }
    ensures same { IfOk result (λ o. o ≡ Some row) }
    ensures few { IfOk result (λ o. count < row_limit) }
{
    if count < ROW_LIMIT {
        Ok(Some(row))
    } else {
        Err(ReportFault::TooManyBoxes(count + 4))
    }
}

fn read_row_or_end(
    alloc: Global,
    whole: &Box5,
    count: u64,
    last: bool,
    words: &[&[u8]],
) -> Result<Option<Row<StopText>>, ReportFault>
    requires { count < 2 ^ 63 }
    ensures value { let all = map (λ w. w.now) words.now in
        IsRead (row_or_end count last all (row_of whole.now (count + 1) all)) result }
    ensures within { IfOk result (λ o. IfSome o (λ r. IsWithin r.part whole.now)) }
    ensures few { IfOk result (λ o. IfSome o (λ r. count < row_limit)) }
{
    match read_row(alloc, whole, count + 1, words)? {
        Some(row) => within_limit(count, row),
        None => read_end(count, last, words),
    }
}

/// The row after so many others; none where the report ends with this line. `last` says whether the text
/// does.
pub fn read_next_row(
    alloc: Global,
    whole: &Box5,
    count: u64,
    last: bool,
    line: &[u8],
) -> Result<Option<Row<StopText>>, ReportFault>
    requires { count < 2 ^ 63 }
    ensures value { IsRead (next_row whole.now count last line.now) result }
    ensures within { IfOk result (λ o. IfSome o (λ r. IsWithin r.part whole.now)) }
    ensures few { IfOk result (λ o. IfSome o (λ r. count < row_limit)) }
{
    match few_words(line) {
        Some(words) => read_row_or_end(alloc, whole, count, last, words.as_slice()),
        None => Err(ReportFault::BadLine(count + 4)),
    }
}
