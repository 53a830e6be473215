// The rows of a start at the head of lines.
ghost use Rattle.std.specs.Prelude.{◌≡◌, ◌+◌, ◌≤◌, ◌<◌, ◌&&◌, All, IfErr, IfOk, IfSome, Some, is_some, length, map, nat_le, nat_lt};
ghost use Rattle.std.specs.List.{list_any};
ghost use Rattle.header_boxes.specs.Boxes.{IsValid};
ghost use Rattle.query_words.specs.Events.{words_of};
ghost use Rattle.report_reader.specs.Boxes.{box_of, is_inside};
ghost use Rattle.report_reader.specs.Reports.{row_limit};
ghost use Rattle.listing_reader.specs.Listings.{row_of, rows_at};
ghost use Rattle.listing_reader.specs.Reading.{IsRefused, asked_part, row_with};

use crate::Origin;
use crate::cuts::{RowTail, cut_row};
use header_boxes::{Box5, Row};
use report_reader::{ReportFault, is_inside, read_box};
use std::alloc::{AllocError, Global};
use vpc_base::OwnList;

/// How many rows of a listing are read.
const ROW_LIMIT: usize = 20_000;

// ---- a row

fn is_asked(boxes: &[Box5], part: &Box5) -> bool
    ensures { result ≡ list_any (is_inside part.now) boxes.now }
{
    boxes.iter().any(|whole| is_inside(part, whole))
}

// A box inside one of those that are asked for.
fn read_part(boxes: &[Box5], tail: &RowTail<'_>) -> Option<Box5>
    ensures value { let t = tail.now in
        result ≡ asked_part boxes.now (box_of t.proto.now t.src.now t.dst.now t.p.now t.q.now) }
    ensures valid { IfSome result IsValid }
{
    let part = read_box(tail.proto, tail.src, tail.dst, tail.p, tail.q)?;
    if is_asked(boxes, &part) {
        Some(part)
    } else {
        None
    }
}

fn own_text(alloc: Global, text: &[u8]) -> Result<OwnList<u8>, AllocError>
    ensures { IfOk result (λ own. own ≡ text.now) }
{
    Ok(OwnList::of(text.to_vec(alloc)?))
}

fn row_of_tail(
    alloc: Global,
    boxes: &[Box5],
    tail: &RowTail<'_>,
) -> Result<Option<Row<OwnList<u8>>>, AllocError>
    ensures value { let t = tail.now in IfOk result (λ row. row
        ≡ row_with t.told.now
        (asked_part boxes.now (box_of t.proto.now t.src.now t.dst.now t.p.now t.q.now))) }
    ensures valid { IfOk result (λ row. IfSome row (λ r. IsValid r.part)) }
{
    let Some(part) = read_part(boxes, tail) else {
        return Ok(None);
    };
    let word = own_text(alloc, tail.told)?;
    Ok(Some(Row { part, word }))
}

fn read_row(
    alloc: Global,
    origin: &Origin,
    number: u64,
    line: &[u8],
) -> Result<Option<Row<OwnList<u8>>>, AllocError>
    ensures value { IfOk result (λ row. row ≡ row_of origin.now number (words_of line.now)) }
    ensures valid { IfOk result (λ row. IfSome row (λ r. IsValid r.part)) }
{
    match cut_row(line, number, origin.id.as_slice()) {
        Some(tail) => row_of_tail(alloc, origin.boxes.as_slice(), &tail),
        None => Ok(None),
    }
}

// ---- one after another

// A row after so many others, unless it is one too many.
fn within_limit(
    count: usize,
    row: Row<OwnList<u8>>,
) -> Result<Option<Row<OwnList<u8>>>, ReportFault>
    ensures same { IfOk result (λ o. o ≡ Some row) }
    ensures few { IfOk result (λ o. count < row_limit) }
    ensures refused { IfErr result (IsRefused (nat_le row_limit count)) }
{
    if count < ROW_LIMIT {
        Ok(Some(row))
    } else {
        Err(ReportFault::TooManyBoxes(ROW_LIMIT as u64 + 3))
    }
}

// The row after so many others, if this line is one.
fn read_next_row(
    alloc: Global,
    origin: &Origin,
    count: usize,
    line: &[u8],
) -> Result<Option<Row<OwnList<u8>>>, ReportFault>
    requires { count ≤ row_limit }
    ensures value { IfOk result (λ row. row ≡ row_of origin.now (count + 1) (words_of line.now)) }
    ensures valid { IfOk result (λ row. IfSome row (λ r. IsValid r.part)) }
    ensures few { IfOk result (λ row. IfSome row (λ r. count < row_limit)) }
    ensures refused { let row = row_of origin.now (count + 1) (words_of line.now) in
        IfErr result (IsRefused (is_some row && nat_le row_limit count)) }
{
    match read_row(alloc, origin, count as u64 + 1, line)? {
        Some(row) => within_limit(count, row),
        None => Ok(None),
    }
}

/// The rows of a start at the head of these lines, where so many others were read before. No more are read than
/// a listing may have.
pub fn read_rows(
    alloc: Global,
    origin: &Origin,
    count: usize,
    lines: &[&[u8]],
) -> Result<OwnList<Row<OwnList<u8>>>, ReportFault>
    requires { count ≤ row_limit }
    ensures value { IfOk result (λ rows. rows ≡ rows_at origin.now (count + 1) (map (λ l. l.now) lines.now)) }
    ensures valid { IfOk result (λ rows. All (λ r. IsValid r.part) rows) }
    ensures few { IfOk result (λ rows. count + length rows ≤ row_limit) }
    ensures within { IfOk result (λ rows. length rows ≤ length lines.now) }
    ensures refused { let rows = rows_at origin.now (count + 1) (map (λ l. l.now) lines.now) in
        IfErr result (IsRefused (nat_lt row_limit (count + length rows))) }
{
    let mut rows = Vec::new(alloc);
    for (k, line) in lines.iter().enumerate() {
        match read_next_row(alloc, origin, count + k, line)? {
            Some(row) => rows.push(row)?,
            None => return Ok(OwnList::of(rows)),
        }
    }
    Ok(OwnList::of(rows))
}
