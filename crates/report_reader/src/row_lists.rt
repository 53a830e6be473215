// The rows of a report, one a line.
ghost use Rattle.std.specs.Prelude.{◌≡◌, ◌+◌, ◌≤◌, ◌<◌, ◌==◌, ◌&&◌, All, IfOk, length, map};
ghost use Rattle.header_boxes.specs.Boxes.{IsWithin};
ghost use Rattle.report_reader.specs.Reports.{IsRead, row_limit, rows_from};

use crate::ReportFault;
use crate::row_lines::read_next_row;
use header_boxes::{Box5, Row};
use std::alloc::Global;
use vpc_base::OwnList;
use vpc_model::StopText;

/// Whether nothing comes after the line with this number, from 0.
pub fn is_last(k: usize, lines: usize, ended: bool) -> bool
    requires { k < lines }
    ensures { result ≡ ((k + 1 == lines) && ended) }
{
    k + 1 == lines && ended
}

/// The rows on these lines up to the end of the report. `ended` says whether the last line is the text's.
pub fn read_rows(
    alloc: Global,
    whole: &Box5,
    ended: bool,
    lines: &[&[u8]],
) -> Result<OwnList<Row<StopText>>, ReportFault>
    ensures value { IsRead (rows_from whole.now ended 0 (map (λ l. l.now) lines.now)) result }
    ensures within { IfOk result (λ rows. All (λ r. IsWithin r.part whole.now) rows) }
    ensures few { IfOk result (λ rows. length rows ≤ row_limit) }
{
    let mut rows = Vec::new(alloc);
    for (k, line) in lines.iter().enumerate() {
        let last = is_last(k, lines.len(), ended);
        match read_next_row(alloc, whole, k as u64, last, line)? {
            Some(row) => rows.push(row)?,
            None => return Ok(OwnList::of(rows)),
        }
    }
    Err(ReportFault::BadLine(lines.len() as u64 + 4))
}
