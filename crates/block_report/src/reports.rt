// Reports: a query with its rows.
ghost use Rattle.std.specs.Prelude.{◌≡◌, ◌++◌, All, IfOk, IsTrue, OnOk};
ghost use Rattle.block_report.specs.Reports.{AreIds, HasIds, HaveText, box_line, ends_line, more_text, query_text, report_text, row_line, row_lines_from, told_row, told_rows};
ghost use Rattle.block_report.specs.Walks.{told_text};
ghost use Rattle.block_report.specs.Words.{word};
ghost use Rattle.vpc_model.specs.Sound.{has_text, is_end};

use crate::boxes::put_box_word;
use crate::places::end_id;
use crate::walks::put_told;
use crate::words::{
    put, put_end, put_header_line, put_line, put_number_line, put_number_word, put_word,
};
use header_boxes::{Box5, Row};
use reference_check::Network;
use std::alloc::Global;
use vpc_base::{Header, NoMemory};
use vpc_model::{End, Phase, Stop};

// ---- rows

pub fn put_box_line(out: &mut Vec<u8>, b: &Box5) -> Result<(), NoMemory>
    ensures { OnOk result (out.new.items ≡ out.old.items ++ box_line b.now) }
{
    put(out, b"box")?;
    put_box_word(out, b)?;
    put_end(out)
}

// What is told of the stop of a row.
fn put_told_word(out: &mut Vec<u8>, n: &Network, row: &Row<(Phase, Stop)>) -> Result<(), NoMemory>
    requires { IsTrue (has_text n.now row.now.word.1) }
    ensures text { let told = told_row n.now row.now in
        OnOk result (out.new.items ≡ out.old.items ++ word (told_text told.word)) }
    ensures ids { OnOk result (HasIds (told_row n.now row.now)) }
{
    put(out, b" ")?;
    put_told(out, n, row.word.0, &row.word.1)
}

// The line of a row with this number, from 1.
fn put_row(
    out: &mut Vec<u8>,
    n: &Network,
    number: u128,
    row: &Row<(Phase, Stop)>,
) -> Result<(), NoMemory>
    requires { IsTrue (has_text n.now row.now.word.1) }
    ensures text { OnOk result (out.new.items ≡ out.old.items ++ row_line number (told_row n.now row.now)) }
    ensures ids { OnOk result (HasIds (told_row n.now row.now)) }
{
    put(out, b"row")?;
    put_number_word(out, number)?;
    put_told_word(out, n, row)?;
    put_box_word(out, &row.part)?;
    put_end(out)
}

// The rows with their numbers, from 1.
fn put_rows(out: &mut Vec<u8>, n: &Network, rows: &[Row<(Phase, Stop)>]) -> Result<(), NoMemory>
    requires { HaveText n.now rows.now }
    ensures text { let told = told_rows n.now rows.now in
        OnOk result (out.new.items ≡ out.old.items ++ row_lines_from 1 told) }
    ensures ids { OnOk result (All HasIds (told_rows n.now rows.now)) }
{
    let mut number = 1;
    for row in rows {
        put_row(out, n, number, row)?;
        number += 1;
    }
    Ok(())
}

// ---- reports

pub fn put_ends_line(out: &mut Vec<u8>, start: &[u8], goal: &[u8]) -> Result<(), NoMemory>
    ensures { OnOk result (out.new.items ≡ out.old.items ++ ends_line start.now goal.now) }
{
    put(out, b"query from")?;
    put_word(out, start)?;
    put_word(out, b"to")?;
    put_word(out, goal)?;
    put_end(out)
}

// A query by the ids of its ends, with its box and its rows.
fn put_query(
    out: &mut Vec<u8>,
    n: &Network,
    start: &[u8],
    goal: &[u8],
    sides: &Box5,
    rows: &[Row<(Phase, Stop)>],
) -> Result<(), NoMemory>
    requires { HaveText n.now rows.now }
    ensures text { let told = told_rows n.now rows.now in
        OnOk result (out.new.items ≡ out.old.items ++ query_text start.now goal.now sides.now told) }
    ensures ids { OnOk result (All HasIds (told_rows n.now rows.now)) }
{
    put_ends_line(out, start, goal)?;
    put_box_line(out, sides)?;
    put_rows(out, n, rows)
}

/// The report about a query from one end to another: rows that hold every header of its box, each with
/// what stops them.
pub fn print_report(
    alloc: Global,
    n: &Network,
    start: End,
    goal: End,
    sides: &Box5,
    rows: &[Row<(Phase, Stop)>],
) -> Result<Vec<u8>, NoMemory>
    requires start { IsTrue (is_end n.now start) }
    requires goal { IsTrue (is_end n.now goal) }
    requires rows { HaveText n.now rows.now }
    ensures text { let told = told_rows n.now rows.now in
        IfOk result (λ text. text.items ≡ report_text n.now start goal sides.now told) }
    ensures ids { IfOk result (λ text. AreIds n.now start goal (told_rows n.now rows.now)) }
{
    let mut out = Vec::new(alloc);
    put_line(&mut out, b"vpc-report 1")?;
    put_query(
        &mut out,
        n,
        end_id(n, &start),
        end_id(n, &goal),
        sides,
        rows,
    )?;
    put_number_line(&mut out, b"end", rows.len() as u128)?;
    Ok(out)
}

/// Rows of a query that leave headers of its box out, with the first of these and the number of cells
/// that the cuts make of the box.
pub fn print_more(
    alloc: Global,
    n: &Network,
    start: End,
    goal: End,
    sides: &Box5,
    rows: &[Row<(Phase, Stop)>],
    next: &Header,
    cells: u128,
) -> Result<Vec<u8>, NoMemory>
    requires start { IsTrue (is_end n.now start) }
    requires goal { IsTrue (is_end n.now goal) }
    requires rows { HaveText n.now rows.now }
    ensures { let told = told_rows n.now rows.now in
        IfOk result (λ text. text.items ≡ more_text n.now start goal sides.now told next.now cells) }
{
    let mut out = Vec::new(alloc);
    put_line(&mut out, b"more boxes")?;
    put_query(
        &mut out,
        n,
        end_id(n, &start),
        end_id(n, &goal),
        sides,
        rows,
    )?;
    put_header_line(&mut out, b"next", next)?;
    put_number_line(&mut out, b"cells", cells)?;
    Ok(out)
}
