// The rows of all starts.
ghost use Rattle.std.specs.Prelude.{◌≡◌, ◌≤◌, ◌+◌, ◌-◌, ◌++◌, All, IfOk, OnOk, length};
ghost use Rattle.journey_changes.specs.Telling.{IsTellable};
ghost use Rattle.listing_text.specs.Bodies.{IsAdded, IsBody};
ghost use Rattle.query_words.specs.ChangeQuery.{IsChangedEnd};
ghost use Rattle.query_words.specs.ReachQuery.{AreReachPairs};
ghost use Rattle.changed_ends.specs.Asked.{AreTargets, HasEnds};
ghost use Rattle.change_report.specs.Texts.{lines_at};
ghost use Rattle.change_report.specs.Told.{wanted};
ghost use Rattle.change_report.specs.Walked.{AreWalksOf};

use crate::gathered::{Asked, gather_at, walks_of};
use crate::rows::put_rows;
use box_gather::Gathered;
use changed_ends::{Compared, changed_id};
use header_boxes::Row;
use journey_changes::{Change, ChangeProbe};
use query_words::ChangedEnd;
use std::alloc::Global;
use vpc_base::{Header, NoMemory};

/// The lines of rows, how many there are, and where rows are left out the first header that is, with its start.
#[derive(Drop)]
pub struct Body {
    pub text: Vec<u8>,
    pub count: u32,
    pub next: Option<(ChangedEnd, Header)>,
}

// Adds the lines of rows.
fn add_rows(
    body: &mut Body,
    compared: &Compared,
    start: &ChangedEnd,
    rows: &[Row<Change>],
) -> Result<(), NoMemory>
    requires told { All (λ row. IsTellable compared.now.before compared.now.after row.word) rows.now }
    requires few { body.old.count + length rows.now ≤ 20000 }
    ensures lines { OnOk result (body.new.text.items
        ≡ body.old.text.items ++ lines_at compared.now (body.old.count + 1) start.now rows.now) }
    ensures count { OnOk result (body.new.count ≡ body.old.count + length rows.now) }
    ensures next { OnOk result (body.new.next ≡ body.old.next) }
{
    let before = compared.before();
    let after = compared.after();
    let id = changed_id(before, after, start);
    put_rows(&mut body.text, before, after, body.count + 1, id, rows)?;
    body.count += rows.len() as u32;
    Ok(())
}

// How many rows are still asked for.
fn room_after(compared: &Compared, count: u32) -> u32
    requires { count ≤ compared.now.query.pairs.max }
    ensures { result ≡ compared.now.query.pairs.max - count }
{
    compared.query().pairs.max - count
}

// Adds what is gathered from a start.
fn add_start(
    alloc: Global,
    compared: &Compared,
    walks: &mut ChangeProbe,
    targets: &[(u32, u32)],
    start: ChangedEnd,
    body: &mut Body,
) -> Result<(), NoMemory>
    requires walks { AreWalksOf compared.now walks.old.before.sent walks.old.after.sent }
    requires ends { HasEnds compared.now }
    requires pairs { AreReachPairs compared.now.query.pairs }
    requires targets { AreTargets compared.now targets.now }
    requires start { IsChangedEnd compared.now.before compared.now.after start }
    requires few { body.old.count ≤ compared.now.query.pairs.max }
    ensures added { OnOk result (IsAdded (wanted compared.now targets.now) (lines_at compared.now) start
        body.old.text.items body.old.count body.old.next body.new.text.items body.new.count body.new.next) }
    ensures walks { AreWalksOf compared.now walks.new.before.sent walks.new.after.sent }
{
    let room = room_after(compared, body.count);
    // That the networks are accepted is a clause of these calls.
    let _ = compared.before().description();
    let _ = compared.after().description();
    match gather_at(alloc, compared, walks, targets, start, room)? {
        Gathered::All(rows) => add_rows(body, compared, &start, rows.as_slice()),
        Gathered::More(rows, next) => {
            add_rows(body, compared, &start, rows.as_slice())?;
            body.next = Some((start, next));
            Ok(())
        }
    }
}

// The rows of all starts, by walks that are turned to each.
fn body_by(
    alloc: Global,
    compared: &Compared,
    walks: &mut ChangeProbe,
    targets: &[(u32, u32)],
    starts: &[ChangedEnd],
) -> Result<Body, NoMemory>
    requires walks { AreWalksOf compared.now walks.old.before.sent walks.old.after.sent }
    requires ends { HasEnds compared.now }
    requires pairs { AreReachPairs compared.now.query.pairs }
    requires targets { AreTargets compared.now targets.now }
    requires starts { All (IsChangedEnd compared.now.before compared.now.after) starts.now }
    ensures { IfOk result (λ b. IsBody (wanted compared.now targets.now) (lines_at compared.now) starts.now
        b.text.items b.count b.next) }
{
    let mut body = Body {
        text: Vec::new(alloc),
        count: 0,
        next: None,
    };
    for start in starts {
        add_start(alloc, compared, walks, targets, *start, &mut body)?;
        if body.next.is_some() {
            return Ok(body);
        }
    }
    Ok(body)
}

/// The rows of all starts, not more than asked for.
pub fn body_of(
    alloc: Global,
    asked: &Asked,
    targets: &[(u32, u32)],
    starts: &[ChangedEnd],
) -> Result<Body, NoMemory>
    requires ends { HasEnds asked.now.compared }
    requires pairs { AreReachPairs asked.now.compared.query.pairs }
    requires targets { AreTargets asked.now.compared targets.now }
    requires starts { All (IsChangedEnd asked.now.compared.before asked.now.compared.after) starts.now }
    ensures { IfOk result (λ b.
        IsBody (wanted asked.now.compared targets.now) (lines_at asked.now.compared) starts.now
        b.text.items b.count b.next) }
{
    let mut walks = walks_of(asked);
    body_by(alloc, &asked.compared, &mut walks, targets, starts)
}
