// The lines of rows.
ghost use Rattle.std.specs.Prelude.{◌≡◌, ◌≤◌, ◌+◌, ◌++◌, All, OnOk, length};
ghost use Rattle.block_report.specs.Words.{word};
ghost use Rattle.journey_changes.specs.Telling.{CanBeTold, IsTellable};
ghost use Rattle.vpc_model.specs.Told.{end_id};
ghost use Rattle.change_report.specs.Texts.{absent_text, barrier_text, change_text, row_line, row_lines_from};

use block_report::{put, put_box_word, put_end, put_number_word, put_told, put_word};
use changed_ends::id_at;
use header_boxes::Row;
use journey_changes::{Barrier, Change};
use reference_check::Network;
use vpc_base::NoMemory;
use vpc_model::End;

// ---- what keeps a request from an end

fn put_absent(out: &mut Vec<u8>, id: &[u8]) -> Result<(), NoMemory>
    ensures { OnOk result (out.new.items ≡ out.old.items ++ absent_text id.now) }
{
    put(out, b"request Absent")?;
    put_word(out, id)?;
    put_word(out, b"-")
}

/// Appends what keeps a request from an end, where its start has this id.
pub fn put_barrier(
    out: &mut Vec<u8>,
    n: &Network,
    id: &[u8],
    barrier: &Barrier,
) -> Result<(), NoMemory>
    requires { CanBeTold n.now barrier.now }
    ensures { OnOk result (out.new.items ≡ out.old.items ++ barrier_text n.now id.now barrier.now) }
{
    match barrier {
        Barrier::Stopped(phase, stop) => put_told(out, n, *phase, stop),
        Barrier::Absent => put_absent(out, id),
    }
}

fn put_barrier_word(
    out: &mut Vec<u8>,
    n: &Network,
    id: &[u8],
    barrier: &Barrier,
) -> Result<(), NoMemory>
    requires { CanBeTold n.now barrier.now }
    ensures { OnOk result (out.new.items
        ≡ out.old.items ++ word (barrier_text n.now id.now barrier.now)) }
{
    put(out, b" ")?;
    put_barrier(out, n, id, barrier)
}

// ---- what changes

fn put_end_word(out: &mut Vec<u8>, n: &Network, end: End) -> Result<(), NoMemory>
    ensures { OnOk result (out.new.items ≡ out.old.items ++ word (end_id n.now end)) }
{
    put_word(out, id_at(n, end))
}

/// Appends what changes for a request from the start with this id.
pub fn put_change(
    out: &mut Vec<u8>,
    before: &Network,
    after: &Network,
    id: &[u8],
    change: &Change,
) -> Result<(), NoMemory>
    requires { IsTellable before.now after.now change.now }
    ensures { OnOk result (out.new.items
        ≡ out.old.items ++ change_text before.now after.now id.now change.now) }
{
    match change {
        Change::Opened(end, barrier) => {
            put(out, b"opened")?;
            put_end_word(out, after, *end)?;
            put_barrier_word(out, before, id, barrier)
        }
        Change::Closed(end, barrier) => {
            put(out, b"closed")?;
            put_end_word(out, before, *end)?;
            put_barrier_word(out, after, id, barrier)
        }
        Change::Moved(one, other) => {
            put(out, b"moved")?;
            put_end_word(out, before, *one)?;
            put_end_word(out, after, *other)
        }
    }
}

// The id of the start, and what changes.
fn put_change_of(
    out: &mut Vec<u8>,
    before: &Network,
    after: &Network,
    id: &[u8],
    change: &Change,
) -> Result<(), NoMemory>
    requires { IsTellable before.now after.now change.now }
    ensures { OnOk result (out.new.items
        ≡ out.old.items ++ (word id.now ++ word (change_text before.now after.now id.now change.now))) }
{
    put_word(out, id)?;
    put(out, b" ")?;
    put_change(out, before, after, id, change)
}

fn put_row(
    out: &mut Vec<u8>,
    before: &Network,
    after: &Network,
    number: u32,
    id: &[u8],
    row: &Row<Change>,
) -> Result<(), NoMemory>
    requires { IsTellable before.now after.now row.now.word }
    ensures { OnOk result (out.new.items
        ≡ out.old.items ++ row_line before.now after.now number id.now row.now) }
{
    put(out, b"row")?;
    put_number_word(out, u128::from(number))?;
    put_change_of(out, before, after, id, &row.word)?;
    put_box_word(out, &row.part)?;
    put_end(out)
}

/// Appends the rows of the start with this id, numbered from `first` on.
pub fn put_rows(
    out: &mut Vec<u8>,
    before: &Network,
    after: &Network,
    first: u32,
    id: &[u8],
    rows: &[Row<Change>],
) -> Result<(), NoMemory>
    requires told { All (λ row. IsTellable before.now after.now row.word) rows.now }
    requires few { first + length rows.now ≤ 20001 }
    ensures { OnOk result (out.new.items
        ≡ out.old.items ++ row_lines_from before.now after.now first id.now rows.now) }
{
    let mut number = first;
    for row in rows {
        put_row(out, before, after, number, id, row)?;
        number += 1;
    }
    Ok(())
}
