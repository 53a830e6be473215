// A whole flow log against the rules.
ghost use Rattle.std.specs.Prelude.{◌≡◌, ◌^◌, All, IfOk, IsTrue, OnOk};
ghost use Rattle.flow_check.specs.Flows.{AreFlows, flows_of, told_by};
ghost use Rattle.flow_check.specs.Steps.{AreBelow, IsAfter, added, after_line, counted, joined, no_lines};
ghost use Rattle.flow_check.specs.Told.{is_told};

use crate::kinds::{FlowAnswer, FlowCounts, FlowFault, FlowLine};
use crate::lines::{after_names, first_line};
use crate::records::read_record;
use crate::sorts::{Sort, sort_of};
use fabric::Fabric;
use std::alloc::{AllocError, Global};

fn no_lines(alloc: Global) -> FlowAnswer
    ensures { told_by result ≡ no_lines }
{
    FlowAnswer {
        differing: Vec::new(alloc),
        counts: FlowCounts {
            agreeing: 0,
            nodata: 0,
            skipdata: 0,
            unknown: 0,
            skipped: 0,
        },
    }
}

fn count(counts: &mut FlowCounts, sort: &Sort)
    requires { AreBelow (2 ^ 63) counts.old }
    ensures { counts.new ≡ counted counts.old sort.now }
{
    match sort {
        Sort::NoData => counts.nodata += 1,
        Sort::SkipData => counts.skipdata += 1,
        Sort::Unknown => counts.unknown += 1,
        Sort::Skipped => counts.skipped += 1,
        Sort::Agrees => counts.agreeing += 1,
        Sort::Differs(_) => {}
    }
}

// Keeps a line that differs.
fn join(lines: &mut Vec<FlowLine>, line: u64, sort: &Sort) -> Result<(), AllocError>
    ensures { OnOk result (lines.new.items ≡ joined lines.old.items line sort.now) }
{
    if let Sort::Differs(kind) = sort {
        lines.push(FlowLine { line, kind: *kind })?;
    }
    Ok(())
}

fn add(answer: &mut FlowAnswer, number: u64, sort: &Sort) -> Result<(), AllocError>
    requires { AreBelow (2 ^ 63) answer.old.counts }
    ensures { OnOk result (told_by answer.new ≡ added (told_by answer.old) number sort.now) }
{
    count(&mut answer.counts, sort);
    join(&mut answer.differing, number, sort)
}

// Adds what becomes of a line with this number.
fn add_line(f: &Fabric, answer: &mut FlowAnswer, number: u64, line: &[u8]) -> Result<(), FlowFault>
    requires { AreBelow (2 ^ 63) answer.old.counts }
    ensures { IsAfter (after_line f.now (told_by answer.old) number line.now) answer.new result }
{
    match read_record(line) {
        Some(record) => {
            add(answer, number, &sort_of(f, &record))?;
            Ok(())
        }
        None => Err(FlowFault::BadLine(number)),
    }
}

/// What the rules say of each line of a flow log, version 2 in the default format. It takes memory for the lines that
/// differ alone, and time linear in the text.
pub fn flows(alloc: Global, f: &Fabric, text: &[u8]) -> Result<FlowAnswer, FlowFault>
    ensures flows { AreFlows (flows_of f.now text.now) result }
    ensures told { IfOk result (λ a. All (λ l. IsTrue (is_told f.now l.kind)) a.differing.items) }
{
    let _ = f.network().description();
    let (mut rest, mut number) = after_names(text);
    let mut answer = no_lines(alloc);
    while rest.len() != 0 {
        let (line, after) = first_line(rest);
        match add_line(f, &mut answer, number, line) {
            Ok(()) => {}
            Err(fault) => return Err(fault),
        }
        rest = after;
        number += 1;
    }
    Ok(answer)
}
