// How what is told of a flow log is printed.
ghost use Rattle.std.specs.Prelude.{◌≡◌, ◌++◌, All, IsTrue, OnOk, decimal};
ghost use Rattle.vpc_model.specs.Sound.{has_rule, has_text};
ghost use Rattle.block_report.specs.Words.{word};
ghost use Rattle.flow_check.specs.Texts.{counts_line, flow_line, flow_lines, kind_text};
ghost use Rattle.flow_check.specs.Told.{is_told};
ghost use Rattle.flow_check.specs.declared.kinds.FlowKind.TheVariants as kinds;

use crate::kinds::{FlowCounts, FlowKind, FlowLine};
use block_report::{put, put_by, put_end, put_number_word, put_stop};
use reference_check::Network;
use vpc_base::NoMemory;
use vpc_model::{By, Stop};

fn put_accepted(out: &mut Vec<u8>, n: &Network, s: &Stop) -> Result<(), NoMemory>
    requires { IsTrue (has_text n.now s.now) }
    ensures { OnOk result (out.new.items ≡ out.old.items ++ kind_text n.now (kinds.Accepted s.now)) }
{
    put(out, b" ACCEPT ")?;
    put_stop(out, n, s)
}

fn put_rejected(out: &mut Vec<u8>, n: &Network, by: &By) -> Result<(), NoMemory>
    requires { IsTrue (has_rule n.now by.now) }
    ensures { OnOk result (out.new.items ≡ out.old.items ++ kind_text n.now (kinds.Rejected by.now)) }
{
    put(out, b" REJECT")?;
    put_by(out, n, by)
}

fn put_kind(out: &mut Vec<u8>, n: &Network, kind: &FlowKind) -> Result<(), NoMemory>
    requires { IsTrue (is_told n.now kind.now) }
    ensures { OnOk result (out.new.items ≡ out.old.items ++ kind_text n.now kind.now) }
{
    match kind {
        FlowKind::Accepted(s) => put_accepted(out, n, s),
        FlowKind::Rejected(by) => put_rejected(out, n, by),
    }
}

fn put_flow_line(out: &mut Vec<u8>, n: &Network, line: &FlowLine) -> Result<(), NoMemory>
    requires { IsTrue (is_told n.now line.now.kind) }
    ensures { OnOk result (out.new.items ≡ out.old.items ++ flow_line n.now line.now) }
{
    put(out, b"line")?;
    put_number_word(out, u128::from(line.line))?;
    put_kind(out, n, &line.kind)?;
    put_end(out)
}

/// Appends a line for each line of a log that differs: what stops packets that were accepted, or by what the groups let
/// packets pass that were rejected.
pub fn put_flow_lines(out: &mut Vec<u8>, n: &Network, lines: &[FlowLine]) -> Result<(), NoMemory>
    requires { All (λ l. IsTrue (is_told n.now l.kind)) lines.now }
    ensures { OnOk result (out.new.items ≡ out.old.items ++ flow_lines n.now lines.now) }
{
    for line in lines {
        put_flow_line(out, n, line)?;
    }
    Ok(())
}

fn put_two(
    out: &mut Vec<u8>,
    first: &[u8],
    one: u64,
    second: &[u8],
    two: u64,
) -> Result<(), NoMemory>
    ensures { OnOk result (out.new.items ≡ out.old.items
        ++ (first.now ++ word (decimal one) ++ second.now ++ word (decimal two))) }
{
    put(out, first)?;
    put_number_word(out, u128::from(one))?;
    put(out, second)?;
    put_number_word(out, u128::from(two))
}

/// Appends how many lines there are of each sort.
pub fn put_counts(out: &mut Vec<u8>, differing: u64, counts: &FlowCounts) -> Result<(), NoMemory>
    ensures { OnOk result (out.new.items ≡ out.old.items ++ counts_line differing counts.now) }
{
    put_two(out, b"ok", counts.agreeing, b" differ", differing)?;
    put_two(
        out,
        b" nodata",
        counts.nodata,
        b" skipdata",
        counts.skipdata,
    )?;
    put_two(
        out,
        b" unknown",
        counts.unknown,
        b" skipped",
        counts.skipped,
    )?;
    put_end(out)
}
