// Prints what is found of rules.
ghost use Rattle.std.specs.Prelude.{◌≡◌, ◌++◌, OnOk};
ghost use Rattle.policy_check.specs.Judged.{CanBeTold, HasText, IsFailureTold, failure_line, failure_text, finding_line, halt_text, unknown_line, unknown_text};
ghost use Rattle.policy_check.specs.Policy.{count_text, tally_line};

use crate::counts::Tally;
use crate::halts::Halt;
use crate::judging::{Failure, Finding};
use block_report::{put, put_end, put_header_word, put_number_word, put_told};
use reference_check::Network;
use vpc_base::NoMemory;

// ---- a rule that fails, or isn't known

fn put_halt(out: &mut Vec<u8>, n: &Network, halt: &Halt) -> Result<(), NoMemory>
    requires { HasText n.now halt.now }
    ensures { OnOk result (out.new.items ≡ out.old.items ++ halt_text n.now halt.now) }
{
    put_told(out, n, halt.phase, &halt.stop)?;
    put_header_word(out, &halt.header)
}

fn put_failure(out: &mut Vec<u8>, n: &Network, failure: &Failure) -> Result<(), NoMemory>
    requires { IsFailureTold n.now failure.now }
    ensures { OnOk result (out.new.items ≡ out.old.items ++ failure_text n.now failure.now) }
{
    match failure {
        Failure::NoneThrough => put(out, b"blocked"),
        Failure::Through(h) => {
            put(out, b"reachable")?;
            put_header_word(out, h)
        }
        Failure::Stopped(halt) => put_halt(out, n, halt),
    }
}

// The line that tells why a rule fails, by the number of its line.
fn put_failure_line(
    out: &mut Vec<u8>,
    n: &Network,
    number: u64,
    failure: &Failure,
) -> Result<(), NoMemory>
    requires { IsFailureTold n.now failure.now }
    ensures { OnOk result (out.new.items ≡ out.old.items ++ failure_line n.now number failure.now) }
{
    put(out, b"line")?;
    put_number_word(out, u128::from(number))?;
    put(out, b" ")?;
    put_failure(out, n, failure)?;
    put_end(out)
}

#[tactic(auto, unfolding(crate::specs::Judged::unknown_text))]
fn put_unknown(out: &mut Vec<u8>, n: &Network, halt: &Halt) -> Result<(), NoMemory>
    requires { HasText n.now halt.now }
    ensures { OnOk result (out.new.items ≡ out.old.items ++ unknown_text n.now halt.now) }
{
    put(out, b"unknown")?;
    put(out, b" ")?;
    put_halt(out, n, halt)
}

// The line that tells that a rule isn't known, by the number of its line.
fn put_unknown_line(
    out: &mut Vec<u8>,
    n: &Network,
    number: u64,
    halt: &Halt,
) -> Result<(), NoMemory>
    requires { HasText n.now halt.now }
    ensures { OnOk result (out.new.items ≡ out.old.items ++ unknown_line n.now number halt.now) }
{
    put(out, b"line")?;
    put_number_word(out, u128::from(number))?;
    put(out, b" ")?;
    put_unknown(out, n, halt)?;
    put_end(out)
}

/// Appends the line of a rule, by the number of its line: nothing where it holds.
pub fn put_finding(
    out: &mut Vec<u8>,
    n: &Network,
    number: u64,
    finding: &Finding,
) -> Result<(), NoMemory>
    requires { CanBeTold n.now finding.now }
    ensures { OnOk result (out.new.items ≡ out.old.items ++ finding_line n.now number finding.now) }
{
    match finding {
        Finding::Held => Ok(()),
        Finding::Failed(failure) => put_failure_line(out, n, number, failure),
        Finding::NotKnown(halt) => put_unknown_line(out, n, number, halt),
    }
}

// ---- the last line

fn put_count(out: &mut Vec<u8>, name: &[u8], count: usize) -> Result<(), NoMemory>
    ensures { OnOk result (out.new.items ≡ out.old.items ++ count_text name.now count) }
{
    put(out, name)?;
    put_number_word(out, count as u128)
}

/// Appends how many rules hold, how many fail, and of how many it isn't known.
pub fn put_tally(out: &mut Vec<u8>, tally: &Tally) -> Result<(), NoMemory>
    ensures { OnOk result (out.new.items ≡ out.old.items ++ tally_line tally.now) }
{
    put_count(out, b"ok", tally.hold)?;
    put_count(out, b" fail", tally.fail)?;
    put_count(out, b" unknown", tally.unknown)?;
    put_end(out)
}
