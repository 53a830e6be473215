// Prints what is found of a report.
ghost use Rattle.std.specs.Prelude.{◌≡◌, ◌++◌, OnOk, decimal};
ghost use Rattle.block_report.specs.Words.{header_text, word};
ghost use Rattle.report_check.specs.Texts.{CanBeTold, checked_line, checked_text, overlap_text, verdict_text};
ghost use Rattle.vpc_laws.specs.Sound.{IsTold};

use crate::checked::Checked;
use block_report::{put, put_end, put_header_word, put_number_word, put_told, put_word};
use reference_check::Network;
use vpc_base::{Header, NoMemory};
use vpc_model::Verdict;

fn put_verdict_word(out: &mut Vec<u8>, n: &Network, v: &Verdict) -> Result<(), NoMemory>
    requires { IsTold n.now v.now }
    ensures { OnOk result (out.new.items ≡ out.old.items ++ word (verdict_text n.now v.now)) }
{
    match v {
        Verdict::Through => put_word(out, b"through"),
        Verdict::Stopped(phase, stop) => {
            put(out, b" ")?;
            put_told(out, n, *phase, stop)
        }
    }
}

/// Appends that two rows share a header.
pub fn put_overlap(out: &mut Vec<u8>, i: u32, j: u32) -> Result<(), NoMemory>
    ensures { OnOk result (out.new.items ≡ out.old.items ++ overlap_text i j) }
{
    put(out, b"no overlap")?;
    put_number_word(out, u128::from(i))?;
    put_number_word(out, u128::from(j))
}

fn put_untrue(
    out: &mut Vec<u8>,
    n: &Network,
    i: u32,
    h: &Header,
    v: &Verdict,
) -> Result<(), NoMemory>
    requires { IsTold n.now v.now }
    ensures { OnOk result (out.new.items ≡ out.old.items
        ++ word (decimal i) ++ word (header_text h.now) ++ word (verdict_text n.now v.now)) }
{
    put_number_word(out, u128::from(i))?;
    put_header_word(out, h)?;
    put_verdict_word(out, n, v)
}

fn put_found(out: &mut Vec<u8>, n: &Network, found: &Checked) -> Result<(), NoMemory>
    requires { CanBeTold n.now found.now }
    ensures { OnOk result (out.new.items ≡ out.old.items ++ checked_text n.now found.now) }
{
    match found {
        Checked::Yes => put(out, b"yes"),
        Checked::Overlap(i, j) => put_overlap(out, *i, *j),
        Checked::Uncovered(h) => {
            put(out, b"no uncovered")?;
            put_header_word(out, h)
        }
        Checked::Untrue(i, h, v) => {
            put(out, b"no untrue")?;
            put_untrue(out, n, *i, h, v)
        }
    }
}

/// Appends the line of what is found of a report.
pub fn put_checked(out: &mut Vec<u8>, n: &Network, found: &Checked) -> Result<(), NoMemory>
    requires { CanBeTold n.now found.now }
    ensures { OnOk result (out.new.items ≡ out.old.items ++ checked_line n.now found.now) }
{
    put_found(out, n, found)?;
    put_end(out)
}
