// Bundles and reports that are cut or damaged anywhere.
use crate::commands::{BLOCKED, CHECK, TRACE};
use crate::devices::{answers, shelf_of};
use crate::networks::{ONE_SUBNET, OWN_ACL};
use std::alloc::Global;
use std::process::Abort;
use std::test::Fail;

fn refuses_text(rt: &impl Abort, alloc: Global, bundle: &[u8]) -> Result<(), Fail> {
    let mut shelf = shelf_of(alloc, bundle, b"", 0)?;
    let text = "refused description NotJson\n";
    answers(rt, alloc, TRACE, &mut shelf, 3, text)
}

// A byte of no text in place of the one at this number.
fn refuses_byte(rt: &impl Abort, alloc: Global, at: usize) -> Result<(), Fail> {
    let mut other = ONE_SUBNET.as_bytes().to_vec(alloc)?;
    if at < other.len() {
        other[at] = 0xFF;
    }
    refuses_text(rt, alloc, other.as_slice())
}

// Cut off before any byte, or with a byte of no text in place of any one, those of ids among them.
#[test]
fn refuses_cut_bundles(rt: HostRuntime) -> Result<(), Fail> {
    let whole = ONE_SUBNET.as_bytes();
    for at in 0..whole.len() {
        refuses_text(&rt, rt.alloc(), &whole[..at])?;
        refuses_byte(&rt, rt.alloc(), at)?;
    }
    Ok(())
}

// Two rows with one word.
const TWO_ROWS: &str = "\
vpc-report 1
query from eni-a to eni-b
box 6-6 10.0.1.10-10.0.1.10 10.0.2.20-10.0.2.20 0-32767 443-443
row 1 reply AclOut acl-b 32767 6-6 10.0.1.10-10.0.1.10 10.0.2.20-10.0.2.20 0-1023 443-443
row 2 reply AclOut acl-b 32767 6-6 10.0.1.10-10.0.1.10 10.0.2.20-10.0.2.20 1024-32767 443-443
end 2
";

fn refuses_report(
    rt: &impl Abort,
    alloc: Global,
    bundle: &str,
    report: &[u8],
    line: u64,
) -> Result<(), Fail> {
    let mut shelf = shelf_of(alloc, bundle.as_bytes(), report, 0)?;
    let text = format!(in alloc; "refused report {line}\n")?;
    answers(rt, alloc, CHECK, &mut shelf, 4, text.as_str())
}

// The first line that isn't whole is named; of the whole report nothing is missing.
fn refuses_cuts(rt: &impl Abort, alloc: Global, bundle: &str, report: &str) -> Result<(), Fail> {
    let whole = report.as_bytes();
    let mut line = 1u64;
    for at in 0..whole.len() {
        refuses_report(rt, alloc, bundle, &whole[..at], line)?;
        if whole[at] == b'\n' {
            line = line.saturating_add(1);
        }
    }
    let mut shelf = shelf_of(alloc, bundle.as_bytes(), whole, 0)?;
    answers(rt, alloc, CHECK, &mut shelf, 0, "yes\n")
}

#[test]
fn refuses_cut_reports(rt: HostRuntime) -> Result<(), Fail> {
    refuses_cuts(&rt, rt.alloc(), ONE_SUBNET, BLOCKED)?;
    refuses_cuts(&rt, rt.alloc(), OWN_ACL, TWO_ROWS)
}
