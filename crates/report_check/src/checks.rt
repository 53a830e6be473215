// What `check` answers.
ghost use Rattle.std.specs.Prelude.{◌≡◌, IfOk};
ghost use Rattle.report_check.specs.Texts.{CanBeTold, checked_line};
ghost use Rattle.report_reader.specs.Reports.{IsSoundReport};
ghost use Rattle.report_check.specs.Certified.{IsCheckedFrom, IsFaultTold, IsVerdict, checked_status, report_refusal_line, too_many_text};

use crate::checked::{Checked, check};
use crate::texts::put_checked;
use appliances::Deciders;
use block_report::{put, put_number_word};
use command_job::{Answer, Job, Status, answer_job, refuse_file, refuse_line};
use fabric::Fabric;
use reference_check::Network;
use report_reader::{Report, ReportFault, read_report};
use std::alloc::Global;
use std::mem;
use vpc_base::NoMemory;

fn status_of(found: &Checked) -> Status
    ensures { result ≡ checked_status found.now }
{
    match found {
        Checked::Yes => Status::Yes,
        Checked::Overlap(_, _) => Status::No,
        Checked::Uncovered(_) => Status::No,
        Checked::Untrue(_, _, _) => Status::No,
    }
}

fn answer_checked(alloc: Global, n: &Network, found: &Checked) -> Result<Answer, NoMemory>
    requires { CanBeTold n.now found.now }
    ensures status { IfOk result (λ a. a.status ≡ checked_status found.now) }
    ensures text { IfOk result (λ a. a.text.items ≡ checked_line n.now found.now) }
{
    let mut text = Vec::new(alloc);
    put_checked(&mut text, n, found)?;
    Ok(Answer {
        status: status_of(found),
        text,
    })
}

// What is found of a report.
#[derive(Drop)]
struct Checking<'a> {
    report: &'a Report,
}

impl<'a> Job for Checking<'a> {
    ghost fits = { λ j d. IsSoundReport d j.report.now };

    ghost answers = { λ j d. IsVerdict d j.report.now };

    fn answer_with(
        &self,
        alloc: Global,
        f: &Fabric,
        deciders: &Deciders,
    ) -> Result<Answer, NoMemory> {
        let found = check(alloc, f, deciders, self.report)?;
        answer_checked(alloc, f.network(), &found)
    }
}

fn refuse_too_many(alloc: Global, number: u64) -> Result<Answer, NoMemory>
    ensures { IfOk result (λ a. (a.status ≡ Status.Query)
        × (a.text.items ≡ report_refusal_line (too_many_text number))) }
{
    let mut cause = Vec::new(alloc);
    put(&mut cause, b"TooManyBoxes")?;
    put_number_word(&mut cause, u128::from(number))?;
    refuse_file(alloc, b"report", cause.as_slice())
}

/// Refuses a report, or a listing, for what is wrong with its lines.
pub fn refuse_fault(alloc: Global, fault: ReportFault) -> Result<Answer, NoMemory>
    ensures { IfOk result (λ a. IsFaultTold fault a.status a.text.items) }
{
    match fault {
        ReportFault::BadLine(number) => refuse_line(alloc, b"report", number),
        ReportFault::TooManyBoxes(number) => refuse_too_many(alloc, number),
        ReportFault::Memory => Err(NoMemory),
    }
}

/// What is found of the report that the bytes give.
pub fn check_bytes(alloc: Global, network: Network, bytes: &[u8]) -> Result<Answer, NoMemory>
    ensures { IfOk result (λ a. IsCheckedFrom network bytes.now a.status a.text.items) }
{
    match read_report(alloc, &network, bytes) {
        Ok(report) => answer_job(alloc, network, &Checking { report: &report }),
        Err(fault) => {
            mem::forget(network);
            refuse_fault(alloc, fault)
        }
    }
}
