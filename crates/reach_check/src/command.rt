// The command `check`.
ghost use Rattle.std.specs.Prelude.{◌≡◌, IfOk};
ghost use Rattle.reach_check.specs.Texts.{IsTextChecked};

use crate::reaches::check_reach;
use command_job::{Answer, TwoFiles};
use listing_check::begins_with;
use reference_check::Network;
use report_check::CheckCommand as ReportCommand;
use std::alloc::Global;
use std::mem;
use vpc_base::NoMemory;

// What is answered to a second file, by its first line: to what `reach` prints, or to a report of `ask`.
fn check_text(alloc: Global, network: Network, bytes: &[u8]) -> Result<Answer, NoMemory>
    ensures { IfOk result (λ a. IsTextChecked network bytes.now a.status a.text.items) }
{
    match begins_with(alloc, b"vpc-reach 1", bytes) {
        Ok(true) => check_reach(alloc, network, bytes),
        Ok(false) => ReportCommand.answer(alloc, network, bytes),
        Err(no_memory) => {
            mem::forget(network);
            Err(no_memory)
        }
    }
}

/// `check FILE REPORT` and `check FILE REACH`: whether a report about a query, or a listing of what gets through, is true and
/// holds all that is to be told.
#[derive(Clone, Copy)]
pub struct CheckCommand;

impl TwoFiles for CheckCommand {
    ghost use Rattle.report_check.specs.Certified.{report_refusal_line};
    ghost use Rattle.reach_check.specs.Texts.{IsTextChecked};

    ghost refusal = { λ c. report_refusal_line };

    ghost answers = { λ c. IsTextChecked };

    fn refuse(&self, alloc: Global, cause: &[u8]) -> Result<Answer, NoMemory> {
        ReportCommand.refuse(alloc, cause)
    }

    fn answer(&self, alloc: Global, network: Network, bytes: &[u8]) -> Result<Answer, NoMemory> {
        check_text(alloc, network, bytes)
    }
}
