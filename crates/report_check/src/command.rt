// The command `check`.
ghost use Rattle.std.specs.Prelude.{◌≡◌};

use crate::checks::check_bytes;
use command_job::{Answer, TwoFiles, refuse_file};
use reference_check::Network;
use std::alloc::Global;
use vpc_base::NoMemory;

/// `check FILE REPORT`: whether a report about a query is true.
#[derive(Clone, Copy)]
pub struct CheckCommand;

impl TwoFiles for CheckCommand {
    ghost use Rattle.report_check.specs.Certified.{IsCheckedFrom, report_refusal_line};

    ghost refusal = { λ c. report_refusal_line };

    ghost answers = { λ c. IsCheckedFrom };

    fn refuse(&self, alloc: Global, cause: &[u8]) -> Result<Answer, NoMemory> {
        refuse_file(alloc, b"report", cause)
    }

    fn answer(&self, alloc: Global, network: Network, bytes: &[u8]) -> Result<Answer, NoMemory> {
        check_bytes(alloc, network, bytes)
    }
}
