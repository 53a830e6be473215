// The command `diff`.
ghost use Rattle.std.specs.Prelude.{◌≤◌};

use crate::answers::diff;
use command_job::{Answer, TwoNetworks};
use reference_check::Network;
use std::alloc::Global;
use vpc_base::NoMemory;

/// `diff BEFORE AFTER` and pairs: the boxes of requests for which something changes, each with its start and what does.
#[derive(Clone, Copy)]
pub struct DiffCommand;

impl TwoNetworks for DiffCommand {
    ghost use Rattle.change_report.specs.Answered.{IsDiffAnswered};

    ghost counts = { λ c n. 3 ≤ n };

    ghost answers = { λ c words before after. IsDiffAnswered before after words };

    fn answer(
        &self,
        alloc: Global,
        before: Network,
        after: Network,
        words: &[String],
    ) -> Result<Answer, NoMemory> {
        diff(alloc, before, after, words)
    }
}
