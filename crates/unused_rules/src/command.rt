// The command `unused`.
ghost use Rattle.std.specs.Prelude.{◌≤◌};

use crate::answer::unused;
use command_job::{Answer, OneFile};
use reference_check::Network;
use std::alloc::Global;
use vpc_base::NoMemory;

/// `unused FILE from END to END` with the pairs of a query: rules that decide nothing.
#[derive(Clone, Copy)]
pub struct UnusedCommand;

impl OneFile for UnusedCommand {
    ghost use Rattle.unused_rules.specs.Answered.{IsUnusedAnswered};

    ghost counts = { λ c n. 6 ≤ n };

    ghost answers = { λ c words d. IsUnusedAnswered d words };

    fn answer(
        &self,
        alloc: Global,
        network: Network,
        words: &[String],
    ) -> Result<Answer, NoMemory> {
        unused(alloc, network, words)
    }
}
