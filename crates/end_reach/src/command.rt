// The command `reach`.
ghost use Rattle.std.specs.Prelude.{◌≤◌};

use crate::answers::reach;
use command_job::{Answer, OneFile};
use reference_check::Network;
use std::alloc::Global;
use vpc_base::NoMemory;

/// `reach FILE` and pairs: the boxes of requests that get through, each with its start and the end that it reaches.
#[derive(Clone, Copy)]
pub struct ReachCommand;

impl OneFile for ReachCommand {
    ghost use Rattle.end_reach.specs.Answered.{IsReachAnswered};

    ghost counts = { λ c n. 2 ≤ n };

    ghost answers = { λ c words d. IsReachAnswered d words };

    fn answer(
        &self,
        alloc: Global,
        network: Network,
        words: &[String],
    ) -> Result<Answer, NoMemory> {
        reach(alloc, network, words)
    }
}
