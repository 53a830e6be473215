// The command `ask`.
ghost use Rattle.std.specs.Prelude.{◌≤◌};

use crate::asks::ask;
use command_job::{Answer, OneFile};
use reference_check::Network;
use std::alloc::Global;
use vpc_base::NoMemory;

/// `ask FILE from END to END` and pairs: the first request that gets through, or what stops every one.
#[derive(Clone, Copy)]
pub struct AskCommand;

impl OneFile for AskCommand {
    ghost use Rattle.network_reach.specs.Asked.{IsAsked};

    ghost counts = { λ c n. 6 ≤ n };

    ghost answers = { λ c words d. IsAsked d words };

    fn answer(
        &self,
        alloc: Global,
        network: Network,
        words: &[String],
    ) -> Result<Answer, NoMemory> {
        ask(alloc, network, words)
    }
}
