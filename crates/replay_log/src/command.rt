// The command `replay`.
ghost use Rattle.std.specs.Prelude.{◌≡◌};

use crate::played::replay_bytes;
use command_job::{Answer, TwoFiles, refuse_file};
use reference_check::Network;
use std::alloc::Global;
use vpc_base::NoMemory;

/// `replay FILE EVENTS`: how packets end that come one after another.
#[derive(Clone, Copy)]
pub struct ReplayCommand;

impl TwoFiles for ReplayCommand {
    ghost use Rattle.replay_log.specs.Replayed.{IsReplayedFrom, events_refusal_line};

    ghost refusal = { λ c. events_refusal_line };

    ghost answers = { λ c. IsReplayedFrom };

    fn refuse(&self, alloc: Global, cause: &[u8]) -> Result<Answer, NoMemory> {
        refuse_file(alloc, b"events", cause)
    }

    fn answer(&self, alloc: Global, network: Network, bytes: &[u8]) -> Result<Answer, NoMemory> {
        replay_bytes(alloc, network, bytes)
    }
}
