// The command `trace`.
ghost use Rattle.std.specs.Prelude.{◌≡◌};

use crate::traces::trace;
use command_job::{Answer, OneFile};
use reference_check::Network;
use std::alloc::Global;
use vpc_base::NoMemory;

/// `trace FILE LABEL from END PROTO SRC DST P Q`: the walk of the packet, with nothing remembered before it.
#[derive(Clone, Copy)]
pub struct TraceCommand;

impl OneFile for TraceCommand {
    ghost use Rattle.packet_trace.specs.Traced.{IsTraced};

    ghost counts = { λ c n. n ≡ 10 };

    ghost answers = { λ c words d. IsTraced d words };

    fn answer(
        &self,
        alloc: Global,
        network: Network,
        words: &[String],
    ) -> Result<Answer, NoMemory> {
        trace(alloc, network, words)
    }
}
