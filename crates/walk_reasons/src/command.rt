// The command `why`.
ghost use Rattle.std.specs.Prelude.{◌≡◌};

use crate::answer::why;
use command_job::{Answer, OneFile};
use reference_check::Network;
use std::alloc::Global;
use vpc_base::NoMemory;

/// `why FILE LABEL from END PROTO SRC DST P Q`: the walk of the packet, with nothing remembered before it, and what decided at
/// each of its places.
#[derive(Clone, Copy)]
pub struct WhyCommand;

impl OneFile for WhyCommand {
    ghost use Rattle.walk_reasons.specs.Explained.{IsWhyAnswered};

    ghost counts = { λ c n. n ≡ 10 };

    ghost answers = { λ c words d. IsWhyAnswered d words };

    fn answer(
        &self,
        alloc: Global,
        network: Network,
        words: &[String],
    ) -> Result<Answer, NoMemory> {
        why(alloc, network, words)
    }
}
