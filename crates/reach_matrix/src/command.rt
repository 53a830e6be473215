// The command `matrix`.
use crate::answer::matrix;
use command_job::{Answer, OneFile};
use reference_check::Network;
use std::alloc::Global;
use vpc_base::NoMemory;

/// `matrix FILE` and `matrix FILE port A-B`: who reaches whom, on which TCP ports.
#[derive(Clone, Copy)]
pub struct MatrixCommand;

impl OneFile for MatrixCommand {
    ghost use Rattle.reach_matrix.specs.Answered.{IsMatrixAnswered};
    ghost use Rattle.reach_matrix.specs.Words.{IsMatrixCount};

    ghost counts = { λ c n. IsMatrixCount n };

    ghost answers = { λ c words d. IsMatrixAnswered d words };

    fn answer(
        &self,
        alloc: Global,
        network: Network,
        words: &[String],
    ) -> Result<Answer, NoMemory> {
        matrix(alloc, network, words)
    }
}
