// The command `flows`.
ghost use Rattle.std.specs.Prelude.{◌≡◌};

use crate::answers::judge_flows;
use command_job::{Answer, TwoFiles, refuse_file};
use reference_check::Network;
use std::alloc::Global;
use vpc_base::NoMemory;

/// `flows FILE LOG`: what a flow log says otherwise than the rules.
#[derive(Clone, Copy)]
pub struct FlowsCommand;

impl TwoFiles for FlowsCommand {
    ghost use Rattle.flow_check.specs.Answers.{AreFlowsJudged, log_refusal_line};

    ghost refusal = { λ c. log_refusal_line };

    ghost answers = { λ c. AreFlowsJudged };

    fn refuse(&self, alloc: Global, cause: &[u8]) -> Result<Answer, NoMemory> {
        refuse_file(alloc, b"log", cause)
    }

    fn answer(&self, alloc: Global, network: Network, bytes: &[u8]) -> Result<Answer, NoMemory> {
        judge_flows(alloc, network, bytes)
    }
}
