// The command `expect`.
ghost use Rattle.std.specs.Prelude.{◌≡◌};

use crate::policies::expect_rules;
use command_job::{Answer, TwoFiles, refuse_file};
use reference_check::Network;
use std::alloc::Global;
use vpc_base::NoMemory;

/// `expect FILE RULES`: whether the rules of a policy hold.
#[derive(Clone, Copy)]
pub struct ExpectCommand;

impl TwoFiles for ExpectCommand {
    ghost use Rattle.policy_check.specs.Policy.{ArePoliciesJudged, rules_refusal_line};

    ghost refusal = { λ c. rules_refusal_line };

    ghost answers = { λ c. ArePoliciesJudged };

    fn refuse(&self, alloc: Global, cause: &[u8]) -> Result<Answer, NoMemory> {
        refuse_file(alloc, b"rules", cause)
    }

    fn answer(&self, alloc: Global, network: Network, bytes: &[u8]) -> Result<Answer, NoMemory> {
        expect_rules(alloc, network, bytes)
    }
}
