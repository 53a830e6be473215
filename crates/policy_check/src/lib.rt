//! Policies: lists of what must and must not get through a described network, judged rule by rule: each holds, fails or
//! isn't known.
#![tactic(auto)]

mod certainties;
mod command;
mod counts;
mod halts;
mod judging;
mod laws;
mod policies;
mod rules;
mod stopped;
mod texts;

pub use certainties::Certainty;
pub use command::ExpectCommand;
pub use halts::Halt;
pub use judging::{Failure, Finding};
pub use laws::policy_laws;
pub use policies::expect_rules;
pub use rules::{PolicyRule, RulesFault, Wanted, read_rules};
