//! Rules that decide nothing: for each rule of a described network's security groups and network ACLs the first request
//! of a query whose verdict would be another without it.
#![tactic(auto)]

mod answer;
mod chunks;
mod command;
mod concerned;
mod judging;
mod laws;
mod lines;
mod probe;
mod removal;
mod rules;

pub use answer::unused;
pub use command::UnusedCommand;
pub use judging::needed;
pub use laws::{removals_are_accepted, removals_take_one_rule};
pub use removal::without;
pub use rules::{RuleName, rules_of};
