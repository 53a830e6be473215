//! What can reach what in a described network: the first request of a query that gets through, or a report
//! of boxes of requests that don't, each with what stops its requests or their replies.
#![tactic(auto)]

mod asks;
mod command;
pub mod reach;
mod reachable;

pub use command::AskCommand;
pub use reach::Reached;
