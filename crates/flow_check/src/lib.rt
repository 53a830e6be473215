//! VPC flow logs against the rules of a described network: which packets were accepted or rejected though its security
//! groups and network ACLs say otherwise.
//!
//! A log has version 2 in the default format (VPC User Guide, "Flow log records"). Its lines are read one after another and
//! take no memory, but for those that differ.
#![tactic(auto)]

mod answers;
mod command;
mod kinds;
mod laws;
mod lines;
mod logs;
mod records;
mod rules;
mod sorts;
mod texts;
mod words;

pub use answers::judge_flows;
pub use command::FlowsCommand;
pub use kinds::{FlowAnswer, FlowCounts, FlowFault, FlowKind, FlowLine};
pub use laws::{
    accept_means, agrees_with_walks_that_pass, agrees_with_walks_that_stop, reject_means,
};
pub use logs::flows;
