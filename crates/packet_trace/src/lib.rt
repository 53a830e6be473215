//! `trace`: the walk of one packet, with every hop and how it ends.
#![tactic(auto)]

mod command;
mod traces;
mod walks;

pub use command::TraceCommand;
pub use traces::refuse_packet;
pub use walks::{status_of, walk_event};
