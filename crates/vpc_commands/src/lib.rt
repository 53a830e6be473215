//! Commands over a described network, and the call that answers them. Each command has a crate of its own, which says
//! what it answers; here the words give a command, its files are taken, and the answer is written.
#![tactic(auto)]

mod answers;
mod commands;
mod files;
mod refusals;
mod words;

pub use command_job::Status;
pub use commands::{refuse_memory, run};
