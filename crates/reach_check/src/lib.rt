//! `check` of what `ask` and `reach` print: whether each row is true, and whether all that is to be told is in a row.
#![tactic(auto)]

mod command;
mod reaches;

pub use command::CheckCommand;
