//! `diff`: what a change of a network opens and closes, from one end or from all, to one end or to any.
#![tactic(auto)]

mod answers;
mod between;
mod bodies;
mod command;
mod gathered;
mod laws;
mod rows;

pub use answers::is_too_many;
pub use between::{Comparing, answer_between};
pub use command::DiffCommand;
pub use gathered::{Asked, toward_after, toward_before};
pub use laws::rows_are_joined;
pub use rows::{put_barrier, put_change};
