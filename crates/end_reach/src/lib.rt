//! `reach`: all that gets through, from one end or from all, to one end or to any.
#![tactic(auto)]

mod answers;
mod bodies;
mod command;
mod laws;
mod links;
mod rows;
mod sides;
mod starts;

pub use answers::is_too_many;
pub use command::ReachCommand;
pub use laws::{links_are_starts, rows_are_joined};
pub use links::links_of;
pub use sides::{boxes_at, targets_of};
pub use starts::starts_of;
