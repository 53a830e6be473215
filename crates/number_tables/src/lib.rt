//! Values by numbers and by runs of numbers, and sets of numbers, in tables that are sorted once.
#![tactic(auto)]

mod keys;
mod runs;
mod sets;
mod tables;

pub use keys::key_of;
pub use runs::{KeyRun, RunTable};
pub use sets::NumberSet;
pub use tables::{Entry, NumberTable};
