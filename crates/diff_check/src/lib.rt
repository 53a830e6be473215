//! `check` of what `diff` prints: whether each row is true, and whether all that changes is in a row.
#![tactic(auto)]

mod diffs;
mod questions;
mod starts;
mod texts;

pub use diffs::check_diff;
