//! Copies of the rows of a description.
#![tactic(auto)]

mod description;
mod filters;
mod gateways;
mod lists;
mod networks;
mod outside;

pub use description::copied_with;
pub use lists::{CopiedRow, add_copies, copied_list};
