//! The cuts of a described network: the numbers at which what becomes of headers may change.
#![tactic(auto)]

mod ascending;
mod cuts;
mod gathered;
mod rows;

pub use cuts::{cells_in, cuts_of};
