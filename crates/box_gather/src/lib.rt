//! What is told of the headers of several boxes, in one order. A search of one box keeps that order by itself; here the
//! rows of one box come between those of others.
#![tactic(auto)]

mod over;
mod pile;

pub use ordered_cover::Gathered;
pub use over::gather_over;
