//! What `reach` and `diff` share: starts outside, the sides of requests, rows by their starts, how these are printed, and what decides the
//! status.
#![tactic(auto)]

mod answers;
mod outside;
mod sides;
mod words;

pub use answers::{Listing, answer_part, answer_whole, is_many, status_by};
pub use outside::{is_source, sources_by_id, sources_of};
pub use sides::{ALL, add_boxes, add_pairs, ascending_sides, each_alone, only};
