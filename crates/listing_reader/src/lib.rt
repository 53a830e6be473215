//! Listings, as `reach` and `diff` print them, read back from their texts: rows by their starts, each a box of requests with
//! what is told of them.
#![tactic(auto)]

mod cuts;
mod laws;
mod origins;
mod reading;
mod rows;

pub use laws::listing_laws;
pub use origins::Origin;
pub use reading::{Lines, read_lists, split_lines};
