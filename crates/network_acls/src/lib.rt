//! The verdicts of network ACLs, by rows that are sorted once.
#![tactic(auto)]

mod index;
mod laws;
mod on_images;

pub use index::AclIndex;
pub use laws::tried_rows_are_standing;
