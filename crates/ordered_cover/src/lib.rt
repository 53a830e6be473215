//! Asks a question of every header of a box: the first header that gets through; disjoint boxes that hold all headers,
//! or all that are told something, each with the one word that all its headers have; the same boxes as a cut tree; or the
//! ports that are open.
#![tactic(auto)]

mod beside;
mod corner;
mod growing;
mod joining;
mod laws;
mod open;
pub mod ports;
mod probe;
mod rows;
pub mod search;
mod trees;
mod walk;

pub use growing::grow;
pub use header_boxes::Row;
pub use laws::cut_tree_laws;
pub use probe::Probe;
pub use rows::{Cover, Gathered, Grown, Searched};
pub use trees::Node;
pub use walk::TreeWalk;
