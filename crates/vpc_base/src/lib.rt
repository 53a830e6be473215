//! What every crate speaks of: packet headers, labels and directions, owned lists, and want of memory.
#![tactic(auto)]

mod headers;
mod lists;
mod memory;

pub use headers::{Dir, Header, Label};
pub use lists::OwnList;
pub use memory::NoMemory;
