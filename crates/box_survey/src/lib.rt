//! Where boxes overlap, and which headers that matter they leave out.
#![tactic(auto)]

mod cells;
mod cuts;
mod findings;
mod gaps;
mod hulls;
mod numbered;
mod pairs;
mod sides;
mod slices;
mod survey;

pub use findings::earlier;
pub use gaps::{Gaps, WholeBox};
pub use hulls::hull;
pub use survey::{Survey, surveyed};
