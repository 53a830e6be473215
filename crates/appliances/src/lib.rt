//! Appliances: machines that forward packets which aren't for their own addresses. What they forward is
//! code that the caller owns, kept beside the boxes of headers that it stands for. Firewalls behind endpoints
//! are asked by their boxes alone.
#![tactic(auto)]

mod deciders;
mod described;
mod kinds;
mod laws;
mod on_images;

pub use deciders::{Decide, Deciders};
pub use described::{Kinds, appliances_of};
pub use kinds::{kind_boxes, kind_passes};
pub use laws::boxes_are_standing;
pub use on_images::passes_on;
