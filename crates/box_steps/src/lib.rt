//! One step for all headers of a box at once: for a body of the box, a part with its low corner, aligned to
//! the cuts of the rows that the place asks. One file serves each section of the walk.
#![tactic(auto)]

pub mod choosing;
pub mod crossing;
pub mod enter;
pub mod groups;
pub mod hosts;
pub mod inspect;
mod interface;
pub mod internet;
pub mod missing;
pub mod moment;
pub mod nat;
mod onward;
pub mod outside;
mod peering;
pub mod router;
pub mod step;
pub mod transit;

pub use interface::let_in;
pub use missing::misses_on;
pub use moment::{BoxMoment, BoxNext, ImageNat};
pub use onward::Onward;
pub use step::{step_in_place, step_on};
