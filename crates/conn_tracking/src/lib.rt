//! The connections that passed an interface's security groups, and whether a packet answers one of them:
//! a small form without memory for single requests, one that grows for whole sessions, and a list of images
//! for all headers of a box.
#![tactic(auto)]

mod entry;
mod growing;
mod on_images;
mod order;
mod replies;
mod small;
mod tracker;

pub use entry::Entry;
pub use growing::GrowingConns;
pub use on_images::{ImageEntry, tracked_on};
pub use order::order_by_ports;
pub use replies::{answers_on, reply_on};
pub use small::SmallConns;
pub use tracker::Tracker;
