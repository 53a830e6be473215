//! The ends of a question about two networks: its hosts, starts and destinations, and the boxes of requests between them.
#![tactic(auto)]

mod boxes;
mod compared;
mod hosts;
mod links;
mod outside;
mod starts;
mod targets;

pub use boxes::boxes_at;
pub use compared::Compared;
pub use hosts::{changed_id, hosts_of_either, id_at};
pub use links::{Links, links_of};
pub use starts::starts_of;
pub use targets::targets_of;
