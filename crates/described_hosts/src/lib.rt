//! The interfaces of a network that belong to no gateway, in the order of their ids, and the ids of networks that aren't described.
#![tactic(auto)]

mod hosts;
mod outside;

pub use hosts::{host_count, hosts_by_id, hosts_of, id_of};
pub use outside::far_id;
