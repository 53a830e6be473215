//! The network of a bundle: its VPCs, subnets, interfaces, route tables and prefix lists, as the EC2
//! API's Describe calls print them, and its appliances.
//!
//! Which members are read, and what a text or its absence means, is this project's profile where the
//! EC2 API leaves it open.
#![tactic(auto)]

mod access;
mod appliances;
mod blocks;
mod interfaces;
mod network;
mod prefix_lists;
mod routes;
mod subnets;
mod tables;
mod types;
mod vpcs;

pub use appliances::read_appliances;
pub use network::{NetworkRows, read_network};
