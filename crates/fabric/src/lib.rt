//! All look-ups of one accepted network, and its rows by their numbers.
#![tactic(auto)]

mod acls;
mod firewalls;
mod gateway_tables;
mod hosts;
mod modes;
mod named;
mod nats;
mod network;
mod outside;
mod outside_rows;
mod routes;
pub mod rows;
mod sites;
mod targets;

pub use modes::{blocked, blocked_at};
pub use network::Fabric;
