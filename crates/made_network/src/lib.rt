//! The generated network of a number: a valid description as large as a benchmark needs.
#![tactic(auto)]

mod filters;
mod gateways;
mod ids;
mod laws;
mod lists;
mod network;
mod rows;

pub use laws::is_accepted;
pub use network::made_network;
