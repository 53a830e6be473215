//! Whether the rows of a description make a network, and look-ups in one that they make.
#![tactic(auto)]

mod addresses;
mod claims;
mod clashes;
mod delegated;
mod directory;
mod duplicates;
mod first_numbers;
mod hosts;
mod ids;
mod lengths;
mod network;
mod numbered;
mod numbers;
mod outside;
mod places;
mod references;
mod rows;
mod subnets;
mod taken;

pub use first_numbers::{FirstNumbers, Naming};
pub use network::Network;
pub use vpc_model::{ListName, Refusal};
