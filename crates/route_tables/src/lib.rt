//! Which route a table chooses for an address (VPC User Guide, "Route priority"): pieces of the addresses
//! that each tell the number of a route, made once for a table.
#![tactic(auto)]

mod blocks;
mod counted;
mod index;
mod locals;
mod repeats;

pub use index::RouteIndex;
