//! What internet gateways, peerings and gateway endpoints ask of addresses: which public address belongs to
//! which private one, which addresses are non-routable on the internet, and which lie in the blocks of VPCs
//! and of networks that aren't described.
#![tactic(auto)]

mod addresses;
mod beyond;
mod blocks;
mod internet;
mod laws;
mod maps;
mod pairs;
mod peerings;
mod sides;

pub use internet::{unroutable, unroutable_on};
pub use laws::{owners_are_cut_out, publics_are_cut_out, sides_are_divided};
pub use maps::EdgeMaps;
pub use pairs::Owner;
pub use peerings::Carry;
pub use sides::Sides;
