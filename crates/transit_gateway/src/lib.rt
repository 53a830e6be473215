//! Transit gateways: by which attachment a packet comes in, which route its table chooses, and by which
//! subnet it leaves (Transit Gateways guide, "How transit gateways work").
#![tactic(auto)]

mod associations;
mod gateways;
mod index;
mod routes;
mod sites;
mod tables;
mod zones;

pub use index::{EnterStop, TransitIndex};
