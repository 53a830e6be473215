//! What packets do in small networks, computed with the definitions of `vpc_model`.
#![tactic(auto)]

pub mod choices;
pub mod crossings;
pub mod cuts;
pub mod firsts;
pub mod gateways;
pub mod middleboxes;
pub mod near;
pub mod outside;
pub mod refusals;
pub mod refused;
pub mod replayed;
pub mod reports;
pub mod subnets;
pub mod ways;
