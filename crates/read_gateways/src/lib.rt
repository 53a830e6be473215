//! Readers of what leads packets out of a VPC in a bundle: internet gateways, NAT gateways, peerings and
//! transit gateways; of what leads to networks that aren't described, and firewall endpoints; and of where
//! security groups count beside their own VPC.
//!
//! Each row's meaning depends on that row and its path alone. The first fault in reading order is the
//! answer: lists, rows and fields in the order in which they are read.
#![tactic(auto)]

mod endpoints;
mod far_attachments;
mod far_peerings;
mod ids;
mod internet;
mod nat;
mod outside;
mod peerings;
mod private_gateways;
mod reader;
mod scope;
mod texts;
mod transit;

pub use outside::{OutsideRows, read_outside};
pub use reader::{GatewayRows, read_gateways};
pub use scope::read_group_scope;
