//! Readers of what filters packets in a bundle: network ACLs and security groups.
//!
//! Each row's meaning depends on that row and its path alone. The first fault in reading order is the
//! answer: lists, rows and fields in the order in which they are read.
#![tactic(auto)]

mod acls;
mod group_rules;
mod groups;
mod permissions;
mod protocols;
mod ranges;
mod reader;
mod ruled_groups;

pub use reader::{FilterRows, read_filters};
pub use ruled_groups::read_group_rules;
