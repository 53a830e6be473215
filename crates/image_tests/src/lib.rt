//! Tests that rows make of packets, asked of all headers of an image at once: protocols, port ranges, blocks,
//! boxes, sets of addresses, tables by addresses, and pieces.
#![tactic(auto)]

mod boxes;
mod pieces;
mod rules;
mod sets;

pub use boxes::box_on;
pub use pieces::piece_on;
pub use rules::{begins_on, block_on, far_side, proto_on, range_on, rule_on};
pub use sets::{entry_on, low_on, member_on, members_from, set_on, up_to};
