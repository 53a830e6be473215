//! Pieces of the addresses, made of blocks that each tell a number: each piece tells the number of the
//! best block that holds its addresses.
#![tactic(auto)]

mod laws;
mod pieces;
mod rows;
mod sweep;

pub use laws::{best_is_told, blocks_are_nested, told_is_best};
pub use pieces::pieces_of;
pub use rows::BlockRow;
