//! Boxes of packet headers: membership, subtraction, cells and alignment.
#![tactic(auto)]

mod boxes;
mod division;
mod laws;
mod products;
mod rest;
mod rows;

pub use boxes::Box5;
pub use division::{Cuts, aligned, cells};
pub use laws::{
    aligned_by_ends, aligned_cell, aligned_grows, aligned_transitive, box_holds_low, cell_number,
    low_is_least, minus_aligned, minus_low_after, volume_is_positive, within_holds,
};
pub use rows::Row;
