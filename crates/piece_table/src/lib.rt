//! Ordered pieces of a number line: where each begins and what it tells. A search finds the piece that
//! holds an address, and its contract bounds how many pieces it reads.
#![tactic(auto)]

mod counter;
mod laws;
mod search;
mod table;

pub use counter::Steps;
pub use laws::{
    each_address_in_one_piece, each_piece_tells_one_value, few_steps, found_piece_is_aligned,
    one_more_piece, pieces_fill_the_line,
};
pub use table::Pieces;
