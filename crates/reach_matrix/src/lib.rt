//! Who reaches whom: for each two hosts of a described network the TCP ports of the one that the other reaches.
#![tactic(auto)]

mod answer;
mod command;
mod laws;
mod lines;
mod pairs;
mod words;

pub use answer::matrix;
pub use command::MatrixCommand;
pub use laws::{
    blocked_pairs_are_answered, ports_are_answered, ports_are_asked, ports_are_those_of_ask,
    ports_have_firsts, words_give_the_query,
};
pub use pairs::reach;
