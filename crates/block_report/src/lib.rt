//! Printed texts. Each call appends one text to what is there, or wants memory.
#![tactic(auto)]

mod boxes;
mod hops;
mod names;
mod places;
mod queries;
mod refusals;
mod replays;
mod reports;
mod stops;
mod trees;
mod walks;
mod words;

pub use boxes::put_box_word;
pub use hops::{print_hops, put_by, put_by_group, put_hop, put_hops, put_place};
pub use names::{name_spelled, name_text};
pub use places::end_id;
pub use queries::put_query_refusal;
pub use refusals::put_cause;
pub use replays::put_replay;
pub use reports::{print_more, print_report};
pub use stops::{RuleWord, access_text, rule_of, stop_id, stop_text};
pub use trees::print_tree;
pub use walks::{
    phase_text, put_arrived, put_outcome, put_stop, put_stop_words, put_stopped, put_told, put_walk,
};
pub use words::{
    put, put_addr_word, put_end, put_header, put_header_line, put_header_word, put_line,
    put_number_line, put_number_word, put_word,
};
