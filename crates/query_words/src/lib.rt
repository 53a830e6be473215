//! Queries and packets as words of a command, and lists of packets as lines of a text.
//!
//! Words are counted from 1, the command's own name included. They are read from left to right; the
//! first one that can't be taken is the refusal.
#![tactic(auto)]

mod changes;
mod ends;
mod events;
mod laws;
mod lines;
mod packets;
mod pairs;
mod queries;
mod reaches;
mod refusal;
mod sides;
mod unbounded;
mod values;
mod words;

pub use changes::{ChangeQuery, ChangedEnd, read_change_query, read_line_change_query};
pub use ends::is_service;
pub use events::{EventFault, read_events};
pub use laws::queries_without_max_are_one;
pub use lines::{first_words, lines_of};
pub use packets::read_packet;
pub use queries::{Query, read_line_query, read_query};
pub use reaches::{ReachPairs, ReachQuery, read_line_reach_query, read_reach_query};
pub use refusal::QueryRefusal;
pub use unbounded::read_unbounded_query;
pub use words::word;
