//! What is printed of packets in small networks, and what is told of flow logs there, computed with the definitions of
//! `block_report` and `flow_check`.
#![tactic(auto)]

pub mod flow_grammar;
pub mod flow_logs;
pub mod flow_sorts;
pub mod middleboxes;
pub mod refusals;
pub mod stops;
pub mod texts;
