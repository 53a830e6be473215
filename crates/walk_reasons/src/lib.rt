//! `why`: the walk of one packet as `trace` prints it, and after each hop what decided there.
//!
//! What decides are rules of groups, the rows that route tables choose, and what network ACLs say; where a gateway gives
//! the packet another header, that is told too.
#![tactic(auto)]

mod answer;
mod borders;
mod command;
mod deciding;
mod judging;
mod laws;
mod lines;
mod routes;
mod walks;

pub use answer::why;
pub use command::WhyCommand;
pub use laws::reason_laws;
