//! The walk of one packet over a network's look-ups.
//!
//! `walk` gives the walk that the definitions of `vpc_model` describe: its hops, how it ends, and what
//! the network remembers after it. `both` walks a request and its reply, and a `Session` packets that come one
//! after another. One file serves each section of the walk.
#![tactic(auto)]

mod choosing;
mod crossing;
mod enter;
mod groups;
mod inspect;
mod interface;
mod internet;
mod nat;
mod next;
mod outside;
mod peering;
mod places;
mod router;
mod session;
mod step;
mod transit;
mod verdict;
mod walks;

pub use choosing::{route_of, tgw_route_of};
pub use places::same_place;
pub use router::{is_attached, is_beside};
pub use session::Session;
pub use verdict::{both, round, same_end};
pub use walks::{Hops, walk};
