//! Laws of what packets do, over any description: functions without a body, whose contracts say what every
//! step, walk and translation keeps. A crate that cites one takes the function, and no other pays for it.
#![tactic(auto)]

pub mod accepted;
pub mod access;
pub mod choice;
pub mod equality;
pub mod nats;
pub mod outside;
pub mod rewriting;
pub mod sound;
pub mod steps;
pub mod walks;
