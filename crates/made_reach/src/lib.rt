//! `make`: what the first host of a generated network reaches.
#![tactic(auto)]

mod makes;

pub use makes::make;
