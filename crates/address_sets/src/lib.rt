//! Sets of addresses, as ascending runs between which there are gaps.
#![tactic(auto)]

mod sets;

pub use sets::{AddressSet, Run, run_of};
