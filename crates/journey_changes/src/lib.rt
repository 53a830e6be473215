//! What becomes of a request in two networks: that it gets through in one and not in the other, or to another end, and what
//! keeps it from getting through.
#![tactic(auto)]

mod alike;
mod changes;
mod fates;
mod joined;
mod laws;
mod probe;

pub use changes::Change;
pub use fates::{Barrier, Toward};
pub use joined::ChangeProbe;
pub use laws::{
    all_is_opened_from_nothing, changes_are_tellable, changes_turn_round, nothing_changes_in_one,
    reached_is_reach,
};
pub use probe::FateProbe;
