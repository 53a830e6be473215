//! The walks of all headers of a box at once, and the probe that asks whether requests arrive and their
//! replies return.
#![tactic(auto)]

mod arriving;
mod goal;
mod journeys;
mod laws;
mod open;
mod probe;
mod seeking;
mod through;
mod verdict;
mod walks;
mod ways;

pub use arriving::Arrivals;
pub use box_steps::{BoxMoment, BoxNext, ImageNat, step_on};
pub use goal::GoalProbe;
pub use journeys::{Journey, journeys_are_verdicts, more_homes_let_more_through};
pub use laws::{misses_never_arrive, nothing_stops_through, words_have_texts};
pub use open::OpenProbe;
pub use probe::RoundProbe;
pub use through::ThroughProbe;
pub use walks::{Ending, walk_on};
