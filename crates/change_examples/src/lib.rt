//! What a change of a small network opens and closes, computed with the definitions of `change_report`.
#![tactic(auto)]

pub mod changed;
