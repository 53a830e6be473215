//! Laws of listings: what `reach` and `diff` print of all requests is true, and `check` answers yes to it.
#![tactic(auto)]

mod laws;

pub use laws::{diff_laws, network_laws, reach_laws};
