//! Tests of made networks, of paths in bundles and of verdicts that are one. What readers make of bundles, and which
//! they refuse, is shown by rows of `cli_rows`.
#![tactic(auto)]

#[cfg(test)]
mod made_network_tests;
#[cfg(test)]
mod paths;
#[cfg(test)]
mod telling;
#[cfg(test)]
mod verdicts;
