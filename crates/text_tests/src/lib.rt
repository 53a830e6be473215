//! Tests of texts that no command prints or is given, and what the words of worked commands mean, computed. Words and
//! texts that a command can show are rows of `cli_rows`.
#![tactic(auto)]

#[cfg(test)]
mod damaged;
#[cfg(test)]
mod printed;
#[cfg(test)]
mod words;
