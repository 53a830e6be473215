//! Tests of what is answered about words and commands. Worked commands over stored files are rows of `cli_rows`; here stand
//! devices that fail, and inputs that are generated or large.
#![tactic(auto)]

#[cfg(test)]
mod broken;
#[cfg(test)]
mod commands;
#[cfg(test)]
mod devices;
#[cfg(test)]
mod faults;
#[cfg(test)]
mod large;
#[cfg(test)]
mod networks;
#[cfg(test)]
mod outside;
