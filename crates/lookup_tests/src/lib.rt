//! Tests of look-ups where no command tells the answer: that a body on which an answer about a box is one is as large as
//! that answer allows, and what single tables and sets tell. All were worked out by hand. What look-ups answer about
//! single packets is shown by rows of `cli_rows`.
#![tactic(auto)]

#[cfg(test)]
mod acls;
#[cfg(test)]
mod addresses;
#[cfg(test)]
mod blocks;
#[cfg(test)]
mod connections;
#[cfg(test)]
mod cuts;
#[cfg(test)]
mod deciders;
#[cfg(test)]
mod edges;
#[cfg(test)]
mod groups;
#[cfg(test)]
mod images;
#[cfg(test)]
mod networks;
#[cfg(test)]
mod numbers;
#[cfg(test)]
mod requests;
#[cfg(test)]
mod translations;
