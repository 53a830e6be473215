//! Tests of pieces, boxes, images, surveys, covers, open ports and what is gathered: answers that were worked out by hand.
#![tactic(auto)]

#[cfg(test)]
mod covers;
#[cfg(test)]
mod gathers;
#[cfg(test)]
mod headers;
#[cfg(test)]
mod images;
#[cfg(test)]
mod pieces;
#[cfg(test)]
mod ports;
#[cfg(test)]
mod surveys;
