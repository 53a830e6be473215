//! Numbers, IPv4 addresses, prefixes and port ranges: their values and their texts.
//!
//! Each reader gives the value of exactly the texts of its grammar. Each printer appends the one text
//! that its reader gives back; the same text comes in a buffer of fixed length where no memory may be
//! taken.
#![tactic(auto)]

mod addresses;
mod blocks;
mod buffers;
mod laws;
mod numbers;
mod parts;
mod ranges;

pub use addresses::{append_addr, dotted_quad, put_addr, read_addr};
pub use blocks::{Prefix, cidr_notation, put_prefix, read_prefix};
pub use laws::{addr_laws, number_laws, prefix_laws, range_laws};
pub use numbers::{decimal_digits, put_number, read_number};
pub use ranges::{append_range, read_range};
