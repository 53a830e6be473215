//! Readers of the members of JSON objects: the value, or a fault that names its place.
//!
//! A reader whose name ends in `_if` takes a member that is absent or null for none, and one that
//! ends in `_at` asks that it is there. Every member that is there must be of the reader's JSON kind,
//! or it is `WrongShape`; a text outside the grammar, or a number out of range, is `BadText`. Which
//! texts and numbers are taken is this project's profile of what the EC2 API's Describe calls print.
#![tactic(auto)]

mod bundle;
mod fault;
mod fields;
mod kept;
mod members;
mod needed;
mod parts;
mod path;
mod rows;

pub use bundle::rows_of;
pub use fault::FieldFault;
pub use fields::{addr_if, flag_if, id_at, id_if, number_if, prefix_if, str_if};
pub use kept::{HasId, SeenIds, first_of_each};
pub use members::member;
pub use needed::{addr_at, flag_at, prefix_at, str_at};
pub use parts::{addr_if_within, has_text, id_if_within, id_within, str_if_within, str_within};
pub use path::{Path, PathText};
pub use rows::{ReadRow, read_items, read_kept_items, read_kept_list, read_list};
