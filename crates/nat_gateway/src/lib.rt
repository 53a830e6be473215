//! What NAT gateways remember of the opens that they sent out: the port that an open gets, and the open that an
//! answer belongs to. A small form without memory serves single requests, one that grows whole sessions, and
//! questions without a list all headers of a box.
#![tactic(auto)]

mod book;
mod entry;
mod growing;
mod on_images;
mod parts;
mod ports;
mod sent;
mod small;
mod table;

pub use book::NatBook;
pub use entry::{NatEntry, NatStop};
pub use growing::GrowingNats;
pub use on_images::{first_open_is_sent, inward_on, outward_on};
pub use small::SmallNats;
