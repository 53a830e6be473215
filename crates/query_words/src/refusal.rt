// Why words are refused.
ghost use Rattle.std.specs.Prelude.{◌≡◌};
ghost use Rattle.query_words.specs.declared.refusal.QueryRefusal.TheVariants.{Memory};

use vpc_base::NoMemory;
use vpc_model::Id;

/// Why words give no query or packet. Words are counted from 1, the command's own name included; only
/// the first cause from the left is told.
#[derive(Drop)]
pub enum QueryRefusal {
    /// The word with this number is none that may stand in its place.
    BadWord(u64),
    /// The word with this number stands for an end, and is neither `internet` nor the id of an interface
    /// (DescribeNetworkInterfaces) or of what leads to a network that isn't described.
    UnknownId(u64),
    /// The interface with this id belongs to a NAT gateway or a transit gateway, so that no packet starts or
    /// ends there; or what has this id leads to a described VPC.
    NotAnEnd(Id),
    /// The word with this number stands for a start of requests, and is the id of a gateway endpoint, whose
    /// service opens no connections.
    NotAStart(u64),
    /// Both ends of a query are the internet, between whose hosts no described network stands.
    BothInternet,
    /// The word with this number is a range of ports whose first is greater than its last.
    EmptyRange(u64),
    /// The greatest number of boxes in a report isn't between 1 and 100,000, or that of rows of `reach` or `diff` isn't between 1
    /// and 20,000.
    MaxOutOfRange,
    /// A side that was left out is the primary private address of this interface, which has none
    /// (DescribeNetworkInterfaces, `PrivateIpAddress`).
    NoAddress(Id),
    /// Memory was refused.
    Memory,
}

impl From<NoMemory> for QueryRefusal {
    ghost from_gives = { λ _ r. r ≡ Memory };

    fn from(_error: NoMemory) -> QueryRefusal {
        QueryRefusal::Memory
    }
}
