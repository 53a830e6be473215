// What is told of a flow log.
ghost use Rattle.std.specs.Prelude.{◌≡◌};
ghost use Rattle.flow_check.specs.declared.kinds.FlowFault.TheVariants.{Memory};

use std::alloc::AllocError;
use vpc_base::NoMemory;
use vpc_model::{By, Stop};

/// Why a text is no flow log.
#[derive(Clone, Copy, Debug, PartialEq, Eq)]
pub enum FlowFault {
    /// The line with this number, from 1, is outside the grammar.
    BadLine(u64),
    /// Memory was refused.
    Memory,
}

impl From<AllocError> for FlowFault {
    ghost from_gives = { λ _ r. r ≡ Memory };

    fn from(_error: AllocError) -> FlowFault {
        FlowFault::Memory
    }
}

/// How a line differs from what the rules say.
#[derive(Clone, Copy)]
pub enum FlowKind {
    /// The packets were accepted, and this stops them first, whichever side opened their connection.
    Accepted(Stop),
    /// The packets were rejected, and the groups let them pass by this.
    Rejected(By),
}

/// A line that differs, by its number from 1. A first line that names the fields counts.
#[derive(Clone, Copy)]
pub struct FlowLine {
    pub line: u64,
    pub kind: FlowKind,
}

/// How many of the other lines there are of each sort.
#[derive(Clone, Copy, Debug, PartialEq, Eq)]
pub struct FlowCounts {
    pub agreeing: u64,
    /// Intervals in which no packet came.
    pub nodata: u64,
    /// Intervals that the log left out.
    pub skipdata: u64,
    /// Lines of interfaces that aren't described.
    pub unknown: u64,
    /// Lines that the rules say nothing of: of a gateway's interface, of other protocols than TCP and UDP, of IPv6, and
    /// those where not exactly one address is the interface's own.
    pub skipped: u64,
}

/// The lines that differ, in their order, and how many others there are.
pub struct FlowAnswer {
    pub differing: Vec<FlowLine>,
    pub counts: FlowCounts,
}

impl Drop for FlowAnswer {
    fn drop(self) {
        let FlowAnswer { differing, counts } = self;
        let _ = counts;
        drop(differing);
    }
}
