// Reports that were read, and why a text is none.
ghost use Rattle.std.specs.Prelude.{◌≡◌};
ghost use Rattle.report_reader.specs.declared.report.ReportFault.TheVariants.{Memory};

use header_boxes::{Box5, Row};
use ordered_cover::Node;
use std::alloc::{AllocError, AllocFailed};
use vpc_base::{NoMemory, OwnList};
use vpc_model::{End, StopText};

/// How the boxes of a report are given, each with what stops its headers.
pub enum Shape {
    /// Boxes inside that of the query, in any order (version 1).
    List(OwnList<Row<StopText>>),
    /// The leaves of a cut tree of the query's box (version 2).
    Tree(OwnList<Node<StopText>>),
}

impl Drop for Shape {
    fn drop(self) {
        match self {
            Shape::List(rows) => drop(rows),
            Shape::Tree(nodes) => drop(nodes),
        }
    }
}

/// What a report says of a query: boxes that together hold its headers, each with what stops them. Whether
/// it is true is another question.
pub struct Report {
    pub start: End,
    pub goal: End,
    /// The box of the query.
    pub sides: Box5,
    pub shape: Shape,
}

impl Drop for Report {
    fn drop(self) {
        let Report {
            start: _,
            goal: _,
            sides: _,
            shape,
        } = self;
        drop(shape);
    }
}

/// Why a text is no report. Lines are numbered from 1.
#[derive(Drop)]
pub enum ReportFault {
    /// The first line that is not in the grammar. It may be one that is missing, one without its newline, or
    /// one after the end.
    BadLine(u64),
    /// The line of a row past the 20,000 that are read, or of a leaf past the 100,000; all before it is in the grammar.
    TooManyBoxes(u64),
    /// Memory was refused.
    Memory,
}

impl From<NoMemory> for ReportFault {
    ghost from_gives = { λ _ r. r ≡ Memory };

    fn from(_error: NoMemory) -> ReportFault {
        ReportFault::Memory
    }
}

impl From<AllocError> for ReportFault {
    ghost from_gives = { λ _ r. r ≡ Memory };

    fn from(_error: AllocError) -> ReportFault {
        ReportFault::Memory
    }
}

impl<T: Drop> From<AllocFailed<T>> for ReportFault {
    ghost from_gives = { λ _ r. r ≡ Memory };

    fn from(_error: AllocFailed<T>) -> ReportFault {
        ReportFault::Memory
    }
}
