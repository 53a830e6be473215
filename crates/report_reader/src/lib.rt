//! Reports read back from their texts.
//!
//! The grammar is that of the printed report: `vpc-report 1`, the query, its box, numbered rows and
//! the end, each on a line of its own; or `vpc-report 2` with the nodes of a cut tree in the place of rows.
#![tactic(auto)]

mod boxes;
mod laws;
mod lines;
mod node_lists;
mod nodes;
mod readable;
mod reading;
mod report;
mod row_lines;
mod row_lists;
mod stops;
mod told;
mod words;

pub use boxes::{is_inside, read_box};
pub use laws::{report_laws, tree_laws};
pub use readable::{print_readable, print_readable_tree};
pub use reading::{pieces_of, read_report};
pub use report::{Report, ReportFault, Shape};
pub use stops::{is_rule, same_text};
pub use words::{are_two, few_words};
