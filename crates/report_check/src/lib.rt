//! Whether a report about a query is true, whoever wrote it.
#![tactic(auto)]

mod checked;
mod checks;
mod command;
mod laws;
mod leaves;
mod probe;
mod rows;
mod texts;

pub use checked::{Checked, check};
pub use checks::refuse_fault;
pub use command::CheckCommand;
pub use laws::check_laws;
pub use texts::{put_checked, put_overlap};
