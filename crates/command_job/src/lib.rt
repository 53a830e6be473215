//! What commands over a described network share: an answer, which is a status with its text; what a command says of the
//! files that its words name; the job that it does with a network's look-ups and appliances; and answers of one line.
#![tactic(auto)]

mod commands;
mod deciders;
mod jobs;
mod lines;
mod status;

pub use commands::{OneFile, TwoFiles, TwoNetworks};
pub use deciders::deciders_of;
pub use jobs::{Job, answer_job};
pub use lines::{answer_line, refuse_file, refuse_line, refuse_query};
pub use status::{Answer, Status};
