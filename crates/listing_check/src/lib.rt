//! Whether a listing is true and holds all that is to be told, whoever wrote it: of any question about the requests of starts.
#![tactic(auto)]

mod answers;
mod due;
mod found;
mod laws;
mod lines;
mod looks;
mod passed;
mod questions;
mod telling;
mod texts;
mod untrue;

pub use answers::answer_lines;
pub use found::{Found, check_lists};
pub use laws::listing_laws;
pub use lines::{begins_with, later_lines, question_words, refuse_line, unless_memory};
pub use looks::{Listing, Look, look_at};
pub use questions::Question;
pub use telling::{Telling, look_once, only};
