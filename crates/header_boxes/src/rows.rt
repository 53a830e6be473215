// Boxes with a word for all their headers.
use crate::Box5;

/// A box of headers that all have one word.
#[derive(Clone, Copy, Debug, PartialEq, Eq)]
pub struct Row<W> {
    pub part: Box5,
    pub word: W,
}
