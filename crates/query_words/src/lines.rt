// Lines of a text, and the words of a line.
ghost use Rattle.std.specs.Prelude.{◌≡◌, ◌==◌, IfOk, map, take};
ghost use Rattle.std.specs.List.{slice_split};
ghost use Rattle.query_words.specs.Events.{lines_of, without_last_newline, words_of};

use std::alloc::{AllocError, Global};

// A text without the newline at its end, if there is one.
fn without_last_newline(text: &[u8]) -> &[u8]
    ensures { result.now ≡ without_last_newline text.now }
{
    match text.split_last() {
        Some((b'\n', front)) => front,
        _ => text,
    }
}

fn split_lines(alloc: Global, text: &[u8]) -> Result<Vec<&[u8]>, AllocError>
    ensures { IfOk result (λ v. map (λ l. l.now) v.items ≡ slice_split (λ c. c == 10) text.now) }
{
    text.split(|c| *c == b'\n').collect(alloc)
}

/// The lines of a text, of which the last one may lack its newline. A carriage return before a newline belongs to
/// its line.
pub fn lines_of(alloc: Global, text: &[u8]) -> Result<Vec<&[u8]>, AllocError>
    ensures { IfOk result (λ v. map (λ l. l.now) v.items ≡ lines_of text.now) }
{
    match text {
        [] => Ok(Vec::new(alloc)),
        _ => split_lines(alloc, without_last_newline(text)),
    }
}

/// The first words of a line, at most so many. Between each two of its words stands one blank; a line that has too
/// many takes no more memory for them.
pub fn first_words(alloc: Global, line: &[u8], most: usize) -> Result<Vec<&[u8]>, AllocError>
    ensures { IfOk result (λ v. map (λ w. w.now) v.items ≡ take most (words_of line.now)) }
{
    line.split(|c| *c == b' ').take(most).collect(alloc)
}
