// One row: the words of a line.
use std::alloc::{AllocError, Global};
use vpc_commands::{Status, run};
use vpc_io::{Shelf, Sink};

fn words_in(alloc: Global, line: &str) -> Result<Vec<String>, AllocError> {
    let mut words = Vec::new(alloc);
    if line.is_empty() {
        return Ok(words);
    }
    for word in line.split(' ') {
        words.push(String::from_str(alloc, word)?)?;
    }
    Ok(words)
}

/// Answers the command of a line, and tells how it ended.
pub fn answer_line<S: Shelf, O: Sink>(
    alloc: Global,
    line: &str,
    shelf: &mut S,
    out: &mut O,
) -> Result<Status, AllocError> {
    let words = words_in(alloc, line)?;
    Ok(run(alloc, words.as_slice(), shelf, out))
}
