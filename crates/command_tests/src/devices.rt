// Shelves and sinks in memory, and what a command answers over them.
ghost use Rattle.std.specs.Prelude.{◌<◌};

use std::alloc::Global;
use std::process::Abort;
use std::test::Fail;
use vpc_commands::run;
use vpc_io::{MemoryShelf, MemorySink, Shelf};

/// The words of a line, separated by single blanks.
pub fn words_of(alloc: Global, line: &str) -> Result<Vec<String>, Fail> {
    let mut words = Vec::new(alloc);
    for word in line.split(' ') {
        words.push(String::from_str(alloc, word)?)?;
    }
    Ok(words)
}

/// A bundle `o.json` and a file `second.txt`.
pub fn two_files(
    alloc: Global,
    bundle: &[u8],
    second: &[u8],
) -> Result<Vec<(Vec<u8>, Vec<u8>)>, Fail> {
    let mut files = Vec::new(alloc);
    files.push((b"o.json".to_vec(alloc)?, bundle.to_vec(alloc)?))?;
    files.push((b"second.txt".to_vec(alloc)?, second.to_vec(alloc)?))?;
    Ok(files)
}

/// A shelf with these two files, which fails at the call of this number.
pub fn shelf_of(
    alloc: Global,
    bundle: &[u8],
    second: &[u8],
    failing: u64,
) -> Result<MemoryShelf, Fail> {
    let mut numbers = Vec::new(alloc);
    numbers.push(failing)?;
    Ok(MemoryShelf::of(two_files(alloc, bundle, second)?, numbers))
}

/// A sink that takes at most so many bytes at a time, and fails at the write of this number.
pub fn sink_of(alloc: Global, failing: u64, piece: usize) -> Result<MemorySink, Fail>
    requires { 0 < piece }
{
    let mut numbers = Vec::new(alloc);
    numbers.push(failing)?;
    Ok(MemorySink::of(alloc, numbers, piece, 4096)?)
}

/// What a command answers over this shelf, to a sink that takes one byte at a time.
pub fn answers<S: Shelf>(
    rt: &impl Abort,
    alloc: Global,
    line: &str,
    shelf: &mut S,
    code: u8,
    text: &str,
) -> Result<(), Fail> {
    let words = words_of(alloc, line)?;
    let mut out = sink_of(alloc, 0, 1)?;
    let status = run(alloc, words.as_slice(), shelf, &mut out);
    assert_eq!(rt; out.bytes(), text.as_bytes(), "{line}");
    assert_eq!(rt; status.code(), code, "{line}");
    Ok(())
}
