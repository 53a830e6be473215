//! Worked commands as data: each line of standard input is the words of a command, separated by single blanks. It is
//! answered over the files of `data/`, and its text and its status are printed as `stdout` beside `src/` has them. A line
//! that begins with `#` heads those below it.
#![tactic(auto)]

mod rows;

use rows::answer_line;
use std::io;
use vpc_io::{FileShelf, WriteSink};

fn main(rt: HostRuntime) -> io::Result<()> {
    let mut out = WriteSink::of(io::writer(&rt));
    for line in rt.lines(rt.alloc()) {
        let line = line?;
        if line.starts_with('#') {
            println!(rt; "{line}")?;
        } else {
            println!(rt; "$ {line}")?;
            let mut shelf = FileShelf::of(&rt);
            let status = answer_line(rt.alloc(), line.as_str(), &mut shelf, &mut out)?;
            println!(rt; "status {}", status.code())?;
        }
    }
    Ok(())
}
