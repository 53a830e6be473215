//! The program: answers the command that its words give, over the files of the system.
#![tactic(auto)]

use std::io;
use std::process::ExitCode;
use vpc_commands::{refuse_memory, run};
use vpc_io::{FileShelf, WriteSink, words_of};

fn main(rt: HostRuntime) -> ExitCode {
    let mut out = WriteSink::of(io::writer(&rt));
    let status = match words_of(rt.alloc(), &rt) {
        Ok(words) => run(
            rt.alloc(),
            words.as_slice(),
            &mut FileShelf::of(&rt),
            &mut out,
        ),
        Err(_) => refuse_memory(&mut out),
    };
    ExitCode::from(status.code())
}
