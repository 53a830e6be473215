// Devices that fail, or never do: what each command answers over them.
ghost use Rattle.std.specs.Prelude.{◌≢◌};

use crate::commands::{
    ARRIVING, BLOCKED, CHECK, CHECK_DIFF, COMMANDS, Command, DIFF, REPLAY, THREE, TRACE, all_answer,
};
use crate::devices::{answers, shelf_of, sink_of, two_files, words_of};
use crate::networks::{BEHIND_NAT, ONE_SUBNET};
use std::alloc::Global;
use std::process::Abort;
use std::test::Fail;
use vpc_commands::{Status, run};
use vpc_io::{CountSink, SafeShelf, Shelf, ShelfFault};

// ---- shelves

// The words, the call of the shelf that fails, the status and the text.
const AT_A_CALL: [(&str, u64, u8, &str); 18] = [
    (TRACE, 1, 6, "read fault 1\n"),
    ("ask o.json from eni-a to eni-b", 1, 6, "read fault 1\n"),
    (CHECK, 1, 6, "read fault 1\n"),
    (CHECK, 2, 6, "read fault 2\n"),
    (REPLAY, 1, 6, "read fault 1\n"),
    (REPLAY, 2, 6, "read fault 2\n"),
    (DIFF, 1, 6, "read fault 1\n"),
    (DIFF, 2, 6, "read fault 2\n"),
    (DIFF, 3, 3, "refused description after NotJson\n"),
    (CHECK_DIFF, 1, 6, "read fault 1\n"),
    (CHECK_DIFF, 2, 6, "read fault 2\n"),
    (CHECK_DIFF, 3, 6, "read fault 3\n"),
    // A second file is taken only once the bundle is accepted, and only where the words name one.
    (
        "check second.txt o.json",
        2,
        3,
        "refused description NotJson\n",
    ),
    (
        "replay second.txt o.json",
        2,
        3,
        "refused description NotJson\n",
    ),
    (
        "diff second.txt o.json",
        2,
        3,
        "refused description NotJson\n",
    ),
    (
        "check o.json second.txt second.txt",
        3,
        3,
        "refused description after NotJson\n",
    ),
    (TRACE, 2, 0, ARRIVING),
    ("make 3", 1, 0, THREE),
];

fn fails_at(
    rt: &impl Abort,
    alloc: Global,
    failing: u64,
    line: &str,
    code: u8,
    text: &str,
) -> Result<(), Fail> {
    let mut shelf = shelf_of(alloc, ONE_SUBNET.as_bytes(), BLOCKED.as_bytes(), failing)?;
    answers(rt, alloc, line, &mut shelf, code, text)
}

#[test]
fn tells_faults_of_shelves(rt: HostRuntime) -> Result<(), Fail> {
    for (line, failing, code, text) in &AT_A_CALL {
        fails_at(&rt, rt.alloc(), *failing, line, *code, text)?;
    }
    Ok(())
}

// ---- sinks

// Ten bytes a write, of which this one fails: what was written before it is held.
fn stops_at(
    rt: &impl Abort,
    alloc: Global,
    command: &Command,
    failing: u64,
    held: &[u8],
) -> Result<(), Fail> {
    let words = words_of(alloc, command.words)?;
    let mut shelf = shelf_of(alloc, ONE_SUBNET.as_bytes(), command.second.as_bytes(), 0)?;
    let mut out = sink_of(alloc, failing, 10)?;
    let status = run(alloc, words.as_slice(), &mut shelf, &mut out);
    assert_eq!(rt; out.bytes(), held, "{} {failing}", command.words);
    assert_eq!(rt; status.code(), 7, "{} {failing}", command.words);
    Ok(())
}

fn stops_at_each_write(rt: &impl Abort, alloc: Global, command: &Command) -> Result<(), Fail> {
    let text = command.text.as_bytes();
    for at in 0..text.len() {
        if at % 10 == 0 {
            let failing = (at as u64 / 10).saturating_add(1);
            stops_at(rt, alloc, command, failing, &text[..at])?;
        }
    }
    Ok(())
}

#[test]
fn stops_at_each_write_that_fails(rt: HostRuntime) -> Result<(), Fail> {
    for command in &COMMANDS {
        stops_at_each_write(&rt, rt.alloc(), command)?;
    }
    all_answer(&rt, rt.alloc(), ONE_SUBNET)
}

// Nothing is written where there is no event, so a sink that fails at its first write doesn't matter.
#[test]
fn writes_nothing_for_no_event(rt: HostRuntime) -> Result<(), Fail> {
    let alloc = rt.alloc();
    let words = words_of(alloc, REPLAY)?;
    let mut shelf = shelf_of(alloc, BEHIND_NAT.as_bytes(), b"", 0)?;
    let mut out = sink_of(alloc, 1, 4096)?;
    let status = run(alloc, words.as_slice(), &mut shelf, &mut out);
    assert_eq!(rt; status.code(), 0);
    Ok(())
}

// ---- devices that never fail

// No answer is a fault of theirs.
fn run_safely(alloc: Global, words: &[String], shelf: &mut SafeShelf, out: &mut CountSink) -> Status
    ensures read { result ≢ Status.Read }
    ensures write { result ≢ Status.Write }
{
    run(alloc, words, shelf, out)
}

fn safe_shelf(alloc: Global, second: &[u8]) -> Result<SafeShelf, Fail> {
    Ok(SafeShelf::of(two_files(alloc, ONE_SUBNET.as_bytes(), second)?))
}

fn answers_safely(rt: &impl Abort, alloc: Global, command: &Command) -> Result<(), Fail> {
    let words = words_of(alloc, command.words)?;
    let mut shelf = safe_shelf(alloc, command.second.as_bytes())?;
    let mut out = CountSink::new();
    let status = run_safely(alloc, words.as_slice(), &mut shelf, &mut out);
    assert_eq!(rt; status.code(), command.code, "{}", command.words);
    Ok(())
}

#[test]
fn answers_over_safe_devices(rt: HostRuntime) -> Result<(), Fail> {
    for command in &COMMANDS {
        answers_safely(&rt, rt.alloc(), command)?;
    }
    Ok(())
}

// ---- files that are found too long

// The network, and too long a file under each other name.
#[derive(Drop)]
struct LongShelf;

impl Shelf for LongShelf {
    ghost use Rattle.vpc_io.specs.Told.{nothing_told};

    ghost told = { λ _ _. nothing_told };

    ghost faults = { λ _ _. 0 };

    fn take(&mut self, alloc: Global, name: &str, max: usize) -> Result<Vec<u8>, ShelfFault> {
        let bundle = ONE_SUBNET.as_bytes();
        if name == "o.json" && bundle.len() <= max {
            Ok(bundle.to_vec(alloc)?)
        } else {
            Err(ShelfFault::TooLong)
        }
    }
}

const TOO_LONG: [(&str, u8, &str); 9] = [
    (
        "trace long open from eni-a tcp 10.0.1.10 10.0.1.20 5000 443",
        3,
        "refused description TooBig\n",
    ),
    (
        "ask long from eni-a to eni-b",
        3,
        "refused description TooBig\n",
    ),
    ("check long o.json", 3, "refused description TooBig\n"),
    ("replay long o.json", 3, "refused description TooBig\n"),
    ("check o.json long", 4, "refused report TooBig\n"),
    ("replay o.json long", 4, "refused events TooBig\n"),
    (
        "check o.json long o.json",
        3,
        "refused description after TooBig\n",
    ),
    ("check o.json o.json long", 4, "refused report TooBig\n"),
    // the network's own file is not too long
    (TRACE, 0, ARRIVING),
];

#[test]
fn refuses_what_the_shelf_finds_too_long(rt: HostRuntime) -> Result<(), Fail> {
    for (line, code, text) in &TOO_LONG {
        answers(&rt, rt.alloc(), line, &mut LongShelf, *code, text)?;
    }
    Ok(())
}
