// The files that a command's words name.
ghost use Rattle.std.specs.Prelude.{◌≡◌, ◌≤◌, IfOk, List, length, map, string_bytes, ℕ};
ghost use Rattle.serde_json.specs.View.{view};
ghost use Rattle.bundle.specs.Json.{IsJson};
ghost use Rattle.command_job.specs.Files.{file_limit};
ghost use Rattle.diff_check.specs.Diffs.{IsDiffChecked};
ghost use Rattle.report_check.specs.Certified.{report_refusal_line};
ghost use Rattle.vpc_commands.specs.Files.{HasFailed, IsAnsweredAfter, IsAnsweredIn, IsAnsweredTo, IsDescribed, IsTaken, read_fault, second_fault, third_fault};
ghost use Rattle.vpc_commands.specs.Words.{file_name, second_name, third_name};

use crate::refusals::{refuse_bundle, refuse_description};
use bundle::{network_of, read_json};
use command_job::{Answer, OneFile, Status, TwoFiles, TwoNetworks, answer_line, refuse_file};
use diff_check::check_diff;
use query_words::word;
use reference_check::Network;
use serde_json::Value;
use std::alloc::Global;
use std::mem;
use vpc_base::NoMemory;
use vpc_io::{Shelf, ShelfFault};

/// The most bytes of a file.
pub const FILE_LIMIT: usize = 67_108_864;

/// Which description a file gives.
#[derive(Clone, Copy)]
pub enum Which {
    /// The only one, or that of the network before a change.
    First,
    /// That of the network after it.
    After,
}

/// What becomes of the JSON value of a bundle once its network is made.
#[derive(Clone, Copy)]
enum Spent {
    /// It is given back: another bundle is read in its place.
    GivenBack,
    /// It stays: the process ends with its answer, and giving it back takes longer than many an answer.
    Left,
}

/// What became of a file: the network that it describes, or the answer that there is none.
#[derive(Drop)]
pub enum Described {
    Network(Network),
    Refused(Answer),
}

// The network of the value of a bundle.
fn describe_value(alloc: Global, which: Which, bundle: &Value) -> Result<Described, NoMemory>
    ensures { (bytes : List ℕ) → length bytes ≤ file_limit → IsJson bytes (view bundle.now)
        → IfOk result (IsDescribed which bytes) }
{
    match network_of(alloc, bundle) {
        Ok(network) => Ok(Described::Network(network)),
        Err(cause) => Ok(Described::Refused(refuse_bundle(alloc, which, &cause)?)),
    }
}

fn drop_or_leave(bundle: Value, spent: Spent) {
    match spent {
        Spent::GivenBack => drop(bundle),
        Spent::Left => mem::forget(bundle),
    }
}

// The network of the bytes of a bundle.
fn describe_bytes(
    alloc: Global,
    which: Which,
    spent: Spent,
    bytes: &[u8],
) -> Result<Described, NoMemory>
    requires { length bytes.now ≤ FILE_LIMIT }
    ensures { IfOk result (IsDescribed which bytes.now) }
{
    match read_json(alloc, bytes) {
        Ok(bundle) => {
            let described = describe_value(alloc, which, &bundle);
            drop_or_leave(bundle, spent);
            described
        }
        Err(cause) => Ok(Described::Refused(refuse_bundle(alloc, which, &cause)?)),
    }
}

// That a file could not be read.
fn read_fault(which: Which) -> &'static [u8]
    ensures { result.now ≡ read_fault which }
{
    match which {
        Which::First => b"read fault 1",
        Which::After => b"read fault 2",
    }
}

// The network of a named file.
fn describe<S: Shelf>(
    alloc: Global,
    which: Which,
    spent: Spent,
    file: &str,
    shelf: &mut S,
) -> Result<Described, NoMemory>
    ensures described { IfOk result (IsTaken which (S.told shelf.old)
        (HasFailed (S.faults shelf.old) (S.faults shelf.new)) file.now) }
    ensures told_stays { (n : List ℕ) → S.told shelf.new n ≡ S.told shelf.old n }
    ensures faults_never_fall { (n : List ℕ) → S.faults shelf.old n ≤ S.faults shelf.new n }
{
    match shelf.take(alloc, file, FILE_LIMIT) {
        Ok(bytes) => describe_bytes(alloc, which, spent, bytes.as_slice()),
        Err(ShelfFault::Failed) => {
            Ok(Described::Refused(answer_line(alloc, Status::Read, read_fault(which))?))
        }
        Err(ShelfFault::TooLong) => {
            Ok(Described::Refused(refuse_description(alloc, which, b"TooBig")?))
        }
        Err(ShelfFault::Memory) => Err(NoMemory),
    }
}

/// What a command with one file answers.
pub fn answer_file<S: Shelf, C: OneFile>(
    alloc: Global,
    command: &C,
    words: &[String],
    shelf: &mut S,
) -> Result<Answer, NoMemory>
    requires file { 2 ≤ length words.now }
    requires count { C.counts command.now (length words.now) }
    ensures { IfOk result (λ a. IsAnsweredIn (S.told shelf.old)
        (HasFailed (S.faults shelf.old) (S.faults shelf.new)) (file_name (map string_bytes words.now))
        (C.answers command.now (map string_bytes words.now)) a.status a.text.items) }
{
    match describe(alloc, Which::First, Spent::Left, word(words, 2), shelf)? {
        Described::Network(network) => command.answer(alloc, network, words),
        Described::Refused(answer) => Ok(answer),
    }
}

// What is answered to the second file.
fn answer_second<S: Shelf, C: TwoFiles>(
    alloc: Global,
    command: &C,
    network: Network,
    file: &str,
    shelf: &mut S,
) -> Result<Answer, NoMemory>
    ensures { IfOk result (λ a. IsAnsweredTo second_fault (S.told shelf.old)
        (HasFailed (S.faults shelf.old) (S.faults shelf.new)) file.now
        (C.refusal command.now) (C.answers command.now network) a.status a.text.items) }
{
    match shelf.take(alloc, file, FILE_LIMIT) {
        Ok(bytes) => command.answer(alloc, network, bytes.as_slice()),
        Err(ShelfFault::Failed) => {
            mem::forget(network);
            answer_line(alloc, Status::Read, b"read fault 2")
        }
        Err(ShelfFault::TooLong) => {
            mem::forget(network);
            command.refuse(alloc, b"TooBig")
        }
        Err(ShelfFault::Memory) => {
            mem::forget(network);
            Err(NoMemory)
        }
    }
}

/// What a command with a second file answers: that file is taken once the first one describes a network.
pub fn answer_files<S: Shelf, C: TwoFiles>(
    alloc: Global,
    command: &C,
    words: &[String],
    shelf: &mut S,
) -> Result<Answer, NoMemory>
    requires files { 3 ≤ length words.now }
    ensures { IfOk result (λ a. IsAnsweredIn (S.told shelf.old)
        (HasFailed (S.faults shelf.old) (S.faults shelf.new)) (file_name (map string_bytes words.now))
        (λ d. IsAnsweredTo second_fault (S.told shelf.old)
        (HasFailed (S.faults shelf.old) (S.faults shelf.new)) (second_name (map string_bytes words.now))
        (C.refusal command.now) (C.answers command.now d))
        a.status a.text.items) }
{
    let first = describe(alloc, Which::First, Spent::Left, word(words, 2), shelf)?;
    match first {
        Described::Network(network) => answer_second(
            alloc,
            command,
            network,
            word(words, 3),
            shelf,
        ),
        Described::Refused(answer) => Ok(answer),
    }
}

// What is answered once the first file has described a network.
fn answer_after<S: Shelf, C: TwoNetworks>(
    alloc: Global,
    command: &C,
    before: Network,
    words: &[String],
    shelf: &mut S,
) -> Result<Answer, NoMemory>
    requires files { 3 ≤ length words.now }
    requires count { C.counts command.now (length words.now) }
    ensures { IfOk result (λ a. IsAnsweredAfter (S.told shelf.old)
        (HasFailed (S.faults shelf.old) (S.faults shelf.new)) (second_name (map string_bytes words.now))
        (C.answers command.now (map string_bytes words.now) before) a.status a.text.items) }
{
    match describe(alloc, Which::After, Spent::Left, word(words, 3), shelf) {
        Ok(Described::Network(after)) => command.answer(alloc, before, after, words),
        Ok(Described::Refused(answer)) => {
            mem::forget(before);
            Ok(answer)
        }
        Err(no_memory) => {
            mem::forget(before);
            Err(no_memory)
        }
    }
}

/// What a command with two descriptions answers: the second file is taken once the first one describes a network. By then
/// nothing of the first file is kept but its network.
pub fn answer_networks<S: Shelf, C: TwoNetworks>(
    alloc: Global,
    command: &C,
    words: &[String],
    shelf: &mut S,
) -> Result<Answer, NoMemory>
    requires files { 3 ≤ length words.now }
    requires count { C.counts command.now (length words.now) }
    ensures { IfOk result (λ a. IsAnsweredIn (S.told shelf.old)
        (HasFailed (S.faults shelf.old) (S.faults shelf.new)) (file_name (map string_bytes words.now))
        (λ d. IsAnsweredAfter (S.told shelf.old)
        (HasFailed (S.faults shelf.old) (S.faults shelf.new)) (second_name (map string_bytes words.now))
        (C.answers command.now (map string_bytes words.now) d))
        a.status a.text.items) }
{
    let first = describe(alloc, Which::First, Spent::GivenBack, word(words, 2), shelf)?;
    match first {
        Described::Network(before) => answer_after(alloc, command, before, words, shelf),
        Described::Refused(answer) => Ok(answer),
    }
}

// ---- a text about two networks

// What is answered to the third file.
fn answer_third<S: Shelf>(
    alloc: Global,
    before: Network,
    after: Network,
    file: &str,
    shelf: &mut S,
) -> Result<Answer, NoMemory>
    ensures { IfOk result (λ a. IsAnsweredTo third_fault (S.told shelf.old)
        (HasFailed (S.faults shelf.old) (S.faults shelf.new)) file.now
        report_refusal_line (IsDiffChecked before after) a.status a.text.items) }
{
    match shelf.take(alloc, file, FILE_LIMIT) {
        Ok(bytes) => check_diff(alloc, before, after, bytes.as_slice()),
        Err(ShelfFault::Failed) => {
            leave(before, after);
            answer_line(alloc, Status::Read, b"read fault 3")
        }
        Err(ShelfFault::TooLong) => {
            leave(before, after);
            refuse_file(alloc, b"report", b"TooBig")
        }
        Err(ShelfFault::Memory) => {
            leave(before, after);
            Err(NoMemory)
        }
    }
}

// The process ends with its answer: their rows are not given back.
fn leave(before: Network, after: Network) {
    mem::forget(before);
    mem::forget(after);
}

// What is answered once the first file has described a network.
fn answer_between<S: Shelf>(
    alloc: Global,
    before: Network,
    words: &[String],
    shelf: &mut S,
) -> Result<Answer, NoMemory>
    requires files { 4 ≤ length words.now }
    ensures { IfOk result (λ a. IsAnsweredAfter (S.told shelf.old)
        (HasFailed (S.faults shelf.old) (S.faults shelf.new)) (second_name (map string_bytes words.now))
        (λ after. IsAnsweredTo third_fault (S.told shelf.old)
        (HasFailed (S.faults shelf.old) (S.faults shelf.new)) (third_name (map string_bytes words.now))
        report_refusal_line (IsDiffChecked before after))
        a.status a.text.items) }
{
    match describe(alloc, Which::After, Spent::GivenBack, word(words, 3), shelf) {
        Ok(Described::Network(after)) => {
            answer_third(alloc, before, after, word(words, 4), shelf)
        }
        Ok(Described::Refused(answer)) => {
            mem::forget(before);
            Ok(answer)
        }
        Err(no_memory) => {
            mem::forget(before);
            Err(no_memory)
        }
    }
}

/// What `check` answers to a text about a change: its file is taken once the first two describe networks. By then nothing of
/// them is kept but these.
pub fn answer_change<S: Shelf>(
    alloc: Global,
    words: &[String],
    shelf: &mut S,
) -> Result<Answer, NoMemory>
    requires files { 4 ≤ length words.now }
    ensures { IfOk result (λ a. IsAnsweredIn (S.told shelf.old)
        (HasFailed (S.faults shelf.old) (S.faults shelf.new)) (file_name (map string_bytes words.now))
        (λ before. IsAnsweredAfter (S.told shelf.old)
        (HasFailed (S.faults shelf.old) (S.faults shelf.new)) (second_name (map string_bytes words.now))
        (λ after. IsAnsweredTo third_fault (S.told shelf.old)
        (HasFailed (S.faults shelf.old) (S.faults shelf.new)) (third_name (map string_bytes words.now))
        report_refusal_line (IsDiffChecked before after)))
        a.status a.text.items) }
{
    let earlier = describe(alloc, Which::First, Spent::GivenBack, word(words, 2), shelf)?;
    match earlier {
        Described::Network(before) => answer_between(alloc, before, words, shelf),
        Described::Refused(answer) => Ok(answer),
    }
}
