// The answer to a command: its status with its text.
ghost use Rattle.std.specs.Prelude.{◌≡◌, IfOk, length, map, string_bytes};
ghost use Rattle.vpc_commands.specs.Due.{IsAnswered, IsDue};
ghost use Rattle.vpc_commands.specs.Files.{HasFailed};
ghost use Rattle.vpc_commands.specs.Words.{HasCount, count_of};

use crate::files::{answer_change, answer_file, answer_files, answer_networks};
use crate::refusals::refuse_words;
use crate::words::{Command, read_words};
use change_report::DiffCommand;
use command_job::Answer;
use end_reach::ReachCommand;
use flow_check::FlowsCommand;
use made_reach::make;
use network_reach::AskCommand;
use packet_trace::TraceCommand;
use policy_check::ExpectCommand;
use reach_check::CheckCommand;
use reach_matrix::MatrixCommand;
use replay_log::ReplayCommand;
use std::alloc::Global;
use unused_rules::UnusedCommand;
use vpc_base::NoMemory;
use vpc_io::Shelf;
use walk_reasons::WhyCommand;

// What the command answers.
fn answer_command<S: Shelf>(
    alloc: Global,
    command: Command,
    words: &[String],
    shelf: &mut S,
) -> Result<Answer, NoMemory>
    requires count { HasCount (count_of command) (length words.now) }
    ensures { IfOk result (λ a. IsAnswered command (map string_bytes words.now) (S.told shelf.old)
        (HasFailed (S.faults shelf.old) (S.faults shelf.new)) a.status a.text.items) }
{
    match command {
        Command::Trace => answer_file(alloc, &TraceCommand, words, shelf),
        Command::Why => answer_file(alloc, &WhyCommand, words, shelf),
        Command::Ask => answer_file(alloc, &AskCommand, words, shelf),
        Command::Check => answer_files(alloc, &CheckCommand, words, shelf),
        Command::CheckDiff => answer_change(alloc, words, shelf),
        Command::Replay => answer_files(alloc, &ReplayCommand, words, shelf),
        Command::Make => make(alloc, words),
        Command::Matrix => answer_file(alloc, &MatrixCommand, words, shelf),
        Command::Reach => answer_file(alloc, &ReachCommand, words, shelf),
        Command::Diff => answer_networks(alloc, &DiffCommand, words, shelf),
        Command::Unused => answer_file(alloc, &UnusedCommand, words, shelf),
        Command::Flows => answer_files(alloc, &FlowsCommand, words, shelf),
        Command::Expect => answer_files(alloc, &ExpectCommand, words, shelf),
    }
}

/// The answer to the words.
pub fn answer_to<S: Shelf>(
    alloc: Global,
    words: &[String],
    shelf: &mut S,
) -> Result<Answer, NoMemory>
    ensures { IfOk result (λ a. IsDue (map string_bytes words.now) (S.told shelf.old)
        (HasFailed (S.faults shelf.old) (S.faults shelf.new)) a.status a.text.items) }
{
    match read_words(words) {
        Ok(command) => answer_command(alloc, command, words, shelf),
        Err(refusal) => refuse_words(alloc, refusal),
    }
}
