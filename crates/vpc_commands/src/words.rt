// The words of a command.
ghost use Rattle.std.specs.Prelude.{◌≡◌, ◌<◌, ◌≤◌, IfNone, IfOk, IfSome, length, map, position, string_bytes};
ghost use Rattle.vpc_commands.specs.Words.{HasCount, bad_word, command_named, command_of, count_fault};
ghost use Rattle.vpc_commands.specs.Words.{count_of, counted, first_named, is_bad_word, lacks_one, named, with_files};

/// What a command does, by its first word.
#[derive(Clone, Copy, Debug, PartialEq, Eq)]
pub enum Command {
    /// `trace`: the walk of one packet.
    Trace,
    /// `why`: that walk with what decided at each of its places.
    Why,
    /// `ask`: what is known of all requests of a query.
    Ask,
    /// `check` with one description: whether a report about a query is true, or what `reach` printed.
    Check,
    /// `check` with two: whether what `diff` printed is true.
    CheckDiff,
    /// `replay`: the walks of packets that come one after another.
    Replay,
    /// `make`: what is reached in a network that is generated from a number.
    Make,
    /// `expect`: whether the rules of a policy hold.
    Expect,
    /// `flows`: what a flow log says otherwise than the rules.
    Flows,
    /// `matrix`: who reaches whom, on which TCP ports.
    Matrix,
    /// `reach`: all that gets through.
    Reach,
    /// `diff`: what a change opens and closes.
    Diff,
    /// `unused`: which rules decide nothing for a query.
    Unused,
}

/// How many words a command may have, its own name included.
#[derive(Clone, Copy)]
pub struct Count {
    pub least: u16,
    pub most: u16,
    /// Whether those past the least come two by two.
    pub pairs: bool,
}

/// The number, from 1, of the first word that is wrong.
#[derive(Clone, Copy, Debug, PartialEq, Eq)]
pub struct WordsRefusal {
    pub word: u64,
}

fn is_bad_word(word: &str) -> bool
    ensures { result ≡ is_bad_word word.now }
{
    word.is_empty() || word.as_bytes()[0] == b'-'
}

fn bad_number(words: &[String]) -> Option<usize>
    ensures number { result ≡ position (λ w. is_bad_word (string_bytes w)) words.now }
    ensures within { IfSome result (λ k. k < length words.now) }
{
    words.iter().position(|w| is_bad_word(w.as_str()))
}

// The number, from 1, of the first word that is empty or begins with a dash.
#[tactic(auto, using(crate::proofs::Lists::position_map))]
fn bad_word(words: &[String]) -> Option<usize>
    ensures { result ≡ bad_word (map string_bytes words.now) }
{
    match bad_number(words) {
        Some(k) => Some(k + 1),
        None => None,
    }
}

fn command_named(name: &str) -> Option<Command>
    ensures { result ≡ command_named name.now }
{
    if name == "trace" {
        Some(Command::Trace)
    } else if name == "why" {
        Some(Command::Why)
    } else if name == "ask" {
        Some(Command::Ask)
    } else if name == "check" {
        Some(Command::Check)
    } else if name == "replay" {
        Some(Command::Replay)
    } else if name == "make" {
        Some(Command::Make)
    } else if name == "expect" {
        Some(Command::Expect)
    } else if name == "flows" {
        Some(Command::Flows)
    } else if name == "matrix" {
        Some(Command::Matrix)
    } else if name == "reach" {
        Some(Command::Reach)
    } else if name == "diff" {
        Some(Command::Diff)
    } else if name == "unused" {
        Some(Command::Unused)
    } else {
        None
    }
}

// `check` with a third file is about a change.
fn with_files(n: usize, command: Command) -> Command
    ensures { result ≡ with_files n command }
{
    match command {
        Command::Check => {
            if n > 3 {
                Command::CheckDiff
            } else {
                Command::Check
            }
        }
        Command::Trace => Command::Trace,
        Command::Why => Command::Why,
        Command::Ask => Command::Ask,
        Command::CheckDiff => Command::CheckDiff,
        Command::Replay => Command::Replay,
        Command::Make => Command::Make,
        Command::Expect => Command::Expect,
        Command::Flows => Command::Flows,
        Command::Matrix => Command::Matrix,
        Command::Reach => Command::Reach,
        Command::Diff => Command::Diff,
        Command::Unused => Command::Unused,
    }
}

// The command that the first word names, by how many words there are.
fn first_named(words: &[String]) -> Option<Command>
    ensures { result ≡ first_named (map string_bytes words.now) }
{
    match words.first() {
        Some(w) => Some(with_files(words.len(), command_named(w.as_str())?)),
        None => None,
    }
}

// How many words a command has.
fn count_of(command: Command) -> Count
    ensures { result ≡ count_of command }
{
    let (least, most, pairs) = match command {
        Command::Trace => (10, 10, false),
        Command::Why => (10, 10, false),
        Command::Ask => (6, 18, true),
        Command::Check => (3, 3, false),
        Command::CheckDiff => (4, 4, false),
        Command::Replay => (3, 3, false),
        Command::Make => (2, 2, false),
        Command::Expect => (3, 3, false),
        Command::Flows => (3, 3, false),
        Command::Matrix => (2, 4, true),
        Command::Reach => (2, 18, true),
        Command::Diff => (3, 19, true),
        Command::Unused => (6, 16, true),
    };
    Count { least, most, pairs }
}

// Whether the last of so many words lacks the second one of its pair.
fn lacks_one(count: Count, n: usize) -> bool
    requires { count.least ≤ n }
    ensures { result ≡ lacks_one count n }
{
    count.pairs && (n - usize::from(count.least)) % 2 != 0
}

// Where there are too many words the number of the first too many, and where one is missing the number after the last.
fn count_fault(count: Count, n: usize) -> Option<usize>
    ensures fault { result ≡ count_fault count n }
    ensures count { IfNone result (HasCount count n) }
{
    let (least, most) = (usize::from(count.least), usize::from(count.most));
    if most < n {
        return Some(most + 1);
    }
    if n < least {
        return Some(n + 1);
    }
    if lacks_one(count, n) {
        Some(n + 1)
    } else {
        None
    }
}

fn refused_at(number: usize) -> WordsRefusal
    ensures { result ≡ record { word = number } }
{
    WordsRefusal {
        word: number as u64,
    }
}

// The command, where it may have so many words.
fn counted(command: Command, n: usize) -> Result<Command, WordsRefusal>
    ensures command { result ≡ counted command (count_fault (count_of command) n) }
    ensures count { IfOk result (λ command. HasCount (count_of command) n) }
{
    match count_fault(count_of(command), n) {
        Some(number) => Err(refused_at(number)),
        None => Ok(command),
    }
}

// The command that the first word names, where it may have so many words.
fn read_named(words: &[String]) -> Result<Command, WordsRefusal>
    ensures command { result ≡ named (first_named (map string_bytes words.now)) (length words.now) }
    ensures count { IfOk result (λ command. HasCount (count_of command) (length words.now)) }
{
    match first_named(words) {
        Some(command) => counted(command, words.len()),
        None => Err(refused_at(1)),
    }
}

/// The command that the words give, which are those after the program's name.
pub fn read_words(words: &[String]) -> Result<Command, WordsRefusal>
    ensures command { result ≡ command_of (map string_bytes words.now) }
    ensures count { IfOk result (λ command. HasCount (count_of command) (length words.now)) }
{
    match bad_word(words) {
        Some(number) => Err(refused_at(number)),
        None => read_named(words),
    }
}
