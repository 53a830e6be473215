// The rules of a policy, one a line.
ghost use Rattle.std.specs.Prelude.{◌≡◌, ◌≢◌, ◌≤◌, All, IfOk, IfSome, IsTrue, length, map};
ghost use Rattle.network_reach.specs.Reached.{IsQueryIn};
ghost use Rattle.policy_check.specs.Rules.{AreRead, are_query_words, is_passed_over, names_max, query_in, rule_in, rule_of, rules_among, rules_of, wanted_of};
ghost use Rattle.query_words.specs.declared.refusal.QueryRefusal.TheVariants as refusals;
ghost use Rattle.policy_check.specs.declared.rules.RulesFault.TheVariants.{Memory};

use query_words::{Query, QueryRefusal, first_words, lines_of, read_line_query};
use reference_check::Network;
use std::alloc::{AllocError, AllocFailed, Global};
use vpc_base::NoMemory;

/// What a rule wants of the requests of its query, each with its reply.
#[derive(Clone, Copy, Debug, PartialEq, Eq)]
pub enum Wanted {
    /// `reachable`: one gets through.
    Reachable,
    /// `blocked`: none gets through.
    Blocked,
    /// `open`: all get through.
    Open,
}

/// A rule of a policy.
#[derive(Clone, Copy)]
pub struct PolicyRule {
    /// The number of its line, from 1. Lines that are passed over are counted.
    pub line: u64,
    pub wanted: Wanted,
    pub query: Query,
}

/// Why a text is no policy.
#[derive(Drop)]
pub enum RulesFault {
    /// The line with this number, from 1, is neither passed over nor a rule.
    BadLine(u64),
    /// Memory was refused.
    Memory,
}

impl From<NoMemory> for RulesFault {
    ghost from_gives = { λ _ r. r ≡ Memory };

    fn from(_error: NoMemory) -> RulesFault {
        RulesFault::Memory
    }
}

impl From<AllocError> for RulesFault {
    ghost from_gives = { λ _ r. r ≡ Memory };

    fn from(_error: AllocError) -> RulesFault {
        RulesFault::Memory
    }
}

impl<T: Drop> From<AllocFailed<T>> for RulesFault {
    ghost from_gives = { λ _ r. r ≡ Memory };

    fn from(_error: AllocFailed<T>) -> RulesFault {
        RulesFault::Memory
    }
}

// The most words of a rule's query: two ends with their names, and five pairs.
const MOST_WORDS: usize = 14;

// An empty line, or one that begins with `#`.
fn is_passed_over(line: &[u8]) -> bool
    ensures { result ≡ is_passed_over line.now }
{
    match line {
        [] => true,
        [first, ..] => *first == b'#',
    }
}

fn wanted_of(name: &[u8]) -> Option<Wanted>
    ensures { result ≡ wanted_of name.now }
{
    if name == b"reachable".as_slice() {
        Some(Wanted::Reachable)
    } else if name == b"blocked".as_slice() {
        Some(Wanted::Blocked)
    } else if name == b"open".as_slice() {
        Some(Wanted::Open)
    } else {
        None
    }
}

// Whether the last pair of a query's words is the number of boxes that a report may have.
fn names_max(words: &[&[u8]]) -> bool
    requires { 4 ≤ length words.now }
    ensures { result ≡ names_max (map (λ w. w.now) words.now) }
{
    words[words.len() - 2] == b"max".as_slice()
}

fn are_query_words(words: &[&[u8]]) -> bool
    ensures words { result ≡ are_query_words (map (λ w. w.now) words.now) }
    ensures count { IsTrue result → 4 ≤ length words.now }
{
    words.len() >= 4 && (words.len() <= MOST_WORDS && !names_max(words))
}

// Want of memory is no answer; any other refusal says that the words are no query.
fn unless_memory(refusal: &QueryRefusal) -> Result<(), NoMemory>
    ensures { IfOk result (λ u. refusal.now ≢ refusals.Memory) }
{
    match refusal {
        QueryRefusal::Memory => Err(NoMemory),
        _ => Ok(()),
    }
}

// The query of these words, if they are those of one.
fn query_in(alloc: Global, n: &Network, words: &[&[u8]]) -> Result<Option<Query>, NoMemory>
    ensures query { IfOk result (λ q. q ≡ query_in n.now (map (λ w. w.now) words.now)) }
    ensures known { IfOk result (λ q. IfSome q (IsQueryIn n.now)) }
{
    if !are_query_words(words) {
        return Ok(None);
    }
    match read_line_query(alloc, n, words) {
        Ok(query) => Ok(Some(query)),
        Err(refusal) => {
            unless_memory(&refusal)?;
            Ok(None)
        }
    }
}

// The rule of a line's words.
fn rule_in(
    alloc: Global,
    n: &Network,
    number: u64,
    words: &[&[u8]],
) -> Result<Option<PolicyRule>, NoMemory>
    ensures rule { IfOk result (λ r. r ≡ rule_in n.now number (map (λ w. w.now) words.now)) }
    ensures known { IfOk result (λ r. IfSome r (λ rule. IsQueryIn n.now rule.query)) }
{
    let [name, rest @ ..] = words else {
        return Ok(None);
    };
    let Some(wanted) = wanted_of(name) else {
        return Ok(None);
    };
    let Some(query) = query_in(alloc, n, rest)? else {
        return Ok(None);
    };
    Ok(Some(PolicyRule {
        line: number,
        wanted,
        query,
    }))
}

// The rule of a line with this number, if it is one. One word too many tells as much as all of them.
fn rule_of(
    alloc: Global,
    n: &Network,
    number: u64,
    line: &[u8],
) -> Result<Option<PolicyRule>, NoMemory>
    ensures rule { IfOk result (λ r. r ≡ rule_of n.now (number, line.now)) }
    ensures known { IfOk result (λ r. IfSome r (λ rule. IsQueryIn n.now rule.query)) }
{
    let words = first_words(alloc, line, 1 + MOST_WORDS + 1)?;
    rule_in(alloc, n, number, words.as_slice())
}

// The rules of the lines that aren't passed over.
fn read_lines(alloc: Global, n: &Network, lines: &[&[u8]]) -> Result<Vec<PolicyRule>, RulesFault>
    ensures rules { AreRead (rules_among n.now (map (λ l. l.now) lines.now)) result }
    ensures known { IfOk result (λ v. All (λ rule. IsQueryIn n.now rule.query) v.items) }
{
    let mut rules = Vec::new(alloc);
    for (k, line) in lines.iter().enumerate() {
        if is_passed_over(line) {
            continue;
        }
        match rule_of(alloc, n, k as u64 + 1, line)? {
            Some(rule) => rules.push(rule)?,
            None => return Err(RulesFault::BadLine(k as u64 + 1)),
        }
    }
    Ok(rules)
}

/// The rules of a text with one a line: `reachable`, `blocked` or `open`, and the words of `ask` from `from` on, without
/// `max N`. Words have one blank between each two. Empty lines and those that begin with `#` are passed over. Each line
/// ends with one newline, which may be missing at the last.
pub fn read_rules(alloc: Global, n: &Network, text: &[u8]) -> Result<Vec<PolicyRule>, RulesFault>
    ensures rules { AreRead (rules_of n.now text.now) result }
    ensures known { IfOk result (λ v. All (λ rule. IsQueryIn n.now rule.query) v.items) }
{
    let lines = lines_of(alloc, text)?;
    read_lines(alloc, n, lines.as_slice())
}
