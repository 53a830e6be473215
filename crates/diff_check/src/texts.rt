// Whether a text is what is printed of a change. It is compared piece by piece, since a probe takes no memory.
ghost use Rattle.std.specs.Prelude.{◌≡◌, ◌≢◌, ◌++◌, IsTrue, List, MatchOption, bytes_eq, codes, ℕ};
ghost use Rattle.block_report.specs.Walks.{phase_text, stop_text};
ghost use Rattle.block_report.specs.Words.{word};
ghost use Rattle.change_report.specs.Texts.{absent_text, barrier_text, change_text};
ghost use Rattle.journey_changes.specs.Telling.{CanBeTold, IsTellable};
ghost use Rattle.vpc_model.specs.Sound.{has_text};

use block_report::{name_text, phase_text, stop_id};
use changed_ends::id_at;
use journey_changes::{Barrier, Change};
use reference_check::Network;
use report_reader::is_rule;
use vpc_model::{Phase, Stop};

// ---- pieces

// What is left of a text after a piece, where it begins with that.
fn after<'a>(text: &'a [u8], piece: &[u8]) -> Option<&'a [u8]>
    ensures { MatchOption result ((rest : List ℕ) → text.now ≢ piece.now ++ rest)
        (λ rest. text.now ≡ piece.now ++ rest.now) }
{
    text.strip_prefix(piece)
}

// What is left after a piece and the blank of a next word, where the text begins with these.
fn after_word<'a>(text: &'a [u8], piece: &[u8]) -> Option<&'a [u8]>
    ensures { MatchOption result ((rest : List ℕ) → text.now ≢ piece.now ++ word rest)
        (λ rest. text.now ≡ piece.now ++ word rest.now) }
{
    match after(text, piece) {
        Some(rest) => after(rest, b" "),
        None => None,
    }
}

// What is left after a piece, a word and the blank of a next one, where the text begins with these.
fn after_two<'a>(text: &'a [u8], piece: &[u8], second: &[u8]) -> Option<&'a [u8]>
    ensures { MatchOption result
        ((rest : List ℕ) → text.now ≢ piece.now ++ word second.now ++ word rest)
        (λ rest. text.now ≡ piece.now ++ word second.now ++ word rest.now) }
{
    match after_word(text, piece) {
        Some(rest) => after_word(rest, second),
        None => None,
    }
}

// ---- what keeps a request from an end

fn is_stop(text: &[u8], n: &Network, s: &Stop) -> bool
    requires { IsTrue (has_text n.now s.now) }
    ensures { result ≡ bytes_eq text.now (stop_text n.now s.now) }
{
    match after_two(text, name_text(s.name()), stop_id(n, s)) {
        Some(rest) => is_rule(n, rest, s),
        None => false,
    }
}

fn is_stopped(text: &[u8], n: &Network, phase: Phase, s: &Stop) -> bool
    requires { IsTrue (has_text n.now s.now) }
    ensures { result ≡ bytes_eq text.now (phase_text phase ++ word (stop_text n.now s.now)) }
{
    match after_word(text, phase_text(phase)) {
        Some(rest) => is_stop(rest, n, s),
        None => false,
    }
}

fn is_same(one: &[u8], other: &[u8]) -> bool
    ensures { result ≡ bytes_eq one.now other.now }
{
    one == other
}

fn is_absent(text: &[u8], id: &[u8]) -> bool
    ensures { result ≡ bytes_eq text.now (absent_text id.now) }
{
    match after_two(text, b"request Absent", id) {
        Some(rest) => is_same(rest, b"-"),
        None => false,
    }
}

fn is_barrier(text: &[u8], n: &Network, id: &[u8], barrier: &Barrier) -> bool
    requires { CanBeTold n.now barrier.now }
    ensures { result ≡ bytes_eq text.now (barrier_text n.now id.now barrier.now) }
{
    match barrier {
        Barrier::Stopped(phase, stop) => is_stopped(text, n, *phase, stop),
        Barrier::Absent => is_absent(text, id),
    }
}

// ---- what changes

// That an end is reached in one network alone, and what keeps requests from one in the other.
fn is_turned(
    text: &[u8],
    kind: &[u8],
    end: &[u8],
    n: &Network,
    id: &[u8],
    barrier: &Barrier,
) -> bool
    requires { CanBeTold n.now barrier.now }
    ensures { result ≡ bytes_eq text.now
        (kind.now ++ word end.now ++ word (barrier_text n.now id.now barrier.now)) }
{
    match after_two(text, kind, end) {
        Some(rest) => is_barrier(rest, n, id, barrier),
        None => false,
    }
}

fn is_moved(text: &[u8], one: &[u8], other: &[u8]) -> bool
    ensures { result ≡ bytes_eq text.now (codes "moved" ++ word one.now ++ word other.now) }
{
    match after_two(text, b"moved", one) {
        Some(rest) => is_same(rest, other),
        None => false,
    }
}

/// Whether a text is what is printed of a change for the start with this id. It takes no memory.
pub fn is_change(text: &[u8], before: &Network, after: &Network, id: &[u8], change: &Change) -> bool
    requires { IsTellable before.now after.now change.now }
    ensures { result ≡ bytes_eq text.now (change_text before.now after.now id.now change.now) }
{
    match change {
        Change::Opened(end, barrier) => {
            is_turned(text, b"opened", id_at(after, *end), before, id, barrier)
        }
        Change::Closed(end, barrier) => {
            is_turned(text, b"closed", id_at(before, *end), after, id, barrier)
        }
        Change::Moved(one, other) => is_moved(text, id_at(before, *one), id_at(after, *other)),
    }
}
