// Stops, the ends of walks, and whole walks.
ghost use Rattle.std.specs.Prelude.{◌≡◌, ◌++◌, All, IsTrue, OnOk};
ghost use Rattle.block_report.specs.Walks.{arrived_line, outcome_line, phase_text, stop_text, stop_words, stopped_line, told_text, walk_text};
ghost use Rattle.block_report.specs.Words.{word};
ghost use Rattle.vpc_laws.specs.Sound.{EndsWell, IsSoundHop};
ghost use Rattle.vpc_model.specs.Id.{is_id};
ghost use Rattle.vpc_model.specs.Names.{name_text};
ghost use Rattle.vpc_model.specs.Sound.{has_text};
ghost use Rattle.vpc_model.specs.declared.outcomes.Outcome.TheVariants as outcomes;
ghost use Rattle.vpc_model.specs.Told.{name_of, stop_id, stop_rule, told_stop};

use crate::hops::put_hops;
use crate::names::name_text;
use crate::places::end_id;
use crate::stops::{put_stop_rule, stop_id};
use crate::words::{put, put_end, put_word};
use reference_check::Network;
use vpc_base::NoMemory;
use vpc_model::{Hop, Outcome, Phase, Stop, StopName};

/// Appends the last line of a walk that arrives at the end with this id.
pub fn put_arrived(out: &mut Vec<u8>, id: &[u8]) -> Result<(), NoMemory>
    ensures { OnOk result (out.new.items ≡ out.old.items ++ arrived_line id.now) }
{
    put(out, b"arrived")?;
    put_word(out, id)?;
    put_end(out)
}

/// Appends a stop by its name, its component and its rule.
pub fn put_stop_words(
    out: &mut Vec<u8>,
    name: StopName,
    id: &[u8],
    rule: &[u8],
) -> Result<(), NoMemory>
    ensures { OnOk result (out.new.items ≡ out.old.items ++ stop_words (name_text name) id.now rule.now) }
{
    put(out, name_text(name))?;
    put_word(out, id)?;
    put_word(out, rule)
}

/// Appends the last line of a walk that is stopped, by the stop's name, component and rule.
pub fn put_stopped(
    out: &mut Vec<u8>,
    name: StopName,
    id: &[u8],
    rule: &[u8],
) -> Result<(), NoMemory>
    ensures { OnOk result (out.new.items ≡ out.old.items ++ stopped_line (name_text name) id.now rule.now) }
{
    put(out, b"stopped ")?;
    put_stop_words(out, name, id, rule)?;
    put_end(out)
}

fn put_rule_word(out: &mut Vec<u8>, n: &Network, s: &Stop) -> Result<(), NoMemory>
    requires { IsTrue (has_text n.now s.now) }
    ensures text { OnOk result (out.new.items ≡ out.old.items ++ word (stop_rule n.now s.now)) }
    ensures visible { OnOk result (IsTrue (is_id (stop_rule n.now s.now))) }
{
    put(out, b" ")?;
    put_stop_rule(out, n, s)
}

/// Appends the name of a stop, its component and its rule.
pub fn put_stop(out: &mut Vec<u8>, n: &Network, s: &Stop) -> Result<(), NoMemory>
    requires { IsTrue (has_text n.now s.now) }
    ensures text { OnOk result (out.new.items ≡ out.old.items ++ stop_text n.now s.now) }
    // Both are ids, as those of the network and the texts of numbers and blocks are.
    ensures id { OnOk result (IsTrue (is_id (stop_id n.now s.now))) }
    ensures rule { OnOk result (IsTrue (is_id (stop_rule n.now s.now))) }
{
    put(out, name_text(s.name()))?;
    put_word(out, stop_id(n, s))?;
    put_rule_word(out, n, s)
}

/// A phase, as it is printed.
pub fn phase_text(phase: Phase) -> &'static [u8]
    ensures { result.now ≡ phase_text phase }
{
    match phase {
        Phase::Request => b"request",
        Phase::Reply => b"reply",
    }
}

/// Appends what is told of a stop in a phase: the phase, and the stop's name, component and rule.
pub fn put_told(out: &mut Vec<u8>, n: &Network, phase: Phase, s: &Stop) -> Result<(), NoMemory>
    requires { IsTrue (has_text n.now s.now) }
    ensures text { OnOk result (out.new.items ≡ out.old.items ++ told_text (told_stop n.now phase s.now)) }
    ensures id { OnOk result (IsTrue (is_id (stop_id n.now s.now))) }
    ensures rule { OnOk result (IsTrue (is_id (stop_rule n.now s.now))) }
{
    put(out, phase_text(phase))?;
    put(out, b" ")?;
    put_stop(out, n, s)
}

fn put_stopped_by(out: &mut Vec<u8>, n: &Network, s: &Stop) -> Result<(), NoMemory>
    requires { IsTrue (has_text n.now s.now) }
    ensures { OnOk result (out.new.items ≡ out.old.items ++ outcome_line n.now (outcomes.Stopped s.now)) }
{
    put(out, b"stopped ")?;
    put_stop(out, n, s)?;
    put_end(out)
}

/// Appends the last line of a walk.
pub fn put_outcome(out: &mut Vec<u8>, n: &Network, outcome: &Outcome) -> Result<(), NoMemory>
    requires { EndsWell n.now outcome.now }
    ensures { OnOk result (out.new.items ≡ out.old.items ++ outcome_line n.now outcome.now) }
{
    match outcome {
        Outcome::Arrived(end, _) => put_arrived(out, end_id(n, end)),
        Outcome::Stopped(s) => put_stopped_by(out, n, s),
    }
}

/// Appends the lines of a walk: its hops, and where it ends.
pub fn put_walk(
    out: &mut Vec<u8>,
    n: &Network,
    hops: &[Hop],
    outcome: &Outcome,
) -> Result<(), NoMemory>
    requires hops { All (IsSoundHop n.now) hops.now }
    requires end { EndsWell n.now outcome.now }
    ensures { OnOk result (out.new.items ≡ out.old.items ++ walk_text n.now hops.now outcome.now) }
{
    put_hops(out, n, hops)?;
    put_outcome(out, n, outcome)
}
