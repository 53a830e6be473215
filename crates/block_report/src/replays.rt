// The packets of a replay, one line each.
ghost use Rattle.std.specs.Prelude.{◌≡◌, ◌++◌, All, IsTrue, OnOk};
ghost use Rattle.block_report.specs.Replays.{arrival_text, ending_text, event_line, event_text, replay_text};
ghost use Rattle.block_report.specs.Words.{word};
ghost use Rattle.vpc_laws.specs.Sound.{EndsWell};
ghost use Rattle.vpc_model.specs.Sound.{has_text};
ghost use Rattle.vpc_model.specs.declared.outcomes.Outcome.TheVariants as outcomes;

use crate::places::end_id;
use crate::walks::put_stop;
use crate::words::{put, put_end, put_header_word, put_number_word, put_word};
use reference_check::Network;
use vpc_base::{Header, NoMemory};
use vpc_model::{Outcome, Stop};

fn put_arrival(out: &mut Vec<u8>, id: &[u8], h: &Header) -> Result<(), NoMemory>
    ensures { OnOk result (out.new.items ≡ out.old.items ++ arrival_text id.now h.now) }
{
    put(out, b"arrived")?;
    put_word(out, id)?;
    put_header_word(out, h)
}

fn put_stopping(out: &mut Vec<u8>, n: &Network, s: &Stop) -> Result<(), NoMemory>
    requires { IsTrue (has_text n.now s.now) }
    ensures { OnOk result (out.new.items ≡ out.old.items ++ ending_text n.now (outcomes.Stopped s.now)) }
{
    put(out, b"stopped ")?;
    put_stop(out, n, s)
}

// Where a packet arrived and with which header, or what stopped it.
fn put_ending(out: &mut Vec<u8>, n: &Network, outcome: &Outcome) -> Result<(), NoMemory>
    requires { EndsWell n.now outcome.now }
    ensures { OnOk result (out.new.items ≡ out.old.items ++ ending_text n.now outcome.now) }
{
    match outcome {
        Outcome::Arrived(end, h) => put_arrival(out, end_id(n, end), h),
        Outcome::Stopped(s) => put_stopping(out, n, s),
    }
}

fn put_ending_word(out: &mut Vec<u8>, n: &Network, outcome: &Outcome) -> Result<(), NoMemory>
    requires { EndsWell n.now outcome.now }
    ensures { OnOk result (out.new.items ≡ out.old.items ++ word (ending_text n.now outcome.now)) }
{
    put(out, b" ")?;
    put_ending(out, n, outcome)
}

fn put_event(out: &mut Vec<u8>, number: u128) -> Result<(), NoMemory>
    ensures { OnOk result (out.new.items ≡ out.old.items ++ event_text number) }
{
    put(out, b"event")?;
    put_number_word(out, number)
}

// The line of the packet with this number.
fn put_event_line(
    out: &mut Vec<u8>,
    n: &Network,
    number: u128,
    outcome: &Outcome,
) -> Result<(), NoMemory>
    requires { EndsWell n.now outcome.now }
    ensures { OnOk result (out.new.items ≡ out.old.items ++ event_line n.now number outcome.now) }
{
    put_event(out, number)?;
    put_ending_word(out, n, outcome)?;
    put_end(out)
}

/// Appends a line for each packet of a replay, numbered from 1: where it arrived and with which header, or
/// what stopped it.
pub fn put_replay(out: &mut Vec<u8>, n: &Network, outcomes: &[Outcome]) -> Result<(), NoMemory>
    requires { All (EndsWell n.now) outcomes.now }
    ensures { OnOk result (out.new.items ≡ out.old.items ++ replay_text n.now outcomes.now) }
{
    let mut number = 1;
    for outcome in outcomes {
        put_event_line(out, n, number, outcome)?;
        number += 1;
    }
    Ok(())
}
