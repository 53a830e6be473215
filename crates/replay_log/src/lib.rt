//! What becomes of a list of packets, each of which meets what the ones before it left.
//!
//! Answers get through because of the opens that came before them, whatever other connections are interleaved
//! with theirs: that is a clause of `replay`.
#![tactic(auto)]

mod command;
mod laws;
mod played;

ghost use Rattle.std.specs.Prelude.{◌≡◌, All, IfOk, IsTrue};
ghost use Rattle.replay_laws.specs.Interleaved.{AnswersAreLetIn, AnswersAreToOpens};
ghost use Rattle.replay_log.specs.Ports.{HasPort, PortsStayApart};
ghost use Rattle.vpc_laws.specs.Sound.{EndsWell};
ghost use Rattle.vpc_model.specs.Place.{start_of};
ghost use Rattle.vpc_model.specs.Replay.{replay_of};
ghost use Rattle.vpc_model.specs.Sound.{is_sound};

use appliances::Deciders;
pub use command::ReplayCommand;
use fabric::Fabric;
pub use laws::keeps_ports_apart;
use packet_emulator::Session;
use std::alloc::Global;
use vpc_base::NoMemory;
use vpc_model::{Event, Outcome};

// How the walk of each packet ends, one after another.
fn outcomes_of(
    alloc: Global,
    f: &Fabric,
    deciders: &Deciders,
    events: &[Event],
) -> Result<Vec<Outcome>, NoMemory>
    requires starts { All (λ e. IsTrue (is_sound f.now (start_of e.start))) events.now }
    ensures outcomes { IfOk result (λ v.
        v.items ≡ replay_of f.now deciders.now.appliances events.now) }
    ensures told { IfOk result (λ v. All (EndsWell f.now) v.items) }
{
    let mut session = Session::new(alloc);
    let mut outcomes = Vec::with_capacity(alloc, events.len())?;
    for e in events {
        let outcome = session.forward(f, deciders, e)?;
        outcomes.push(outcome)?;
    }
    Ok(outcomes)
}

/// How the walk of each packet ends, in the order of the events. The first packet meets a network that
/// remembers nothing.
pub fn replay(
    alloc: Global,
    f: &Fabric,
    deciders: &Deciders,
    events: &[Event],
) -> Result<Vec<Outcome>, NoMemory>
    requires starts { All (λ e. IsTrue (is_sound f.now (start_of e.start))) events.now }
    ensures outcomes { IfOk result (λ v.
        v.items ≡ replay_of f.now deciders.now.appliances events.now) }
    ensures let_in { AnswersAreLetIn f.now deciders.now.appliances events.now }
    ensures to_opens { AnswersAreToOpens f.now deciders.now.appliances events.now }
    ensures ports { All HasPort events.now → PortsStayApart f.now deciders.now.appliances events.now }
    ensures told { IfOk result (λ v. All (EndsWell f.now) v.items) }
{
    outcomes_of(alloc, f, deciders, events)
}
