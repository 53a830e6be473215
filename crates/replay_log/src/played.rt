// What `replay` answers.
ghost use Rattle.std.specs.Prelude.{◌≡◌, All, IfOk};
ghost use Rattle.block_report.specs.Replays.{replay_text};
ghost use Rattle.query_words.specs.Events.{StartsWell};
ghost use Rattle.replay_log.specs.Replayed.{ArePlayed, IsReplayedFrom};
ghost use Rattle.vpc_laws.specs.Sound.{EndsWell};
ghost use Rattle.vpc_model.specs.Appliances.{appliances_of};

use crate::replay;
use appliances::Deciders;
use block_report::put_replay;
use command_job::{Answer, Job, Status, answer_job, refuse_line};
use fabric::Fabric;
use query_words::{EventFault, read_events};
use reference_check::Network;
use std::alloc::Global;
use std::mem;
use vpc_base::NoMemory;
use vpc_model::{Event, Outcome};

// The lines of packets that ended so.
fn answer_outcomes(alloc: Global, n: &Network, outcomes: &[Outcome]) -> Result<Answer, NoMemory>
    requires { All (EndsWell n.now) outcomes.now }
    ensures status { IfOk result (λ a. a.status ≡ Status.Yes) }
    ensures text { IfOk result (λ a. a.text.items ≡ replay_text n.now outcomes.now) }
{
    let mut text = Vec::new(alloc);
    put_replay(&mut text, n, outcomes)?;
    Ok(Answer {
        status: Status::Yes,
        text,
    })
}

// A line for each packet, by these deciders.
fn replay_with(
    alloc: Global,
    fabric: &Fabric,
    deciders: &Deciders,
    events: &[Event],
) -> Result<Answer, NoMemory>
    requires starts { All (StartsWell fabric.now) events.now }
    requires appliances { deciders.now.appliances ≡ appliances_of fabric.now }
    ensures { IfOk result (λ a. ArePlayed fabric.now events.now a.status a.text.items) }
{
    let outcomes = replay(alloc, fabric, deciders, events)?;
    answer_outcomes(alloc, fabric.network(), outcomes.as_slice())
}

// Packets that come one after another.
#[derive(Drop)]
struct Replaying<'a> {
    events: &'a [Event],
}

impl<'a> Job for Replaying<'a> {
    ghost use Rattle.replay_log.specs.Replayed.{ArePlayed};

    ghost fits = { λ j d. All (StartsWell d) j.events.now };

    ghost answers = { λ j d. ArePlayed d j.events.now };

    fn answer_with(
        &self,
        alloc: Global,
        f: &Fabric,
        deciders: &Deciders,
    ) -> Result<Answer, NoMemory> {
        replay_with(alloc, f, deciders, self.events)
    }
}

/// How each packet ends that the bytes give, one after another.
pub fn replay_bytes(alloc: Global, network: Network, bytes: &[u8]) -> Result<Answer, NoMemory>
    ensures { IfOk result (λ a. IsReplayedFrom network bytes.now a.status a.text.items) }
{
    match read_events(alloc, &network, bytes) {
        Ok(events) => {
            let job = Replaying {
                events: events.as_slice(),
            };
            answer_job(alloc, network, &job)
        }
        Err(EventFault::BadLine(number)) => {
            mem::forget(network);
            refuse_line(alloc, b"events", number)
        }
        Err(EventFault::Memory) => {
            mem::forget(network);
            Err(NoMemory)
        }
    }
}
