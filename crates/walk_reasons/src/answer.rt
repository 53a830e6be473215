// What `why` answers.
ghost use Rattle.std.specs.Prelude.{◌≡◌, All, IfOk, IsTrue, length, map, string_bytes};
ghost use Rattle.packet_trace.specs.Traced.{status_of};
ghost use Rattle.vpc_laws.specs.Sound.{EndsWell, IsSoundHop};
ghost use Rattle.vpc_model.specs.Appliances.{appliances_of};
ghost use Rattle.vpc_model.specs.Place.{start_of};
ghost use Rattle.vpc_model.specs.Sound.{is_sound};
ghost use Rattle.walk_reasons.specs.Explained.{IsExplained, IsWhyAnswered};
ghost use Rattle.walk_reasons.specs.Reasons.{reasons_text};

use crate::walks::put_reasons;
use appliances::Deciders;
use command_job::{Answer, Job, answer_job};
use fabric::Fabric;
use packet_emulator::Hops;
use packet_trace::{refuse_packet, status_of, walk_event};
use query_words::read_packet;
use reference_check::Network;
use std::alloc::Global;
use std::mem;
use vpc_base::{Header, NoMemory};
use vpc_model::{Event, Hop, Outcome};

// The lines of a walk, with what decided.
fn answer_reasons(
    alloc: Global,
    f: &Fabric,
    sent: &Header,
    hops: &[Hop],
    outcome: &Outcome,
) -> Result<Answer, NoMemory>
    requires hops { All (IsSoundHop f.now) hops.now }
    requires end { EndsWell f.now outcome.now }
    ensures status { IfOk result (λ a. a.status ≡ status_of outcome.now) }
    ensures text { IfOk result (λ a. a.text.items ≡ reasons_text f.now sent.now hops.now outcome.now) }
{
    let mut text = Vec::new(alloc);
    put_reasons(&mut text, f, sent, hops, outcome)?;
    Ok(Answer {
        status: status_of(outcome),
        text,
    })
}

// The walk of a packet with nothing remembered before it, and what decided.
fn explain(alloc: Global, f: &Fabric, deciders: &Deciders, e: &Event) -> Result<Answer, NoMemory>
    requires start { IsTrue (is_sound f.now (start_of e.now.start)) }
    requires appliances { deciders.now.appliances ≡ appliances_of f.now }
    ensures { IfOk result (λ a. IsExplained f.now e.now a.status a.text.items) }
{
    let mut hops = Hops::new();
    let outcome = walk_event(f, deciders, e, &mut hops);
    answer_reasons(alloc, f, &e.header, hops.as_slice(), &outcome)
}

// The walk of a packet, explained.
#[derive(Drop)]
struct Explaining<'a> {
    event: &'a Event,
}

impl<'a> Job for Explaining<'a> {
    ghost use Rattle.walk_reasons.specs.Explained.{IsExplained};

    ghost fits = { λ j d. let e = j.event.now in IsTrue (is_sound d (start_of e.start)) };

    ghost answers = { λ j d. IsExplained d j.event.now };

    fn answer_with(
        &self,
        alloc: Global,
        f: &Fabric,
        deciders: &Deciders,
    ) -> Result<Answer, NoMemory> {
        explain(alloc, f, deciders, self.event)
    }
}

/// The walk of the packet that the words give, with what decided at each of its places.
pub fn why(alloc: Global, network: Network, words: &[String]) -> Result<Answer, NoMemory>
    requires { length words.now ≡ 10 }
    ensures { IfOk result (λ a. IsWhyAnswered network (map string_bytes words.now) a.status a.text.items) }
{
    match read_packet(alloc, &network, words) {
        Ok(event) => answer_job(alloc, network, &Explaining { event: &event }),
        Err(refusal) => {
            mem::forget(network);
            refuse_packet(alloc, &refusal)
        }
    }
}
