// What `trace` answers.
ghost use Rattle.std.specs.Prelude.{◌≡◌, ◌≢◌, All, IfOk, IsTrue, length, map, string_bytes};
ghost use Rattle.query_words.specs.declared.refusal.QueryRefusal.TheVariants as refusals;
ghost use Rattle.packet_trace.specs.Traced.{IsTraced, IsWalked, packet_refusal_line, status_of};
ghost use Rattle.block_report.specs.Walks.{walk_text};
ghost use Rattle.vpc_laws.specs.Sound.{EndsWell, IsSoundHop};
ghost use Rattle.vpc_model.specs.Appliances.{appliances_of};
ghost use Rattle.vpc_model.specs.Place.{start_of};
ghost use Rattle.vpc_model.specs.Sound.{is_sound};

use crate::walks::{status_of, walk_event};
use appliances::Deciders;
use block_report::{put, put_end, put_query_refusal, put_walk};
use command_job::{Answer, Job, Status, answer_job};
use fabric::Fabric;
use packet_emulator::Hops;
use query_words::{QueryRefusal, read_packet};
use reference_check::Network;
use std::alloc::Global;
use std::mem;
use vpc_base::NoMemory;
use vpc_model::{Event, Hop, Outcome};

// The lines of a walk.
fn answer_walk(
    alloc: Global,
    n: &Network,
    hops: &[Hop],
    outcome: &Outcome,
) -> Result<Answer, NoMemory>
    requires hops { All (IsSoundHop n.now) hops.now }
    requires end { EndsWell n.now outcome.now }
    ensures status { IfOk result (λ a. a.status ≡ status_of outcome.now) }
    ensures text { IfOk result (λ a. a.text.items ≡ walk_text n.now hops.now outcome.now) }
{
    let mut text = Vec::new(alloc);
    put_walk(&mut text, n, hops, outcome)?;
    Ok(Answer {
        status: status_of(outcome),
        text,
    })
}

// The walk of a packet with nothing remembered before it.
fn walk_with(
    alloc: Global,
    fabric: &Fabric,
    deciders: &Deciders,
    e: &Event,
) -> Result<Answer, NoMemory>
    requires start { IsTrue (is_sound fabric.now (start_of e.now.start)) }
    requires appliances { deciders.now.appliances ≡ appliances_of fabric.now }
    ensures { IfOk result (λ a. IsWalked fabric.now e.now a.status a.text.items) }
{
    let mut hops = Hops::new();
    let outcome = walk_event(fabric, deciders, e, &mut hops);
    answer_walk(alloc, fabric.network(), hops.as_slice(), &outcome)
}

// The walk of a packet.
#[derive(Drop)]
struct Walking<'a> {
    event: &'a Event,
}

impl<'a> Job for Walking<'a> {
    ghost use Rattle.packet_trace.specs.Traced.{IsWalked};

    ghost fits = { λ j d. let e = j.event.now in IsTrue (is_sound d (start_of e.start)) };

    ghost answers = { λ j d. IsWalked d j.event.now };

    fn answer_with(
        &self,
        alloc: Global,
        f: &Fabric,
        deciders: &Deciders,
    ) -> Result<Answer, NoMemory> {
        walk_with(alloc, f, deciders, self.event)
    }
}

/// Refuses the words of a packet for the first cause against them.
pub fn refuse_packet(alloc: Global, refusal: &QueryRefusal) -> Result<Answer, NoMemory>
    ensures line { IfOk result (λ a.
        (a.status ≡ Status.Query) × (a.text.items ≡ packet_refusal_line refusal.now)) }
    ensures cause { IfOk result (λ a. refusal.now ≢ refusals.Memory) }
{
    if let QueryRefusal::Memory = refusal {
        return Err(NoMemory);
    }
    let mut text = Vec::new(alloc);
    put(&mut text, b"refused packet ")?;
    put_query_refusal(&mut text, refusal)?;
    put_end(&mut text)?;
    Ok(Answer {
        status: Status::Query,
        text,
    })
}

/// The walk of the packet that the words give.
pub fn trace(alloc: Global, network: Network, words: &[String]) -> Result<Answer, NoMemory>
    requires { length words.now ≡ 10 }
    ensures { IfOk result (λ a. IsTraced network (map string_bytes words.now) a.status a.text.items) }
{
    match read_packet(alloc, &network, words) {
        Ok(event) => answer_job(alloc, network, &Walking { event: &event }),
        Err(refusal) => {
            mem::forget(network);
            refuse_packet(alloc, &refusal)
        }
    }
}
