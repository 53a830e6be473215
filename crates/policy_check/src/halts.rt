// The first requests that don't get through.
ghost use Rattle.std.specs.Prelude.{◌≡◌, ◌≢◌, IfOk};
ghost use Rattle.box_walk.specs.Asking.{asked};
ghost use Rattle.header_boxes.specs.Rows.{IsFirst};
ghost use Rattle.network_reach.specs.Reached.{IsQueryIn};
ghost use Rattle.vpc_model.specs.Appliances.{appliances_of};
ghost use Rattle.policy_check.specs.Judged.{IsFirstHalt, verdict_in};
ghost use Rattle.policy_check.specs.Stopped.{halting_of, passing_of};

use crate::certainties::Certainty;
use crate::stopped::{HaltProbe, StoppedProbe};
use appliances::Deciders;
use box_walk::RoundProbe;
use fabric::Fabric;
use ordered_cover::search::first;
use packet_emulator::round;
use query_words::Query;
use std::alloc::Global;
use vpc_base::{Header, NoMemory};
use vpc_model::{Phase, Stop, Verdict};

/// A request that doesn't get through.
#[derive(Clone, Copy)]
pub struct Halt {
    pub header: Header,
    /// Whether it is stopped itself, or its reply.
    pub phase: Phase,
    pub stop: Stop,
}

// The first request of a query that doesn't get through, if one doesn't. Nothing is asked of what stops it.
pub(crate) fn first_stopped(
    alloc: Global,
    f: &Fabric,
    deciders: &Deciders,
    query: &Query,
) -> Result<Option<Header>, NoMemory>
    requires appliances { deciders.now.appliances ≡ appliances_of f.now }
    requires query { IsQueryIn f.now query.now }
    ensures { IfOk result
        (IsFirst (passing_of (asked f.now query.now.start query.now.goal)) query.now.sides) }
{
    let round = RoundProbe::of(f, deciders, query.start, query.goal);
    first(alloc, &StoppedProbe::of(&round), query.sides)
}

// What stops a request, or its reply.
pub(crate) fn halt_at(f: &Fabric, deciders: &Deciders, query: &Query, h: Header) -> Halt
    requires appliances { deciders.now.appliances ≡ appliances_of f.now }
    requires query { IsQueryIn f.now query.now }
    requires stopped { verdict_in f.now query.now h ≢ Verdict.Through }
    ensures header { result.header ≡ h }
    ensures stopped { verdict_in f.now query.now h ≡ Verdict.Stopped result.phase result.stop }
{
    match round(f, deciders, query.start, query.goal, h) {
        Verdict::Stopped(phase, stop) => Halt {
            header: h,
            phase,
            stop,
        },
        Verdict::Through => unreachable!(),
    }
}

// The first request of a query that doesn't get through, and of which so much is known, if there is one.
fn first_of(
    alloc: Global,
    f: &Fabric,
    deciders: &Deciders,
    query: &Query,
    certainty: Certainty,
) -> Result<Option<Header>, NoMemory>
    requires appliances { deciders.now.appliances ≡ appliances_of f.now }
    requires query { IsQueryIn f.now query.now }
    ensures { IfOk result (IsFirst
        (halting_of certainty (asked f.now query.now.start query.now.goal)) query.now.sides) }
{
    let round = RoundProbe::of(f, deciders, query.start, query.goal);
    first(alloc, &HaltProbe::of(&round, certainty), query.sides)
}

/// The first request of a query that doesn't get through, and of which so much is known, with what stops it or its
/// reply, if there is one.
pub fn first_halt(
    alloc: Global,
    f: &Fabric,
    deciders: &Deciders,
    query: &Query,
    certainty: Certainty,
) -> Result<Option<Halt>, NoMemory>
    requires appliances { deciders.now.appliances ≡ appliances_of f.now }
    requires query { IsQueryIn f.now query.now }
    ensures { IfOk result (IsFirstHalt f.now query.now certainty) }
{
    match first_of(alloc, f, deciders, query, certainty)? {
        None => Ok(None),
        Some(h) => Ok(Some(halt_at(f, deciders, query, h))),
    }
}
