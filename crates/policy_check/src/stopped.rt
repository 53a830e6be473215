// The probes that find what doesn't get through.
ghost use Rattle.std.specs.Prelude.{◌≡◌, ◌↔◌, IsTrue};
ghost use Rattle.box_walk.specs.Asking.{asked_by, homes_by};
ghost use Rattle.policy_check.specs.Stopped.{halting_of, passing_of, turned, unless_halted, unless_same};

use crate::certainties::{Certainty, certainty_of};
use box_walk::RoundProbe;
use header_boxes::Box5;
use ordered_cover::Probe;
use vpc_model::{Phase, Stop};

// ---- what doesn't get through

fn turned(told: Option<()>) -> Option<()>
    ensures { result ≡ turned told }
{
    match told {
        None => Some(()),
        Some(_) => None,
    }
}

/// Whether requests from one end to another get through, with their replies. What doesn't counts as getting through
/// here, so that a search finds the first request that doesn't.
#[derive(Drop)]
pub struct StoppedProbe<'a, 'b> {
    round: &'a RoundProbe<'b>,
}

impl<'a, 'b> StoppedProbe<'a, 'b> {
    /// The probe for the ends of another one, by the moment of that one.
    pub fn of(round: &'a RoundProbe<'b>) -> StoppedProbe<'a, 'b>
        ensures { asked_by result.round.now.fabric.now
            (homes_by result.round.now.links.now result.round.now.start) result.round.now.goal
            ≡ asked_by round.now.fabric.now
            (homes_by round.now.links.now round.now.start) round.now.goal }
    {
        StoppedProbe { round }
    }
}

impl<'a, 'b> Probe for StoppedProbe<'a, 'b> {
    ghost use Rattle.vpc_model.specs.Appliances.{appliances_of};
    ghost use Rattle.vpc_model.specs.Cuts.{cuts_of};
    ghost use Rattle.vpc_model.specs.Near.{near_cuts};
    ghost use Rattle.cut_laws.proofs.Places.{near_cuts_are_among_all};

    type Word = ();

    ghost meaning = { λ p h. passing_of (asked_by p.round.now.fabric.now
        (homes_by p.round.now.links.now p.round.now.start) p.round.now.goal) h };

    ghost cuts = { λ p. cuts_of p.round.now.fabric.now };

    ghost near = { λ p h. near_cuts p.round.now.fabric.now
        (appliances_of p.round.now.fabric.now) p.round.now.start p.round.now.goal h };

    ghost near_among = { λ p h. near_cuts_are_among_all p.round.now.fabric.now
        (appliances_of p.round.now.fabric.now) p.round.now.start p.round.now.goal h };

    fn is_same(one: (), other: ()) -> bool
        ensures { IsTrue result ↔ (one ≡ other) }
    {
        true
    }

    fn probe(&self, sides: &Box5) -> (Box5, Option<()>) {
        let answer = self.round.is_stopped_on(sides);
        (answer.body, turned(answer.told))
    }
}

// ---- of what is known, and of what isn't

fn unless_same(one: Certainty, other: Certainty) -> Option<()>
    ensures { result ≡ unless_same one other }
{
    match (one, other) {
        (Certainty::Known, Certainty::Known) => None,
        (Certainty::Unknown, Certainty::Unknown) => None,
        _ => Some(()),
    }
}

fn unless_halted(certainty: Certainty, told: Option<(Phase, Stop)>) -> Option<()>
    ensures { result ≡ unless_halted certainty told }
{
    match told {
        None => Some(()),
        Some((_, stop)) => unless_same(certainty, certainty_of(stop.name())),
    }
}

/// What stops requests from one end to another, or their replies. What is stopped, and of which so much is known, counts
/// as getting through here, so that a search finds the first such request.
#[derive(Drop)]
pub struct HaltProbe<'a, 'b> {
    round: &'a RoundProbe<'b>,
    certainty: Certainty,
}

impl<'a, 'b> HaltProbe<'a, 'b> {
    /// The probe for the ends of another one, by the moment of that one.
    pub fn of(round: &'a RoundProbe<'b>, certainty: Certainty) -> HaltProbe<'a, 'b>
        ensures asked { asked_by result.round.now.fabric.now
            (homes_by result.round.now.links.now result.round.now.start) result.round.now.goal
            ≡ asked_by round.now.fabric.now
            (homes_by round.now.links.now round.now.start) round.now.goal }
        ensures certainty { result.certainty ≡ certainty }
    {
        HaltProbe { round, certainty }
    }
}

impl<'a, 'b> Probe for HaltProbe<'a, 'b> {
    ghost use Rattle.vpc_model.specs.Appliances.{appliances_of};
    ghost use Rattle.vpc_model.specs.Cuts.{cuts_of};
    ghost use Rattle.vpc_model.specs.Near.{near_cuts};
    ghost use Rattle.cut_laws.proofs.Places.{near_cuts_are_among_all};

    type Word = ();

    ghost meaning = { λ p h. halting_of p.certainty
        (asked_by p.round.now.fabric.now
        (homes_by p.round.now.links.now p.round.now.start) p.round.now.goal) h };

    ghost cuts = { λ p. cuts_of p.round.now.fabric.now };

    ghost near = { λ p h. near_cuts p.round.now.fabric.now
        (appliances_of p.round.now.fabric.now) p.round.now.start p.round.now.goal h };

    ghost near_among = { λ p h. near_cuts_are_among_all p.round.now.fabric.now
        (appliances_of p.round.now.fabric.now) p.round.now.start p.round.now.goal h };

    fn is_same(one: (), other: ()) -> bool
        ensures { IsTrue result ↔ (one ≡ other) }
    {
        true
    }

    fn probe(&self, sides: &Box5) -> (Box5, Option<()>) {
        let (part, told) = self.round.probe(sides);
        (part, unless_halted(self.certainty, told))
    }
}
