// The probe that asks whether requests get through, and not what stops the others.
ghost use Rattle.std.specs.Prelude.{◌≡◌, ◌↔◌, IsTrue};
ghost use Rattle.box_walk.specs.Asking.{asked_by, homes_by, stopped_of};

use crate::probe::RoundProbe;
use header_boxes::Box5;
use ordered_cover::Probe;

/// Whether something stops requests from one end to another, or their replies. Requests that can no longer arrive at
/// the goal are given up before the rules at another interface tell them apart, so a part that is answered is larger
/// than that of the probe which tells what stops it.
#[derive(Drop)]
pub struct ThroughProbe<'a, 'b> {
    round: &'a RoundProbe<'b>,
}

impl<'a, 'b> ThroughProbe<'a, 'b> {
    /// The probe for the ends of another one, by the moment of that one.
    pub fn of(round: &'a RoundProbe<'b>) -> ThroughProbe<'a, 'b>
        ensures { asked_by result.round.now.fabric.now
            (homes_by result.round.now.links.now result.round.now.start) result.round.now.goal
            ≡ asked_by round.now.fabric.now
            (homes_by round.now.links.now round.now.start) round.now.goal }
    {
        ThroughProbe { round }
    }
}

impl<'a, 'b> Probe for ThroughProbe<'a, 'b> {
    ghost use Rattle.vpc_model.specs.Appliances.{appliances_of};
    ghost use Rattle.vpc_model.specs.Cuts.{cuts_of};
    ghost use Rattle.vpc_model.specs.Near.{near_cuts};
    ghost use Rattle.cut_laws.proofs.Places.{near_cuts_are_among_all};

    type Word = ();

    ghost meaning = { λ p h. stopped_of (asked_by p.round.now.fabric.now
        (homes_by p.round.now.links.now p.round.now.start) p.round.now.goal) h };

    ghost cuts = { λ p. cuts_of p.round.now.fabric.now };

    ghost near = { λ p h. near_cuts p.round.now.fabric.now
        (appliances_of p.round.now.fabric.now) p.round.now.start p.round.now.goal h };

    ghost near_among = { λ p h. near_cuts_are_among_all p.round.now.fabric.now
        (appliances_of p.round.now.fabric.now) p.round.now.start p.round.now.goal h };

    fn is_same(one: (), other: ()) -> bool
        ensures { IsTrue result ↔ (one ≡ other) }
    {
        true
    }

    fn probe(&self, sides: &Box5) -> (Box5, Option<()>) {
        let answer = self.round.is_stopped_on(sides);
        (answer.body, answer.told)
    }
}
