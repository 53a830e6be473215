// The probe that asks which requests get through to a goal.
ghost use Rattle.std.specs.Prelude.{◌≡◌, ◌↔◌, IsTrue};
ghost use Rattle.box_walk.specs.Asking.{asked_by, homes_by};
ghost use Rattle.box_walk.specs.Goal.{goal_unless};

use crate::probe::RoundProbe;
use header_boxes::Box5;
use ordered_cover::Probe;
use packet_emulator::same_end;
use vpc_model::End;

/// Tells the goal of those requests that get through to it, and nothing of the others.
#[derive(Drop)]
pub struct GoalProbe<'a, 'b> {
    round: &'a RoundProbe<'b>,
    goal: End,
    ghost same: { goal ≡ round.now.goal },
}

fn goal_unless(goal: End, stopped: Option<()>) -> Option<End>
    ensures { result ≡ goal_unless goal stopped }
{
    match stopped {
        Some(_) => None,
        None => Some(goal),
    }
}

impl<'a, 'b> GoalProbe<'a, 'b> {
    /// The probe for the ends of another one, by the moment of that one.
    pub fn of(round: &'a RoundProbe<'b>) -> GoalProbe<'a, 'b>
        ensures { asked_by result.round.now.fabric.now
            (homes_by result.round.now.links.now result.round.now.start) result.round.now.goal
            ≡ asked_by round.now.fabric.now
            (homes_by round.now.links.now round.now.start) round.now.goal }
    {
        GoalProbe {
            round,
            goal: round.goal(),
        }
    }
}

impl<'a, 'b> Probe for GoalProbe<'a, 'b> {
    ghost use Rattle.std.specs.Prelude.{Some};
    ghost use Rattle.vpc_model.specs.Appliances.{appliances_of};
    ghost use Rattle.vpc_model.specs.Cuts.{cuts_of};
    ghost use Rattle.vpc_model.specs.Near.{near_cuts};
    ghost use Rattle.cut_laws.proofs.Places.{near_cuts_are_among_all};
    ghost use Rattle.box_walk.specs.Journeys.{reached_of};

    type Word = End;

    ghost meaning = { λ p h. reached_of p.round.now.fabric.now
        (appliances_of p.round.now.fabric.now)
        (homes_by p.round.now.links.now p.round.now.start) (Some p.round.now.goal) h };

    ghost cuts = { λ p. cuts_of p.round.now.fabric.now };

    ghost near = { λ p h. near_cuts p.round.now.fabric.now
        (appliances_of p.round.now.fabric.now) p.round.now.start p.round.now.goal h };

    ghost near_among = { λ p h. near_cuts_are_among_all p.round.now.fabric.now
        (appliances_of p.round.now.fabric.now) p.round.now.start p.round.now.goal h };

    fn is_same(one: End, other: End) -> bool
        ensures { IsTrue result ↔ (one ≡ other) }
    {
        same_end(one, other)
    }

    fn probe(&self, sides: &Box5) -> (Box5, Option<End>) {
        let answer = self.round.is_stopped_on(sides);
        (answer.body, goal_unless(self.goal, answer.told))
    }
}
