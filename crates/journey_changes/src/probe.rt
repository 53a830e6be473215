// What becomes of the requests of a part of a box in one network.
ghost use Rattle.std.specs.Prelude.{◌≡◌, IfSome, Some};
ghost use Rattle.vpc_base.specs.Cuts.{AreAmong};
ghost use Rattle.header_boxes.specs.Boxes.{IsValid, low_of};
ghost use Rattle.box_images.specs.Answers.{Answers};
ghost use Rattle.vpc_model.specs.Appliances.{appliances_of};
ghost use Rattle.vpc_model.specs.Verdict.{homes_among};
ghost use Rattle.box_walk.specs.Asking.{asked_by, homes_by};
ghost use Rattle.box_walk.specs.Open.{starting_by};
ghost use Rattle.journey_changes.specs.Alike.{ComeTo};
ghost use Rattle.journey_changes.specs.Sent.{AreSentWell, fate, goal_or, near, reached, sent, start_or};

use crate::fates::{Barrier, Toward, fate_by, fate_unless, goal_unless, missing_by, reached_by};
use appliances::Deciders;
use box_images::Part;
use box_walk::{Arrivals, OpenProbe, RoundProbe};
use fabric::Fabric;
use header_boxes::Box5;
use ordered_cover::Probe;
use reference_check::Network;
use std::marker::Model;
use vpc_model::{End, FarNo};

// Requests from a start, where the network has it, and where they are to arrive.
#[derive(Drop)]
struct Requests<'a> {
    fabric: &'a Fabric,
    start: Option<End>,
    // What is taken to lead to one network, where the start is one that isn't described.
    links: &'a [FarNo],
    toward: Toward,
}

impl<'a> Model for Requests<'a> {
    ghost use Rattle.journey_changes.specs.Sent.{Sent, sent};

    ghost Value = { Sent };

    ghost view = { λ r. sent r.fabric.now r.start r.links.now r.toward };
}

impl<'a> Requests<'a> {
    fn fabric(&self) -> &Fabric
        ensures { result.now ≡ self.now.network }
    {
        self.fabric
    }

    fn network(&self) -> &Network
        ensures { result.now ≡ self.now.network }
    {
        self.fabric.network()
    }

    fn start(&self) -> Option<End>
        ensures { result ≡ self.now.start }
    {
        self.start
    }

    fn links(&self) -> &'a [FarNo]
        ensures { result.now ≡ self.now.links }
    {
        self.links
    }

    fn toward(&self) -> Toward
        ensures { result ≡ self.now.toward }
    {
        self.toward
    }

    fn turn(&mut self, start: Option<End>)
        ensures { self.new ≡ sent self.old.network start self.old.links self.old.toward }
    {
        self.start = start;
    }
}

/// What becomes of requests that are sent in one network. A part that is answered is one on which the answer depends on
/// the cuts at the places of the journey alone.
pub struct FateProbe<'a> {
    // Contracts see it as the network, the start, the links and where requests are to arrive.
    sent: Requests<'a>,
    // Where the network has no such start, or there is no goal, these are never asked.
    open: OpenProbe<'a>,
    round: RoundProbe<'a>,
    ghost same_open: { starting_by open.fabric.now (homes_by open.links.now open.start)
        ≡ starting_by sent.network (homes_among sent.links (start_or sent.start)) },
    ghost same_round: { asked_by round.fabric.now (homes_by round.links.now round.start) round.goal
        ≡ asked_by sent.network (homes_among sent.links (start_or sent.start)) (goal_or sent.toward) },
}

impl<'a> Drop for FateProbe<'a> {
    fn drop(self) {
        let FateProbe { sent, open, round } = self;
        drop(sent);
        drop(open);
        drop(round);
    }
}

fn start_or(start: Option<End>) -> End
    ensures { result ≡ start_or start }
{
    match start {
        Some(start) => start,
        None => End::Internet,
    }
}

fn goal_or(toward: Toward) -> End
    ensures { result ≡ goal_or toward }
{
    match toward {
        Toward::Goal(goal) => goal,
        Toward::Any => End::Internet,
        Toward::Missing => End::Internet,
    }
}

impl<'a> FateProbe<'a> {
    /// The probe for requests from the start, where the network has it, with the appliances that it describes. Where the
    /// start is a network that isn't described, it is taken to lie behind each of the `links`, and replies may arrive there.
    pub fn of(
        f: &'a Fabric,
        deciders: &'a Deciders,
        start: Option<End>,
        links: &'a [FarNo],
        toward: Toward,
    ) -> FateProbe<'a>
        requires appliances { deciders.now.appliances ≡ appliances_of f.now }
        requires ends { AreSentWell (sent f.now start links.now toward) }
        ensures { result.sent ≡ sent f.now start links.now toward }
    {
        let mut open = OpenProbe::of(f, deciders, start_or(start));
        open.turn_among(start_or(start), links);
        let mut round = RoundProbe::of(f, deciders, start_or(start), goal_or(toward));
        round.turn_among(start_or(start), links, goal_or(toward));
        let sent = Requests {
            fabric: f,
            start,
            links,
            toward,
        };
        FateProbe { sent, open, round }
    }

    /// Asks about requests from another start from here on, by the same moments: many starts are asked about by one probe.
    pub fn turn(&mut self, start: Option<End>)
        requires { AreSentWell (sent self.old.sent.network start self.old.sent.links self.old.sent.toward) }
        ensures { self.new.sent
            ≡ sent self.old.sent.network start self.old.sent.links self.old.sent.toward }
    {
        self.sent.turn(start);
        let links = self.sent.links();
        self.open.turn_among(start_or(start), links);
        self.round
            .turn_among(start_or(start), links, goal_or(self.sent.toward()));
    }

    /// Requests of a part of the sides that come to one interface by the same places, where they may arrive at any end.
    pub(crate) fn arrivals_on(&self, sides: &Box5) -> Option<Arrivals>
        requires { IsValid sides.now }
        ensures { IfSome result (ComeTo self.now.sent sides.now) }
    {
        self.sent.start()?;
        match self.sent.toward() {
            Toward::Any => self.open.arrivals_on(sides),
            _ => None,
        }
    }

    /// Its network with its look-ups.
    pub(crate) fn fabric(&self) -> &Fabric
        ensures { result.now ≡ self.now.sent.network }
    {
        self.sent.fabric()
    }

    /// Its network.
    pub(crate) fn network(&self) -> &Network
        ensures { result.now ≡ self.now.sent.network }
    {
        self.sent.network()
    }

    // Which end requests from a start that is there reach.
    fn reached_from(&self, start: End, sides: &Box5) -> Part<Option<End>>
        requires valid { IsValid sides.now }
        requires start { self.now.sent.start ≡ Some start }
        ensures { Answers (AreAmong (near self.now.sent (low_of sides.now)))
            (reached self.now.sent) sides.now result }
    {
        match self.sent.toward() {
            Toward::Missing => Part {
                body: *sides,
                told: None,
            },
            Toward::Any => {
                let answer = self.open.journey_on(sides);
                Part {
                    body: answer.body,
                    told: reached_by(fate_by(answer.told)),
                }
            }
            Toward::Goal(goal) => {
                let answer = self.round.is_stopped_on(sides);
                Part {
                    body: answer.body,
                    told: goal_unless(goal, answer.told),
                }
            }
        }
    }

    /// Which end the requests of a part of the sides reach, without what keeps them from one: the part is larger than one of
    /// which that is told.
    pub fn reached_on(&self, sides: &Box5) -> Part<Option<End>>
        requires { IsValid sides.now }
        ensures { Answers (AreAmong (near self.now.sent (low_of sides.now)))
            (reached self.now.sent) sides.now result }
    {
        match self.sent.start() {
            Some(start) => self.reached_from(start, sides),
            None => Part {
                body: *sides,
                told: None,
            },
        }
    }

    // What becomes of requests from a start that is there.
    fn fate_from(&self, start: End, sides: &Box5) -> Part<Result<End, Barrier>>
        requires valid { IsValid sides.now }
        requires start { self.now.sent.start ≡ Some start }
        ensures { Answers (AreAmong (near self.now.sent (low_of sides.now)))
            (fate self.now.sent) sides.now result }
    {
        match self.sent.toward() {
            Toward::Any => {
                let answer = self.open.journey_on(sides);
                Part {
                    body: answer.body,
                    told: fate_by(answer.told),
                }
            }
            Toward::Missing => {
                let answer = self.open.journey_on(sides);
                Part {
                    body: answer.body,
                    told: missing_by(answer.told),
                }
            }
            Toward::Goal(goal) => {
                let (body, told) = self.round.probe(sides);
                Part {
                    body,
                    told: fate_unless(goal, told),
                }
            }
        }
    }

    /// What becomes of the requests of a part of the sides.
    pub fn fate_on(&self, sides: &Box5) -> Part<Result<End, Barrier>>
        requires { IsValid sides.now }
        ensures { Answers (AreAmong (near self.now.sent (low_of sides.now)))
            (fate self.now.sent) sides.now result }
    {
        match self.sent.start() {
            Some(start) => self.fate_from(start, sides),
            None => Part {
                body: *sides,
                told: Err(Barrier::Absent),
            },
        }
    }
}
