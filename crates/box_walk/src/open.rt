// The probe that asks at which end requests from a start get through.
ghost use Rattle.std.specs.Prelude.{◌≡◌, ◌↔◌, IfSome, IsTrue, None, true};
ghost use Rattle.header_boxes.specs.Boxes.{IsValid};
ghost use Rattle.vpc_model.specs.Appliances.{appliances_of};
ghost use Rattle.vpc_model.specs.Sound.{is_end};
ghost use Rattle.vpc_model.specs.Verdict.{homes_among};
ghost use Rattle.box_walk.specs.Arriving.{AreArrivals};
ghost use Rattle.box_walk.specs.Asking.{homes_by};
ghost use Rattle.box_walk.specs.Journeys.{reached_end};
ghost use Rattle.box_walk.specs.Open.{AnswersJourney, starting, starting_by};

use crate::arriving::{Arrivals, arrivals_of};
use crate::journeys::{Journey, journey_on};
use crate::probe::{begin, links_of, moment_at};
use appliances::Deciders;
use box_images::Part;
use box_steps::BoxMoment;
use fabric::Fabric;
use header_boxes::Box5;
use ordered_cover::Probe;
use packet_emulator::same_end;
use std::cell::RefCell;
use vpc_model::{End, FarNo};

/// At which end requests from a start get through, whatever end that is. A part that is answered is one for which all
/// requests pass the same places to the same end, and so do their replies.
pub struct OpenProbe<'a> {
    fabric: &'a Fabric,
    deciders: &'a Deciders,
    start: End,
    // As those of the probe with a goal.
    links: &'a [FarNo],
    // As that of the probe with a goal.
    followed: RefCell<BoxMoment>,
    ghost known: { is_end fabric.now start ≡ true },
    ghost described: { deciders.now.appliances ≡ appliances_of fabric.now },
}

impl<'a> Drop for OpenProbe<'a> {
    fn drop(self) {
        let OpenProbe {
            fabric: _,
            deciders: _,
            start: _,
            links: _,
            followed,
        } = self;
        drop(followed);
    }
}

fn reached_end(journey: Journey) -> Option<End>
    ensures { result ≡ reached_end journey }
{
    match journey {
        Journey::Reached(end) => Some(end),
        Journey::Stopped(_, _) => None,
    }
}

impl<'a> OpenProbe<'a> {
    /// The probe for the requests from the end `start`, with the appliances that the network describes.
    pub fn of(f: &'a Fabric, deciders: &'a Deciders, start: End) -> OpenProbe<'a>
        requires appliances { deciders.now.appliances ≡ appliances_of f.now }
        requires start { IsTrue (is_end f.now start) }
        ensures { starting_by result.fabric.now (homes_by result.links.now result.start)
            ≡ starting f.now start }
    {
        OpenProbe {
            fabric: f,
            deciders,
            start,
            links: &[],
            followed: RefCell::from(moment_at(start, &Box5::default())),
        }
    }

    /// Asks about another start from here on, by the same moment.
    pub fn turn(&mut self, start: End)
        requires { IsTrue (is_end self.old.fabric.now start) }
        ensures { starting_by self.new.fabric.now (homes_by self.new.links.now self.new.start)
            ≡ starting self.old.fabric.now start }
    {
        self.start = start;
        self.links = &[];
    }

    /// Asks about another start from here on, which is among several: where it is a network that isn't described, behind these
    /// `links` the same network is taken to lie, and replies may arrive at each of them.
    pub fn turn_among(&mut self, start: End, links: &'a [FarNo])
        requires { IsTrue (is_end self.old.fabric.now start) }
        ensures { starting_by self.new.fabric.now (homes_by self.new.links.now self.new.start)
            ≡ starting_by self.old.fabric.now (homes_among links.now start) }
    {
        self.start = start;
        self.links = links_of(start, links);
    }

    // What becomes of the requests of a part of the sides, by the moment that follows them.
    fn follow(&self, sides: &Box5, m: &mut BoxMoment) -> Part<Journey>
        requires { IsValid sides.now }
        ensures { AnswersJourney
            (starting_by self.now.fabric.now (homes_by self.now.links.now self.now.start)) sides.now result }
    {
        begin(m, self.start, sides);
        let told = journey_on(self.fabric, self.deciders, self.start, self.links, m);
        let body = m.header.part;
        Part { body, told }
    }

    // What becomes of the requests of a part of the sides, by a moment of its own.
    fn follow_apart(&self, sides: &Box5) -> Part<Journey>
        requires { IsValid sides.now }
        ensures { AnswersJourney
            (starting_by self.now.fabric.now (homes_by self.now.links.now self.now.start)) sides.now result }
    {
        self.follow(sides, &mut moment_at(self.start, sides))
    }

    /// What becomes of the requests of a part of the sides: at which end they get through, or what stops them or their
    /// replies.
    pub fn journey_on(&self, sides: &Box5) -> Part<Journey>
        requires { IsValid sides.now }
        ensures { AnswersJourney
            (starting_by self.now.fabric.now (homes_by self.now.links.now self.now.start)) sides.now result }
    {
        match self.followed.try_borrow_mut() {
            Ok(mut m) => self.follow(sides, &mut m),
            Err(_) => self.follow_apart(sides),
        }
    }

    // The arrivals of requests of the sides, by the moment that follows them.
    fn follow_in(&self, sides: &Box5, m: &mut BoxMoment) -> Option<Arrivals>
        requires { IsValid sides.now }
        ensures { IfSome result
            (AreArrivals self.now.fabric.now (appliances_of self.now.fabric.now)
            (homes_by self.now.links.now self.now.start) sides.now) }
    {
        begin(m, self.start, sides);
        arrivals_of(self.fabric, self.deciders, self.start, self.links, m)
    }

    /// Requests of a part of the sides that come to one interface by the same places, if they do: which of them it lets in
    /// isn't asked, so that the part is larger than one of which it is told where they get through.
    pub fn arrivals_on(&self, sides: &Box5) -> Option<Arrivals>
        requires { IsValid sides.now }
        ensures { IfSome result
            (AreArrivals self.now.fabric.now (appliances_of self.now.fabric.now)
            (homes_by self.now.links.now self.now.start) sides.now) }
    {
        match self.followed.try_borrow_mut() {
            Ok(mut m) => self.follow_in(sides, &mut m),
            Err(_) => None,
        }
    }
}

impl<'a> Probe for OpenProbe<'a> {
    ghost use Rattle.vpc_model.specs.Cuts.{cuts_of};
    ghost use Rattle.box_walk.specs.Journeys.{open_cuts, reached_of};
    ghost use Rattle.box_walk.specs.Open.{open_cuts_are_among_all};

    type Word = End;

    ghost meaning = { λ p h. reached_of p.fabric.now (appliances_of p.fabric.now)
        (homes_by p.links.now p.start) None h };

    ghost cuts = { λ p. cuts_of p.fabric.now };

    ghost near = { λ p h. open_cuts p.fabric.now (appliances_of p.fabric.now) p.start h };

    ghost near_among = { λ p h. open_cuts_are_among_all p.fabric.now p.start h };

    fn is_same(one: End, other: End) -> bool
        ensures { IsTrue result ↔ (one ≡ other) }
    {
        same_end(one, other)
    }

    fn probe(&self, sides: &Box5) -> (Box5, Option<End>) {
        let answer = self.journey_on(sides);
        (answer.body, reached_end(answer.told))
    }
}
