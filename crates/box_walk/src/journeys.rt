// What becomes of requests from an end, whatever end they arrive at.
ghost use Rattle.std.specs.Prelude.{◌≡◌, IsTrue, None};
ghost use Rattle.vpc_base.specs.Cuts.{AreAmong};
ghost use Rattle.vpc_base.specs.declared.headers.Label.TheVariants as labels;
ghost use Rattle.header_boxes.specs.Boxes.{low_of};
ghost use Rattle.box_steps.specs.Moments.{IsBoxMoment};
ghost use Rattle.vpc_model.specs.Appliances.{appliances_of};
ghost use Rattle.vpc_model.specs.Sound.{is_end};
ghost use Rattle.box_walk.specs.Asking.{homes_by};
ghost use Rattle.box_walk.specs.Journeys.{JourneysAreVerdicts, MoreHomesLetMoreThrough, TellsJourney, journey_of, open_cuts, toward};
ghost use Rattle.box_walk.specs.Told.{AreRequests};
ghost use Rattle.box_walk.specs.Walks.{BeginsFresh};

use crate::verdict::{Word, word_of_arrival};
use crate::walks::{Ending, walk_on};
use appliances::Deciders;
use box_steps::BoxMoment;
use fabric::Fabric;
use packet_emulator::same_end;
use vpc_base::Label;
use vpc_model::{End, FarNo, Phase, Stop};

/// What becomes of a request and its reply.
#[derive(Clone, Copy)]
pub enum Journey {
    /// The request arrives at this end, and its reply at one of its homes.
    Reached(End),
    /// One of the two is stopped, or arrives at an end where it should not.
    Stopped(Phase, Stop),
}

/// The journey of requests that arrive at an end, by what stops them or their replies there.
pub(crate) fn toward(end: End, word: Word) -> Journey
    ensures { result ≡ toward end word }
{
    match word {
        None => Journey::Reached(end),
        Some((phase, stop)) => Journey::Stopped(phase, stop),
    }
}

/// The journey of the requests of a moment at the start: their walks go on to their ends, and the replies begin there. The
/// moment becomes that of the part of which this is told.
pub(crate) fn journey_on(
    f: &Fabric,
    deciders: &Deciders,
    start: End,
    links: &[FarNo],
    m: &mut BoxMoment,
) -> Journey
    requires appliances { deciders.now.appliances ≡ appliances_of f.now }
    requires moment { IsBoxMoment f.now labels.Opening m.old }
    requires fresh { BeginsFresh labels.Opening m.old }
    requires requests { AreRequests start m.old }
    ensures { TellsJourney
        (AreAmong (open_cuts f.now (appliances_of f.now) start (low_of m.old.header.part)))
        (journey_of f.now (appliances_of f.now) (homes_by links.now start) None) m.old m.new result }
{
    // That the network is accepted is a clause of this call.
    let _ = f.network().description();
    match walk_on(f, deciders, Label::Opening, m) {
        Ending::Stopped(stop) => Journey::Stopped(Phase::Request, stop),
        Ending::Arrived(end) => {
            if same_end(end, start) {
                return Journey::Stopped(Phase::Request, Stop::WrongPlace(end));
            }
            toward(end, word_of_arrival(f, deciders, start, links, end, end, m))
        }
    }
}

/// A request that is sent out toward whatever end it arrives at reaches an end exactly where, sent toward that one, it gets
/// through. So one search answers for all ends.
pub fn journeys_are_verdicts()
    ensures { JourneysAreVerdicts }
{}

/// Where replies may arrive at more ends, more requests get through, and each reaches the end that it reached before.
pub fn more_homes_let_more_through()
    ensures { MoreHomesLetMoreThrough }
{}
