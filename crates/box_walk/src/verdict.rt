// What stops requests, or their replies.
ghost use Rattle.std.specs.List.{list_any};
ghost use Rattle.std.specs.Prelude.{◌≡◌, IsTrue, List, ℕ};
ghost use Rattle.vpc_base.specs.Cuts.{AreAmong};
ghost use Rattle.vpc_base.specs.declared.headers.Label.TheVariants as labels;
ghost use Rattle.header_boxes.specs.Boxes.{low_of};
ghost use Rattle.box_images.specs.Images.{IsImageOfAnswer, IsValidImage};
ghost use Rattle.box_steps.specs.Moments.{IsBoxMoment};
ghost use Rattle.cut_laws.specs.Dividing.{DivideAddresses};
ghost use Rattle.vpc_model.specs.Appliances.{appliances_of};
ghost use Rattle.vpc_model.specs.Near.{near_cuts};
ghost use Rattle.vpc_model.specs.Sound.{is_end};
ghost use Rattle.vpc_model.specs.Verdict.{is_home, same_end};
ghost use Rattle.vpc_model.specs.declared.places.End.TheVariants as ends;
ghost use Rattle.box_walk.specs.Asking.{asked_by, homes_by, stopped_of, whether, word_of};
ghost use Rattle.box_walk.specs.Told.{AreRequests, DivideArrival, DivideReply, Tells, TellsWhether, word_of_answer, word_of_arrival, word_of_return};
ghost use Rattle.box_walk.specs.Walks.{BeginsFresh};

use crate::seeking::seek_on;
use crate::walks::{Ending, walk_on};
use appliances::Deciders;
use box_images::Image;
use box_steps::BoxMoment;
use conn_tracking::{answers_on, reply_on};
use fabric::Fabric;
use packet_emulator::same_end;
use vpc_base::Label;
use vpc_model::{End, FarNo, Phase, Stop, start_place};

/// What stops packets, and in which phase; nothing where they get through.
pub type Word = Option<(Phase, Stop)>;

// Whether an end is one of these links.
fn is_link(links: &[FarNo], end: End) -> bool
    ensures { result ≡ list_any (λ link. same_end end (ends.Far link)) links.now }
{
    links.iter().any(|link| same_end(end, End::Far(*link)))
}

// Whether replies may arrive at an end: the start, or another link to the network behind it.
fn is_home(start: End, links: &[FarNo], end: End) -> bool
    ensures { result ≡ is_home (homes_by links.now start) end }
{
    is_link(links, end) || same_end(end, start)
}

// Of replies that have arrived at an end: it should be a home, and they the replies of the requests.
fn word_of_return(start: End, links: &[FarNo], end: End, m: &mut BoxMoment) -> Word
    requires valid { IsValidImage m.old.header }
    requires kind { (addresses : List ℕ) × IsImageOfAnswer addresses m.old.header }
    ensures { (addresses : List ℕ) → IsImageOfAnswer addresses m.old.header
        → Tells (DivideAddresses addresses) (word_of_return (homes_by links.now start) end m.old) m.old m.new result }
{
    let wrong = Some((Phase::Reply, Stop::WrongReturn(end)));
    if !is_home(start, links, end) {
        return wrong;
    }
    let sent = Image::of(&m.header.part);
    let returned = answers_on(&m.header, &sent);
    m.narrow(&returned.body);
    if returned.told { None } else { wrong }
}

// Of replies where they begin, by what the requests have left.
fn word_of_answer(
    f: &Fabric,
    deciders: &Deciders,
    start: End,
    links: &[FarNo],
    m: &mut BoxMoment,
) -> Word
    requires appliances { deciders.now.appliances ≡ appliances_of f.now }
    requires moment { IsBoxMoment f.now labels.Answer m.old }
    ensures { Tells (DivideReply f.now (appliances_of f.now) m.old)
        (word_of_answer f.now (appliances_of f.now) (homes_by links.now start) m.old) m.old m.new result }
{
    match walk_on(f, deciders, Label::Answer, m) {
        Ending::Stopped(stop) => Some((Phase::Reply, stop)),
        Ending::Arrived(end) => word_of_return(start, links, end, m),
    }
}

// Of requests that have arrived at an end: it should be the goal, and they should have replies.
pub(crate) fn word_of_arrival(
    f: &Fabric,
    deciders: &Deciders,
    start: End,
    links: &[FarNo],
    goal: End,
    end: End,
    m: &mut BoxMoment,
) -> Word
    requires appliances { deciders.now.appliances ≡ appliances_of f.now }
    requires goal { IsTrue (is_end f.now goal) }
    requires moment { IsBoxMoment f.now labels.Opening m.old }
    ensures { Tells (DivideArrival f.now (appliances_of f.now) goal end m.old)
        (word_of_arrival f.now (appliances_of f.now) (homes_by links.now start) goal end m.old) m.old m.new result }
{
    if !same_end(end, goal) {
        return Some((Phase::Request, Stop::WrongPlace(end)));
    }
    let reply = reply_on(&m.header);
    m.narrow(&reply.body);
    match reply.told {
        None => Some((Phase::Reply, Stop::NoReply(goal))),
        Some(answer) => {
            m.place = start_place(&goal);
            m.header = answer;
            word_of_answer(f, deciders, start, links, m)
        }
    }
}

/// What stops the requests of a moment at the start, or their replies. The moment becomes that of the part of
/// which this is told.
pub fn word_of_request(
    f: &Fabric,
    deciders: &Deciders,
    start: End,
    links: &[FarNo],
    goal: End,
    m: &mut BoxMoment,
) -> Word
    requires appliances { deciders.now.appliances ≡ appliances_of f.now }
    requires goal { IsTrue (is_end f.now goal) }
    requires moment { IsBoxMoment f.now labels.Opening m.old }
    requires fresh { BeginsFresh labels.Opening m.old }
    requires requests { AreRequests start m.old }
    ensures { Tells
        (AreAmong (near_cuts f.now (appliances_of f.now) start goal (low_of m.old.header.part)))
        (word_of (asked_by f.now (homes_by links.now start) goal)) m.old m.new result }
{
    match walk_on(f, deciders, Label::Opening, m) {
        Ending::Stopped(stop) => Some((Phase::Request, stop)),
        Ending::Arrived(end) => word_of_arrival(f, deciders, start, links, goal, end, m),
    }
}

/// Whether a word tells of a stop.
pub fn whether(word: Word) -> Option<()>
    ensures { result ≡ whether word }
{
    match word {
        Some(_) => Some(()),
        None => None,
    }
}

/// Whether something stops the requests of a moment at the start, or their replies. Requests are followed as long as
/// they may arrive at the goal, replies to their end.
pub fn is_stopped(
    f: &Fabric,
    deciders: &Deciders,
    start: End,
    links: &[FarNo],
    goal: End,
    m: &mut BoxMoment,
) -> Option<()>
    requires appliances { deciders.now.appliances ≡ appliances_of f.now }
    requires goal { IsTrue (is_end f.now goal) }
    requires moment { IsBoxMoment f.now labels.Opening m.old }
    requires fresh { BeginsFresh labels.Opening m.old }
    requires requests { AreRequests start m.old }
    ensures { TellsWhether
        (AreAmong (near_cuts f.now (appliances_of f.now) start goal (low_of m.old.header.part)))
        (stopped_of (asked_by f.now (homes_by links.now start) goal)) m.old m.new result }
{
    match seek_on(f, deciders, goal, m) {
        Some(end) => whether(word_of_arrival(f, deciders, start, links, goal, end, m)),
        None => Some(()),
    }
}
