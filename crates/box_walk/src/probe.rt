// The probe that is asked of the requests from one end to another.
ghost use Rattle.std.specs.Prelude.{◌≡◌, ◌↔◌, [], IsTrue, List, ℕ};
ghost use Rattle.vpc_base.specs.declared.headers.Header.{Header};
ghost use Rattle.header_boxes.specs.Boxes.{IsValid};
ghost use Rattle.box_images.specs.Images.{IsImageOfOpen, IsValidImage, header_at};
ghost use Rattle.vpc_model.specs.Appliances.{appliances_of};
ghost use Rattle.vpc_model.specs.Place.{start_of};
ghost use Rattle.vpc_model.specs.Sound.{is_end};
ghost use Rattle.vpc_model.specs.Verdict.{homes_among};
ghost use Rattle.box_walk.specs.Asking.{AnswersStopped, AnswersWord, IsAsking, asked, asked_by, homes_by};

use crate::verdict::{Word, is_stopped, whether, word_of_request};
use crate::ways::Way;
use appliances::Deciders;
use box_images::{Image, Part};
use box_steps::BoxMoment;
use fabric::Fabric;
use header_boxes::Box5;
use ordered_cover::Probe;
use std::cell::RefCell;
use vpc_model::{End, FarNo, Phase, Stop, same_stop, start_place};

/// What stops requests from one end to another, or their replies. A part that is answered is one for which
/// all requests pass the same places, and so do their replies.
pub struct RoundProbe<'a> {
    fabric: &'a Fabric,
    deciders: &'a Deciders,
    start: End,
    // Where the replies of the start's requests may arrive beside it.
    links: &'a [FarNo],
    goal: End,
    // What is followed: made once for all probes, since it has room for all that a walk may leave behind.
    followed: RefCell<BoxMoment>,
    way: Way<'a>,
    ghost known: { IsAsking (asked_by fabric.now (homes_by links.now start) goal) },
    ghost same_way: { way ≡ asked_by fabric.now (homes_by links.now start) goal },
    ghost described: { deciders.now.appliances ≡ appliances_of fabric.now },
}

impl<'a> Drop for RoundProbe<'a> {
    fn drop(self) {
        let RoundProbe {
            fabric: _,
            deciders: _,
            start: _,
            links: _,
            goal: _,
            followed,
            way,
        } = self;
        drop(followed);
        drop(way);
    }
}

// Requests at the start, of which nothing is remembered.
pub(crate) fn begin(m: &mut BoxMoment, start: End, sides: &Box5)
    requires { IsValid sides.now }
    ensures place { m.new.place ≡ start_of start }
    ensures part { m.new.header.part ≡ sides.now }
    ensures value { (h : Header) → header_at m.new.header h ≡ h }
    ensures valid { IsValidImage m.new.header }
    ensures kind { (addresses : List ℕ) → IsImageOfOpen addresses m.new.header }
    ensures conns { m.new.conns.items ≡ [] }
    ensures nats { m.new.nats.items ≡ [] }
{
    m.place = start_place(&start);
    m.header = Image::of(sides);
    m.conns.clear();
    m.nats.clear();
}

pub(crate) fn moment_at(start: End, sides: &Box5) -> BoxMoment
    requires { IsValid sides.now }
{
    BoxMoment::at(start_place(&start), Image::of(sides))
}

// Those links at which replies of the start's requests may arrive: all where it is a network that isn't described, else none.
pub(crate) fn links_of<'a>(start: End, links: &'a [FarNo]) -> &'a [FarNo]
    ensures { homes_by result.now start ≡ homes_among links.now start }
{
    match start {
        End::Far(_) => links,
        End::Interface(_) => &[],
        End::Internet => &[],
    }
}

impl<'a> RoundProbe<'a> {
    /// The probe for the requests from the end `start` to the end `goal`, with the appliances that the
    /// network describes.
    pub fn of(f: &'a Fabric, deciders: &'a Deciders, start: End, goal: End) -> RoundProbe<'a>
        requires appliances { deciders.now.appliances ≡ appliances_of f.now }
        requires start { IsTrue (is_end f.now start) }
        requires goal { IsTrue (is_end f.now goal) }
        ensures { asked_by result.fabric.now (homes_by result.links.now result.start) result.goal
            ≡ asked f.now start goal }
    {
        RoundProbe {
            fabric: f,
            deciders,
            start,
            links: &[],
            goal,
            followed: RefCell::from(moment_at(start, &Box5::default())),
            way: Way::unknown(f, start, goal),
        }
    }

    /// Asks about other ends from here on. The moment of the probe, which is 14 kilobytes, serves them as well: many pairs
    /// of ends are asked about by one probe.
    pub fn turn(&mut self, start: End, goal: End)
        requires start { IsTrue (is_end self.old.fabric.now start) }
        requires goal { IsTrue (is_end self.old.fabric.now goal) }
        ensures { asked_by self.new.fabric.now
            (homes_by self.new.links.now self.new.start) self.new.goal
            ≡ asked self.old.fabric.now start goal }
    {
        self.start = start;
        self.links = &[];
        self.goal = goal;
        self.way.turn(start, &[], goal);
    }

    /// Asks about other ends from here on, of which the start is among several: where it is a network that isn't
    /// described, behind these `links` the same network is taken to lie, and replies may arrive at each of them.
    pub fn turn_among(&mut self, start: End, links: &'a [FarNo], goal: End)
        requires start { IsTrue (is_end self.old.fabric.now start) }
        requires goal { IsTrue (is_end self.old.fabric.now goal) }
        ensures { asked_by self.new.fabric.now
            (homes_by self.new.links.now self.new.start) self.new.goal
            ≡ asked_by self.old.fabric.now (homes_among links.now start) goal }
    {
        let links = links_of(start, links);
        self.start = start;
        self.links = links;
        self.goal = goal;
        self.way.turn(start, links, goal);
    }

    /// Follows the requests of these sides, or a part of them, to the goal's interface, and the replies of those that are
    /// let in back: what is asked of some of them from here on is asked of the interface's groups alone. It is worth
    /// its two walks where more than two parts are asked.
    pub fn look_ahead(&mut self, sides: &Box5)
        requires { IsValid sides.now }
        ensures { asked_by self.new.fabric.now
            (homes_by self.new.links.now self.new.start) self.new.goal
            ≡ asked_by self.old.fabric.now
            (homes_by self.old.links.now self.old.start) self.old.goal }
    {
        if let Ok(mut m) = self.followed.try_borrow_mut() {
            self.way.find(self.deciders, sides, &mut m);
        }
    }

    /// Where the requests are to arrive.
    pub(crate) fn goal(&self) -> End
        ensures { result ≡ self.now.goal }
    {
        self.goal
    }

    // What stops the requests of a part of the sides, or their replies, followed from the start.
    fn follow_whole(&self, sides: &Box5, m: &mut BoxMoment) -> Word
        requires { IsValid sides.now }
        ensures { AnswersWord (asked_by self.now.fabric.now
            (homes_by self.now.links.now self.now.start) self.now.goal) sides.now
            (record { body = m.new.header.part; told = result }) }
    {
        begin(m, self.start, sides);
        word_of_request(
            self.fabric,
            self.deciders,
            self.start,
            self.links,
            self.goal,
            m,
        )
    }

    // What stops the requests of a part of the sides, or their replies: by the known way, if they have come by it.
    fn follow(&self, sides: &Box5, m: &mut BoxMoment) -> Part<Word>
        requires { IsValid sides.now }
        ensures { AnswersWord (asked_by self.now.fabric.now
            (homes_by self.now.links.now self.now.start) self.now.goal) sides.now result }
    {
        if let Some(told) = self.way.word_on(self.deciders, sides, m) {
            let body = m.header.part;
            return Part { body, told };
        }
        let told = self.follow_whole(sides, m);
        Part {
            body: m.header.part,
            told,
        }
    }

    // What stops them, by a moment of its own: it is made and cleared within the call, so that no other call holds it.
    fn follow_apart(&self, sides: &Box5) -> Part<Word>
        requires { IsValid sides.now }
        ensures { AnswersWord (asked_by self.now.fabric.now
            (homes_by self.now.links.now self.now.start) self.now.goal) sides.now result }
    {
        self.follow(sides, &mut moment_at(self.start, sides))
    }

    // Whether something stops the requests of a part of the sides, or their replies, followed from the start.
    fn ask_whole(&self, sides: &Box5, m: &mut BoxMoment) -> Option<()>
        requires { IsValid sides.now }
        ensures { AnswersStopped (asked_by self.now.fabric.now
            (homes_by self.now.links.now self.now.start) self.now.goal) sides.now
            (record { body = m.new.header.part; told = result }) }
    {
        begin(m, self.start, sides);
        is_stopped(
            self.fabric,
            self.deciders,
            self.start,
            self.links,
            self.goal,
            m,
        )
    }

    // Whether something stops the requests of a part of the sides, or their replies: by the known way, if they have come by it.
    fn ask(&self, sides: &Box5, m: &mut BoxMoment) -> Part<Option<()>>
        requires { IsValid sides.now }
        ensures { AnswersStopped (asked_by self.now.fabric.now
            (homes_by self.now.links.now self.now.start) self.now.goal) sides.now result }
    {
        if let Some(word) = self.way.word_on(self.deciders, sides, m) {
            let body = m.header.part;
            let told = whether(word);
            return Part { body, told };
        }
        let told = self.ask_whole(sides, m);
        let body = m.header.part;
        Part { body, told }
    }

    // Whether something stops them, by a moment of its own.
    fn ask_apart(&self, sides: &Box5) -> Part<Option<()>>
        requires { IsValid sides.now }
        ensures { AnswersStopped (asked_by self.now.fabric.now
            (homes_by self.now.links.now self.now.start) self.now.goal) sides.now result }
    {
        self.ask(sides, &mut moment_at(self.start, sides))
    }

    /// Whether something stops the requests of a part of the sides, or their replies, without what: the part is larger
    /// than one of which that is told.
    pub fn is_stopped_on(&self, sides: &Box5) -> Part<Option<()>>
        requires { IsValid sides.now }
        ensures { AnswersStopped (asked_by self.now.fabric.now
            (homes_by self.now.links.now self.now.start) self.now.goal) sides.now result }
    {
        match self.followed.try_borrow_mut() {
            Ok(mut m) => self.ask(sides, &mut m),
            Err(_) => self.ask_apart(sides),
        }
    }
}

impl<'a> Probe for RoundProbe<'a> {
    ghost use Rattle.vpc_model.specs.Cuts.{cuts_of};
    ghost use Rattle.cut_laws.proofs.Places.{near_cuts_are_among_all};
    ghost use Rattle.vpc_model.specs.Near.{near_cuts};
    ghost use Rattle.box_walk.specs.Asking.{asked_by, homes_by, word_of};

    type Word = (Phase, Stop);

    ghost meaning = { λ p h.
        word_of (asked_by p.fabric.now (homes_by p.links.now p.start) p.goal) h };

    ghost cuts = { λ p. cuts_of p.fabric.now };

    ghost near = { λ p h. near_cuts p.fabric.now (appliances_of p.fabric.now) p.start p.goal h };

    ghost near_among = { λ p h. near_cuts_are_among_all p.fabric.now
        (appliances_of p.fabric.now) p.start p.goal h };

    fn is_same(one: (Phase, Stop), other: (Phase, Stop)) -> bool
        ensures { IsTrue result ↔ (one ≡ other) }
    {
        one.0 == other.0 && same_stop(&one.1, &other.1)
    }

    fn probe(&self, sides: &Box5) -> (Box5, Option<(Phase, Stop)>) {
        match self.followed.try_borrow_mut() {
            Ok(mut m) => {
                let answer = self.follow(sides, &mut m);
                (answer.body, answer.told)
            }
            // It is lent while another probe is asked.
            Err(_) => {
                let answer = self.follow_apart(sides);
                (answer.body, answer.told)
            }
        }
    }
}
