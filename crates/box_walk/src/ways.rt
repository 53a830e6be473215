// The way of requests to their goal, as far as all of them pass the same places.
ghost use Rattle.std.specs.Prelude.{◌≡◌, ◌+◌, ◌<◌, ◌≤◌, IfSome, IsTrue, false, length, true};
ghost use Rattle.box_steps.specs.Moments.{CanRemember, IsBoxMoment};
ghost use Rattle.box_walk.specs.Asking.{AnswersWord, IsAsking, asked, asked_by, homes_by};
ghost use Rattle.box_walk.specs.Rests.{IsLeftAt, is_among};
ghost use Rattle.box_walk.specs.Told.{AreRequests, DivideArrival, Tells, word_of_arrival};
ghost use Rattle.box_walk.specs.Walks.{BeginsFresh};
ghost use Rattle.box_walk.specs.Ways.{HaveComeTo, IsFollowedTo, IsKnownWay, TellsReturns};
ghost use Rattle.header_boxes.specs.Boxes.{IsValid, IsWithin, holds};
ghost use Rattle.vpc_base.specs.declared.headers.Header.{Header};
ghost use Rattle.vpc_base.specs.declared.headers.Label.TheVariants as labels;
ghost use Rattle.vpc_model.specs.Appliances.{appliances_of};
ghost use Rattle.vpc_model.specs.Sound.{is_end, is_eni};
ghost use Rattle.vpc_model.specs.Verdict.{same_end};
ghost use Rattle.vpc_model.specs.declared.places.End.TheVariants as ends;
ghost use Rattle.vpc_model.specs.declared.places.Place.TheVariants as places;

use crate::probe::{begin, moment_at};
use crate::verdict::{Word, word_of_arrival};
use crate::walks::{FARTHEST, is_among};
use appliances::Deciders;
use arrayvec::ArrayVec;
use box_images::Part;
use box_steps::{BoxMoment, Onward, let_in, step_in_place};
use fabric::Fabric;
use fabric::rows::interface_at;
use header_boxes::Box5;
use packet_emulator::same_end;
use std::marker::Model;
use vpc_base::Label;
use vpc_model::{End, EniNo, FarNo, Phase, Place};

/// Requests between two ends that have come to the goal's interface by the same places, before its groups are asked, and
/// what stops the replies of those that are let in there. What is asked of some of them begins there.
pub struct Way<'a> {
    fabric: &'a Fabric,
    start: End,
    links: &'a [FarNo],
    goal: End,
    // Whether there are such requests.
    is_known: bool,
    before: BoxMoment,
    back: Option<Part<Word>>,
}

impl<'a> Drop for Way<'a> {
    fn drop(self) {
        let Way {
            fabric: _,
            start: _,
            links: _,
            goal: _,
            is_known: _,
            before,
            back: _,
        } = self;
        drop(before);
    }
}

impl<'a> Model for Way<'a> {
    ghost use Rattle.box_walk.specs.Asking.{Asking, asked_by, homes_by};
    ghost use Rattle.box_walk.specs.Ways.{IsWay};

    ghost Value = { Asking };

    ghost view = { λ w. asked_by w.fabric.now (homes_by w.links.now w.start) w.goal };

    ghost invariant = { λ w. IsWay w.fabric.now
        (homes_by w.links.now w.start) w.goal w.is_known w.before w.back };
}

/// Whether all headers of a box lie in another one.
pub fn is_within(part: &Box5, whole: &Box5) -> bool
    requires { IsValid part.now }
    ensures { IsTrue result → IsWithin part.now whole.now }
{
    whole.proto.0 <= part.proto.0
        && part.proto.1 <= whole.proto.1
        && whole.src.0 <= part.src.0
        && part.src.1 <= whole.src.1
        && whole.dst.0 <= part.dst.0
        && part.dst.1 <= whole.dst.1
        && whole.p.0 <= part.p.0
        && part.p.1 <= whole.p.1
        && whole.q.0 <= part.q.0
        && part.q.1 <= whole.q.1
}

// Whether a walk is followed as far as this interface: the one that is wanted, or any at which nothing is sent on.
fn is_wanted(deciders: &Deciders, wanted: Option<EniNo>, e: EniNo) -> bool {
    match wanted {
        Some(i) => e.0 == i.0,
        None => deciders.number(e).is_none(),
    }
}

// Follows opens to an interface, from a place that is new among those visited, with so many places allowed, this one
// included. Tells to which one they come, if they do; the moment is then that of those who do.
fn follow_to(
    f: &Fabric,
    deciders: &Deciders,
    wanted: Option<EniNo>,
    left: usize,
    visited: &mut ArrayVec<Place, FARTHEST>,
    m: &mut BoxMoment,
) -> Option<EniNo>
    requires appliances { deciders.now.appliances ≡ appliances_of f.now }
    requires moment { IsBoxMoment f.now labels.Opening m.old }
    requires remembered { IsLeftAt labels.Opening visited.old.items m.old }
    requires fresh { is_among visited.old.items m.old.place ≡ false }
    requires some { 0 < left }
    requires few { length visited.old.items + left ≤ 64 }
    ensures { IfSome result
        (λ e. IsFollowedTo f.now (appliances_of f.now) e left visited.old.items m.old m.new) }
{
    if let Place::Into(e) = m.place {
        if is_wanted(deciders, wanted, e) {
            return Some(e);
        }
    }
    visited.push(m.place);
    match step_in_place(f, deciders, Label::Opening, m) {
        Onward::Go(place) => {
            if is_among(visited.as_slice(), place) {
                return None;
            }
            if left == 1 {
                return None;
            }
            follow_to(f, deciders, wanted, left - 1, visited, m)
        }
        _ => None,
    }
}

/// Follows requests from the start to an interface. Tells to which one they come, if they do; the moment is then that of
/// those who do.
pub fn come_to(
    f: &Fabric,
    deciders: &Deciders,
    start: End,
    wanted: Option<EniNo>,
    m: &mut BoxMoment,
) -> Option<EniNo>
    requires appliances { deciders.now.appliances ≡ appliances_of f.now }
    requires moment { IsBoxMoment f.now labels.Opening m.old }
    requires fresh { BeginsFresh labels.Opening m.old }
    requires requests { AreRequests start m.old }
    ensures { IfSome result (HaveComeTo f.now (appliances_of f.now) start m.old m.new) }
{
    let mut visited = ArrayVec::new();
    follow_to(f, deciders, wanted, FARTHEST, &mut visited, m)
}

// What stops the replies of those that the interface lets in, by a moment for them; nothing where it lets none in.
fn returns_from(
    f: &Fabric,
    deciders: &Deciders,
    start: End,
    links: &[FarNo],
    i: EniNo,
    before: &BoxMoment,
    m: &mut BoxMoment,
) -> Option<Part<Word>>
    requires appliances { deciders.now.appliances ≡ appliances_of f.now }
    requires eni { IsTrue (is_eni f.now i) }
    requires place { before.now.place ≡ places.Into i }
    requires moment { IsBoxMoment f.now labels.Opening before.now }
    requires room { CanRemember labels.Opening before.now }
    ensures { IfSome result
        (TellsReturns f.now (appliances_of f.now)
        (homes_by links.now start) (ends.Interface i) before.now) }
{
    let part = before.header.part;
    m.take_within(before, &part);
    if let Onward::Stop(_) = step_in_place(f, deciders, Label::Opening, m) {
        if m.header.part == part {
            return None;
        }
    }
    m.take_within(before, &part);
    let_in(f, i, m);
    let goal = End::Interface(i);
    let told = word_of_arrival(f, deciders, start, links, goal, goal, m);
    Some(Part {
        body: m.header.part,
        told,
    })
}

// A side of one number, where that is one of its numbers.
fn narrowed(side: (u32, u32), to: Option<u32>) -> (u32, u32)
    requires { side.0 ≤ side.1 }
    ensures { result.0 ≤ result.1 }
{
    match to {
        None => side,
        Some(a) => {
            if side.0 <= a && a <= side.1 {
                (a, a)
            } else {
                side
            }
        }
    }
}

// The address by which an interface sends, or is sent to from within its network.
fn primary_of(f: &Fabric, end: End) -> Option<u32>
    requires { IsTrue (is_end f.now end) }
{
    match end {
        End::Interface(i) => interface_at(f, i).primary,
        End::Internet => None,
        End::Far(_) => None,
    }
}

// The address by which it is sent to from the internet.
fn public_of(f: &Fabric, i: EniNo) -> Option<u32>
    requires { IsTrue (is_eni f.now i) }
{
    let mut addresses = interface_at(f, i).addresses.as_slice().iter();
    addresses.find_map(|a| a.1)
}

fn address_toward(f: &Fabric, start: End, i: EniNo) -> Option<u32>
    requires { IsTrue (is_eni f.now i) }
{
    match start {
        End::Interface(_) => interface_at(f, i).primary,
        End::Internet => public_of(f, i),
        End::Far(_) => interface_at(f, i).primary,
    }
}

// Of the requests of these sides those between one address of each end, if they are among them: they alone can pass the
// same places from the first to the last.
fn likely(f: &Fabric, start: End, i: EniNo, sides: &Box5) -> Box5
    requires start { IsTrue (is_end f.now start) }
    requires goal { IsTrue (is_eni f.now i) }
    requires valid { IsValid sides.now }
    ensures { IsValid result }
{
    Box5 {
        src: narrowed(sides.src, primary_of(f, start)),
        dst: narrowed(sides.dst, address_toward(f, start, i)),
        ..*sides
    }
}

// A network, its appliances, and the two ends that are asked about.
#[derive(Clone, Copy)]
struct Question<'a> {
    fabric: &'a Fabric,
    deciders: &'a Deciders,
    start: End,
    links: &'a [FarNo],
    goal: End,
}

// What stops the replies of requests that have arrived, which may be known.
fn word_back(q: &Question<'_>, end: End, back: &Option<Part<Word>>, m: &mut BoxMoment) -> Word
    requires appliances { q.now.deciders.now.appliances ≡ appliances_of q.now.fabric.now }
    requires goal { IsTrue (is_end q.now.fabric.now q.now.goal) }
    requires moment { IsBoxMoment q.now.fabric.now labels.Opening m.old }
    requires back { IfSome back.now (λ x. same_end end q.now.goal ≡ true → (h : Header)
        → holds h m.old.header.part ≡ true → holds h x.body ≡ true
        → x.told ≡ word_of_arrival q.now.fabric.now (appliances_of q.now.fabric.now)
        (homes_by q.now.links.now q.now.start) q.now.goal end m.old h) }
    ensures { let d = q.now.fabric.now in
        Tells (DivideArrival d (appliances_of d) q.now.goal end m.old)
        (word_of_arrival d (appliances_of d)
        (homes_by q.now.links.now q.now.start) q.now.goal end m.old) m.old m.new result }
{
    if let Some(x) = back {
        if same_end(end, q.goal) && is_within(&m.header.part, &x.body) {
            return x.told;
        }
    }
    word_of_arrival(q.fabric, q.deciders, q.start, q.links, q.goal, end, m)
}

// What stops requests that have come by a known way, or their replies; nothing where the interface sends them on, as
// that of an appliance may.
fn word_by(
    q: &Question<'_>,
    before: &BoxMoment,
    back: &Option<Part<Word>>,
    sides: &Box5,
    m: &mut BoxMoment,
) -> Option<Word>
    requires appliances { q.now.deciders.now.appliances ≡ appliances_of q.now.fabric.now }
    requires goal { IsTrue (is_end q.now.fabric.now q.now.goal) }
    requires way { let d = q.now.fabric.now in
        IsKnownWay d (appliances_of d) (homes_by q.now.links.now q.now.start)
        q.now.goal before.now back.now }
    requires within { IsWithin sides.now before.now.header.part }
    ensures { IfSome result (λ told.
        AnswersWord (asked_by q.now.fabric.now
        (homes_by q.now.links.now q.now.start) q.now.goal) sides.now
        (record { body = m.new.header.part; told = told })) }
{
    m.take_within(before, sides);
    let header = m.header;
    match step_in_place(q.fabric, q.deciders, Label::Opening, m) {
        Onward::Stop(stop) => Some(Some((Phase::Request, stop))),
        Onward::Go(_) => None,
        Onward::Arrive(end) => {
            m.header = header.within(&m.header.part);
            Some(word_back(q, end, back, m))
        }
    }
}

impl<'a> Way<'a> {
    /// None that is known.
    pub fn unknown(f: &'a Fabric, start: End, goal: End) -> Way<'a>
        ensures { result ≡ asked f.now start goal }
    {
        Way {
            fabric: f,
            start,
            links: &[],
            goal,
            is_known: false,
            before: moment_at(End::Internet, &Box5::default()),
            back: None,
        }
    }

    /// None that is known, between other ends, of which the start's replies may arrive at these links too.
    pub fn turn(&mut self, start: End, links: &'a [FarNo], goal: End)
        ensures { self.new ≡ asked_by self.old.network (homes_by links.now start) goal }
    {
        self.start = start;
        self.links = links;
        self.goal = goal;
        self.is_known = false;
    }

    /// Finds the way of requests of these sides; none where the goal is no interface, or they don't come to it. The moment
    /// serves to follow replies.
    pub fn find(&mut self, deciders: &Deciders, sides: &Box5, m: &mut BoxMoment)
        requires appliances { deciders.now.appliances ≡ appliances_of self.old.network }
        requires ends { IsAsking self.old }
        requires valid { IsValid sides.now }
        ensures { self.new ≡ self.old }
    {
        self.is_known = false;
        let End::Interface(i) = self.goal else {
            return;
        };
        let sides = likely(self.fabric, self.start, i, sides);
        begin(&mut self.before, self.start, &sides);
        let come = come_to(self.fabric, deciders, self.start, Some(i), &mut self.before);
        if let Some(e) = come {
            if e.0 == i.0 {
                self.back = returns_from(
                    self.fabric,
                    deciders,
                    self.start,
                    self.links,
                    e,
                    &self.before,
                    m,
                );
                self.is_known = true;
            }
        }
    }

    /// What stops requests of these sides, or their replies, where all of them have come by the way: nothing is told where
    /// they haven't.
    pub fn word_on(&self, deciders: &Deciders, sides: &Box5, m: &mut BoxMoment) -> Option<Word>
        requires appliances { deciders.now.appliances ≡ appliances_of self.now.network }
        requires ends { IsAsking self.now }
        requires valid { IsValid sides.now }
        ensures { IfSome result (λ told.
            AnswersWord self.now sides.now (record { body = m.new.header.part; told = told })) }
    {
        if !self.is_known {
            return None;
        }
        if !is_within(sides, &self.before.header.part) {
            return None;
        }
        let q = Question {
            fabric: self.fabric,
            deciders,
            start: self.start,
            links: self.links,
            goal: self.goal,
        };
        word_by(&q, &self.before, &self.back, sides, m)
    }
}
