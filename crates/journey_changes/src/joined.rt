// The probe that asks what changes between two networks.
ghost use Rattle.std.specs.Prelude.{◌≡◌, ◌↔◌, IfSome, IsTrue, None, Some, true};
ghost use Rattle.vpc_base.specs.Cuts.{AreAmong};
ghost use Rattle.vpc_base.specs.declared.headers.Header.{Header};
ghost use Rattle.header_boxes.specs.Boxes.{IsValid, holds, low_of};
ghost use Rattle.box_images.specs.Answers.{Answers};
ghost use Rattle.security_groups.specs.Index.{HasRulesOf};
ghost use Rattle.journey_changes.specs.Alike.{ComeTo};
ghost use Rattle.journey_changes.specs.Changes.{change_by, change_cuts, change_of};
ghost use Rattle.journey_changes.specs.Joined.{closed_at, opened_at};
ghost use Rattle.journey_changes.specs.Sent.{AreSentWell, near, sent};

use crate::alike::let_in_alike;
use crate::changes::{Change, change_by, same_change};
use crate::fates::Barrier;
use crate::probe::FateProbe;
use box_images::{Field, Image, Part};
use box_walk::Arrivals;
use header_boxes::Box5;
use ordered_cover::Probe;
use security_groups::AlikeGroups;
use vpc_model::End;

// Ports fewer than these are asked part by part.
const FEW_PORTS: u16 = 8;

fn same_field(one: Field, other: Field) -> bool
    ensures { IsTrue result → one ≡ other }
{
    match (one, other) {
        (Field::Fixed(a), Field::Fixed(b)) => a == b,
        (Field::Of(s, a), Field::Of(t, b)) => s == t && a == b,
        (Field::Fixed(_), Field::Of(_, _)) => false,
        (Field::Of(_, _), Field::Fixed(_)) => false,
    }
}

fn same_image(one: &Image, other: &Image) -> bool
    ensures { IsTrue result → one.now ≡ other.now }
{
    one.part == other.part
        && same_field(one.proto, other.proto)
        && same_field(one.src, other.src)
        && same_field(one.dst, other.dst)
        && same_field(one.p, other.p)
        && same_field(one.q, other.q)
}

/// Tells what changes for requests that are sent in two networks, and nothing of those for which nothing does.
///
/// It asks first which ends are reached, in one network for a part of the sides and in the other for a part of that part.
/// What keeps a request from an end is asked only where it reaches one in the other network.
pub struct ChangeProbe<'a> {
    before: FateProbe<'a>,
    after: FateProbe<'a>,
    groups: &'a AlikeGroups<'a>,
    ghost rules_before: { HasRulesOf before.sent.network groups.now.one },
    ghost rules_after: { HasRulesOf after.sent.network groups.now.other },
}

impl<'a> Drop for ChangeProbe<'a> {
    fn drop(self) {
        let ChangeProbe {
            before,
            after,
            groups: _,
        } = self;
        drop(before);
        drop(after);
    }
}

impl<'a> ChangeProbe<'a> {
    /// The probe for requests that one probe follows in the first network, and the other in the second, where the groups of
    /// both were compared.
    pub fn of(
        before: FateProbe<'a>,
        after: FateProbe<'a>,
        groups: &'a AlikeGroups<'a>,
    ) -> ChangeProbe<'a>
        requires rules_before { HasRulesOf before.sent.network groups.now.one }
        requires rules_after { HasRulesOf after.sent.network groups.now.other }
        ensures before { result.before.sent ≡ before.entry.sent }
        ensures after { result.after.sent ≡ after.entry.sent }
    {
        ChangeProbe {
            before,
            after,
            groups,
        }
    }

    /// Asks about requests from other starts from here on, by the same moments.
    pub fn turn(&mut self, before: Option<End>, after: Option<End>)
        requires before { let s = self.old.before.sent in AreSentWell (sent s.network before s.links s.toward) }
        requires after { let s = self.old.after.sent in AreSentWell (sent s.network after s.links s.toward) }
        ensures before { let s = self.old.before.sent in
            self.new.before.sent ≡ sent s.network before s.links s.toward }
        ensures after { let s = self.old.after.sent in
            self.new.after.sent ≡ sent s.network after s.links s.toward }
    {
        self.before.turn(before);
        self.after.turn(after);
    }

    // By what becomes of requests in each network.
    fn change_by(&self, first: Result<End, Barrier>, second: Result<End, Barrier>) -> Option<Change>
        ensures { result ≡ change_by self.now.before.sent.network self.now.after.sent.network first second }
    {
        change_by(self.before.network(), self.after.network(), first, second)
    }

    // Of requests that reach an end in the second network alone.
    fn opened(&self, end: End, sides: &Box5) -> Part<Option<Change>>
        requires { IsValid sides.now }
        ensures { Answers (AreAmong (near self.now.before.sent (low_of sides.now)))
            (opened_at self.now.before.sent self.now.after.sent end) sides.now result }
    {
        let answer = self.before.fate_on(sides);
        Part {
            body: answer.body,
            told: self.change_by(answer.told, Ok(end)),
        }
    }

    // Of requests that reach an end in the first network alone.
    fn closed(&self, end: End, sides: &Box5) -> Part<Option<Change>>
        requires { IsValid sides.now }
        ensures { Answers (AreAmong (near self.now.after.sent (low_of sides.now)))
            (closed_at self.now.before.sent self.now.after.sent end) sides.now result }
    {
        let answer = self.after.fate_on(sides);
        Part {
            body: answer.body,
            told: self.change_by(Ok(end), answer.told),
        }
    }

    // Whether all requests of the second part arrive alike in both networks, where the replies of both get back.
    fn arrive_alike(&self, sides: &Box5, one: &Arrivals, other: &Arrivals) -> bool
        requires one { ComeTo self.now.before.sent sides.now one.now }
        requires other { ComeTo self.now.after.sent one.now.header.part other.now }
        requires back { one.now.back ≡ None }
        requires also { other.now.back ≡ None }
        ensures { IsTrue result → (h : Header) → holds h other.now.header.part ≡ true
            → change_of self.now.before.sent self.now.after.sent h ≡ None }
    {
        let narrowed = one.header.within(&other.header.part);
        if !same_image(&narrowed, &other.header) {
            return false;
        }
        match self.change_by(Ok(End::Interface(one.end)), Ok(End::Interface(other.end))) {
            Some(_) => false,
            None => let_in_alike(
                self.before.fabric(),
                one.end,
                self.after.fabric(),
                other.end,
                self.groups,
            ),
        }
    }

    // Whether requests that come to an interface in each network reach the same end, whatever these let in.
    fn come_alike(&self, sides: &Box5, one: &Arrivals, other: &Arrivals) -> bool
        requires one { ComeTo self.now.before.sent sides.now one.now }
        requires other { ComeTo self.now.after.sent one.now.header.part other.now }
        ensures { IsTrue result → (h : Header) → holds h other.now.header.part ≡ true
            → change_of self.now.before.sent self.now.after.sent h ≡ None }
    {
        match (one.back, other.back) {
            (Some(_), Some(_)) => true,
            (None, None) => self.arrive_alike(sides, one, other),
            _ => false,
        }
    }

    // A part of the sides for which nothing changes, found without asking what the interfaces let in to which its requests come:
    // rules that are equal in both networks don't divide it.
    fn unchanged_on(&self, sides: &Box5) -> Option<Box5>
        requires { IsValid sides.now }
        ensures { IfSome result (λ b. Answers
            (AreAmong (change_cuts self.now.before.sent self.now.after.sent (low_of sides.now)))
            (change_of self.now.before.sent self.now.after.sent) sides.now
            (record { body = b; told = None })) }
    {
        // To follow requests in both networks takes longer than to ask the few rules that divide a part of few ports.
        if sides.q.1 - sides.q.0 < FEW_PORTS {
            return None;
        }
        let one = self.before.arrivals_on(sides)?;
        let other = self.after.arrivals_on(&one.header.part)?;
        if self.come_alike(sides, &one, &other) {
            Some(other.header.part)
        } else {
            None
        }
    }

    // What changes for the requests of a part of the sides.
    fn change_on(&self, sides: &Box5) -> Part<Option<Change>>
        requires { IsValid sides.now }
        ensures { Answers (AreAmong (change_cuts self.now.before.sent self.now.after.sent (low_of sides.now)))
            (change_of self.now.before.sent self.now.after.sent) sides.now result }
    {
        if let Some(body) = self.unchanged_on(sides) {
            return Part { body, told: None };
        }
        let first = self.before.reached_on(sides);
        let second = self.after.reached_on(&first.body);
        match (first.told, second.told) {
            (None, None) => Part {
                body: second.body,
                told: None,
            },
            (None, Some(end)) => self.opened(end, &second.body),
            (Some(end), None) => self.closed(end, &second.body),
            (Some(one), Some(other)) => Part {
                body: second.body,
                told: self.change_by(Ok(one), Ok(other)),
            },
        }
    }
}

impl<'a> Probe for ChangeProbe<'a> {
    ghost use Rattle.journey_changes.specs.Cuts.{change_cuts_are_among_all};
    ghost use Rattle.journey_changes.specs.Changes.{change_cuts, change_of, cuts_of_both};

    type Word = Change;

    ghost meaning = { λ p. change_of p.before.sent p.after.sent };

    ghost cuts = { λ p. cuts_of_both p.before.sent.network p.after.sent.network };

    ghost near = { λ p. change_cuts p.before.sent p.after.sent };

    ghost near_among = { λ p. change_cuts_are_among_all p.before.sent p.after.sent };

    fn is_same(one: Change, other: Change) -> bool
        ensures { IsTrue result ↔ (one ≡ other) }
    {
        same_change(one, other)
    }

    fn probe(&self, sides: &Box5) -> (Box5, Option<Change>) {
        let answer = self.change_on(sides);
        (answer.body, answer.told)
    }
}
