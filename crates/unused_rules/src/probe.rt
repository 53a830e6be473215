// The probe that finds requests of which something else becomes in another network.
ghost use Rattle.std.specs.Prelude.{◌≡◌, ◌↔◌, IsTrue};
ghost use Rattle.box_walk.specs.Asking.{asked_by, homes_by};
ghost use Rattle.unused_rules.specs.Same.{unless_apart};

use box_walk::RoundProbe;
use header_boxes::Box5;
use ordered_cover::Probe;
use vpc_model::{Phase, Stop};

fn are_same(one: Option<(Phase, Stop)>, other: Option<(Phase, Stop)>) -> bool
    ensures { IsTrue result ↔ (one ≡ other) }
{
    match (one, other) {
        (None, None) => true,
        (Some(one), Some(other)) => RoundProbe::is_same(one, other),
        (None, Some(_)) => false,
        (Some(_), None) => false,
    }
}

fn unless_apart(one: Option<(Phase, Stop)>, other: Option<(Phase, Stop)>) -> Option<()>
    ensures { result ≡ unless_apart one other }
{
    if are_same(one, other) { Some(()) } else { None }
}

/// Whether the same becomes of requests, and of their replies, in two networks. What differs counts as getting through here,
/// so that a search finds the first request that does.
#[derive(Drop)]
pub(crate) struct AgreementProbe<'a, 'b> {
    before: &'a RoundProbe<'b>,
    after: &'a RoundProbe<'b>,
}

impl<'a, 'b> AgreementProbe<'a, 'b> {
    /// The probe for the networks of two others.
    pub(crate) fn of(
        before: &'a RoundProbe<'b>,
        after: &'a RoundProbe<'b>,
    ) -> AgreementProbe<'a, 'b>
        ensures before { asked_by result.before.now.fabric.now
            (homes_by result.before.now.links.now result.before.now.start) result.before.now.goal
            ≡ asked_by before.now.fabric.now
            (homes_by before.now.links.now before.now.start) before.now.goal }
        ensures after { asked_by result.after.now.fabric.now
            (homes_by result.after.now.links.now result.after.now.start) result.after.now.goal
            ≡ asked_by after.now.fabric.now
            (homes_by after.now.links.now after.now.start) after.now.goal }
    {
        AgreementProbe { before, after }
    }
}

impl<'a, 'b> Probe for AgreementProbe<'a, 'b> {
    ghost use Rattle.unused_rules.specs.Probe.{agreement_of, cuts_of_both, near_among_both, near_cuts_of_both};

    type Word = ();

    ghost meaning = { λ p h. agreement_of
        (asked_by p.before.now.fabric.now
        (homes_by p.before.now.links.now p.before.now.start) p.before.now.goal)
        (asked_by p.after.now.fabric.now
        (homes_by p.after.now.links.now p.after.now.start) p.after.now.goal) h };

    ghost cuts = { λ p. cuts_of_both
        (asked_by p.before.now.fabric.now
        (homes_by p.before.now.links.now p.before.now.start) p.before.now.goal)
        (asked_by p.after.now.fabric.now
        (homes_by p.after.now.links.now p.after.now.start) p.after.now.goal) };

    ghost near = { λ p h. near_cuts_of_both
        (asked_by p.before.now.fabric.now
        (homes_by p.before.now.links.now p.before.now.start) p.before.now.goal)
        (asked_by p.after.now.fabric.now
        (homes_by p.after.now.links.now p.after.now.start) p.after.now.goal) h };

    ghost near_among = { λ p h. near_among_both
        (asked_by p.before.now.fabric.now
        (homes_by p.before.now.links.now p.before.now.start) p.before.now.goal)
        (asked_by p.after.now.fabric.now
        (homes_by p.after.now.links.now p.after.now.start) p.after.now.goal) h };

    fn is_same(one: (), other: ()) -> bool
        ensures { IsTrue result ↔ (one ≡ other) }
    {
        true
    }

    // The part on which the requests take one walk in each of the two.
    fn probe(&self, sides: &Box5) -> (Box5, Option<()>) {
        let (first, one) = self.before.probe(sides);
        let (part, other) = self.after.probe(&first);
        (part, unless_apart(one, other))
    }
}
