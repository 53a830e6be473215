// The probe that is asked whether headers are stopped as a row says.
ghost use Rattle.std.specs.Prelude.{◌≡◌, ◌↔◌, IsTrue, Some};
ghost use Rattle.box_walk.specs.Asking.{homes_by};
ghost use Rattle.vpc_laws.specs.Types.{Phase, Stop};
ghost use Rattle.vpc_model.specs.Accepted.{IsAccepted};
ghost use Rattle.vpc_model.specs.Sound.{has_text};
ghost use Rattle.report_check.specs.Agreement.{agreed, agreement_of, told_of};

use box_walk::RoundProbe;
use header_boxes::Box5;
use ordered_cover::Probe;
use reference_check::Network;
use report_reader::same_text;
use vpc_model::{Phase, Stop, StopText};

/// Whether requests, or their replies, are stopped as a text says. What gets through here is what something else
/// becomes of, so that a search finds the first header that the text isn't true of.
#[derive(Drop)]
pub struct RowProbe<'a, 'b> {
    walks: &'a RoundProbe<'b>,
    network: &'a Network,
    text: &'a StopText,
    ghost same: { walks.now.fabric.now ≡ network.now },
    ghost accepted: { IsAccepted network.now },
}

impl<'a, 'b> RowProbe<'a, 'b> {
    /// The probe for a text, over the one that tells what stops each header.
    pub fn of(
        walks: &'a RoundProbe<'b>,
        network: &'a Network,
        text: &'a StopText,
    ) -> RowProbe<'a, 'b>
        requires { walks.now.fabric.now ≡ network.now }
        ensures { agreement_of result.network.now
            (homes_by result.walks.now.links.now result.walks.now.start)
            result.walks.now.goal result.text.now
            ≡ agreement_of network.now
            (homes_by walks.now.links.now walks.now.start) walks.now.goal text.now }
    {
        let _ = network.description();
        RowProbe {
            walks,
            network,
            text,
        }
    }

    // Whether what stops a header is told by the text.
    fn agreed(&self, word: Option<(Phase, Stop)>) -> Option<()>
        requires { (told : Phase × Stop) → word ≡ Some told → IsTrue (has_text self.now.network.now told.1) }
        ensures { result ≡ agreed self.now.text.now (told_of self.now.network.now word) }
    {
        let (phase, stop) = word?;
        if same_text(self.network, self.text, phase, &stop) {
            Some(())
        } else {
            None
        }
    }
}

impl<'a, 'b> Probe for RowProbe<'a, 'b> {
    ghost use Rattle.vpc_model.specs.Appliances.{appliances_of};
    ghost use Rattle.vpc_model.specs.Cuts.{cuts_of};
    ghost use Rattle.vpc_model.specs.Near.{near_cuts};
    ghost use Rattle.cut_laws.proofs.Places.{near_cuts_are_among_all};

    type Word = ();

    ghost meaning = { λ p. agreement_of p.network.now
        (homes_by p.walks.now.links.now p.walks.now.start) p.walks.now.goal p.text.now };

    ghost cuts = { λ p. cuts_of p.network.now };

    ghost near = { λ p h. near_cuts p.network.now
        (appliances_of p.network.now) p.walks.now.start p.walks.now.goal h };

    ghost near_among = { λ p h. near_cuts_are_among_all p.network.now
        (appliances_of p.network.now) p.walks.now.start p.walks.now.goal h };

    fn is_same(one: (), other: ()) -> bool
        ensures { IsTrue result ↔ (one ≡ other) }
    {
        true
    }

    fn probe(&self, sides: &Box5) -> (Box5, Option<()>) {
        let (part, word) = self.walks.probe(sides);
        (part, self.agreed(word))
    }
}
