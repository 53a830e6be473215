// Whether requests reach the end that a row names.
ghost use Rattle.std.specs.Prelude.{◌≡◌, None, Some, bytes_eq, if◌then◌else◌, option_map};
ghost use Rattle.vpc_model.specs.Told.{end_id};
ghost use Rattle.listing_check.specs.Agreement.{agreed};

use changed_ends::id_at;
use header_boxes::Box5;
use journey_changes::FateProbe;
use listing_check::Telling;
use reference_check::Network;
use vpc_model::End;

// ---- one id

fn same_id(wanted: &[u8], told: &[u8]) -> Option<()>
    ensures { result ≡ (if bytes_eq wanted.now told.now then Some tt else None) }
{
    if wanted == told { Some(()) } else { None }
}

// Whether an end that is reached has the id that is wanted, or none is reached and none wanted.
fn agreed(n: &Network, wanted: Option<&[u8]>, end: Option<End>) -> Option<()>
    ensures { result ≡ agreed (option_map (λ w. w.now) wanted.entry) (option_map (end_id n.now) end) }
{
    match (wanted, end) {
        (None, None) => Some(()),
        (None, Some(_)) => None,
        (Some(_), None) => None,
        (Some(wanted), Some(end)) => same_id(wanted, id_at(n, end)),
    }
}

// ---- requests of a box

/// What is told of the requests from the start of a probe: the id of the end that they reach.
pub struct ReachListing<'a> {
    walks: FateProbe<'a>,
    network: &'a Network,
    ghost same: { walks.sent.network ≡ network.now },
}

impl<'a> Drop for ReachListing<'a> {
    fn drop(self) {
        let ReachListing { walks, network: _ } = self;
        drop(walks);
    }
}

impl<'a> ReachListing<'a> {
    /// What is told by a probe of the network.
    pub fn of(walks: FateProbe<'a>, network: &'a Network) -> ReachListing<'a>
        requires { walks.sent.network ≡ network.now }
        ensures { result.walks.sent ≡ walks.entry.sent }
    {
        ReachListing { walks, network }
    }
}

impl<'a> Telling for ReachListing<'a> {
    ghost use Rattle.vpc_model.specs.Cuts.{cuts_of};
    ghost use Rattle.journey_changes.specs.Cuts.{along_among};
    ghost use Rattle.journey_changes.specs.Sent.{near};
    ghost use Rattle.reach_check.specs.Reaches.{end_told};

    ghost told = { λ l. end_told l.walks.sent };

    ghost cuts = { λ l. cuts_of l.walks.sent.network };

    ghost near = { λ l. near l.walks.sent };

    ghost near_among = { λ l. along_among l.walks.sent.network l.walks.sent.start l.walks.sent.toward };

    fn agrees_on(&self, sides: &Box5, wanted: Option<&[u8]>) -> (Box5, Option<()>) {
        let answer = self.walks.reached_on(sides);
        (answer.body, agreed(self.network, wanted, answer.told))
    }
}
